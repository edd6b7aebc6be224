//! The exceptional conditions.

ghost use Rattle.std.specs.Prelude.{◌≡◌};
ghost use Rattle.cics_names.specs.Conditions.{number_of, title_of, default_abend_of};

use crate::names::Name4;

/// What a command is answered: `Normal`, or one of the exceptional conditions.
///
/// The exceptional conditions chapter of the Application Programmer's Reference Manual describes
/// them.
#[derive(Clone, Copy, PartialEq, Eq)]
pub enum Condition {
    /// The command did what it was asked for.
    Normal,
    /// No such file is defined.
    Dsiderr,
    /// No record has the key.
    Notfnd,
    /// A record with the key is there already.
    Duprec,
    /// The command is not valid here, or not with these options.
    Invreq,
    /// A browse has come to the end of the file.
    Endfile,
    /// A length is wrong, or too short for what was read.
    Lengerr,
    /// The transient data queue is empty.
    Qzero,
    /// The command would have to wait for a transient data queue, and was told not to.
    Qbusy,
    /// The temporary storage queue has no such item, or no room for one more.
    Itemerr,
    /// There is no such queue.
    Qiderr,
    /// The command would have to wait for an enqueue, and was told not to.
    Enqbusy,
}

/// The code that a task is ended with when it is abended.
#[derive(Clone, Copy, PartialEq, Eq)]
pub struct AbendCode(pub Name4);

impl Condition {
    /// Returns its number, as RESP and EIBRESP have it.
    pub fn number(self) -> u64
        ensures { result ≡ number_of self }
    {
        match self {
            Condition::Normal => 0,
            Condition::Dsiderr => 12,
            Condition::Notfnd => 13,
            Condition::Duprec => 14,
            Condition::Invreq => 16,
            Condition::Endfile => 20,
            Condition::Lengerr => 22,
            Condition::Qzero => 23,
            Condition::Qbusy => 25,
            Condition::Itemerr => 26,
            Condition::Qiderr => 44,
            Condition::Enqbusy => 55,
        }
    }

    /// Returns its name in capitals, as a journal prints it.
    pub fn name(self) -> &'static str
        ensures { result.now ≡ title_of self }
    {
        match self {
            Condition::Normal => "NORMAL",
            Condition::Dsiderr => "DSIDERR",
            Condition::Notfnd => "NOTFND",
            Condition::Duprec => "DUPREC",
            Condition::Invreq => "INVREQ",
            Condition::Endfile => "ENDFILE",
            Condition::Lengerr => "LENGERR",
            Condition::Qzero => "QZERO",
            Condition::Qbusy => "QBUSY",
            Condition::Itemerr => "ITEMERR",
            Condition::Qiderr => "QIDERR",
            Condition::Enqbusy => "ENQBUSY",
        }
    }

    /// Returns the code that a task is abended with if the condition comes up and the command
    /// handles none.
    ///
    /// `None` for the conditions that abend no task: `Normal`, `Qbusy` and `Enqbusy`.
    pub fn default_abend(self) -> Option<AbendCode>
        ensures { result ≡ default_abend_of self }
    {
        let (third, fourth) = match self {
            Condition::Normal | Condition::Qbusy | Condition::Enqbusy => return None,
            Condition::Dsiderr => (0xC9, 0xD3),
            Condition::Notfnd => (0xC9, 0xD4),
            Condition::Duprec => (0xC9, 0xD5),
            Condition::Invreq => (0xC9, 0xD7),
            Condition::Endfile => (0xC9, 0xE3),
            Condition::Lengerr => (0xC9, 0xE5),
            Condition::Qzero => (0xC9, 0xE6),
            Condition::Itemerr => (0xC9, 0xE9),
            Condition::Qiderr => (0xE8, 0xC8),
        };
        Some(AbendCode(Name4::of_bytes([0xC1, 0xC5, third, fourth])))
    }
}
