//! The checks of a command that can fail.

ghost use Rattle.std.specs.Prelude.{◌≡◌};
ghost use Rattle.cics_dispatch.specs.Machine.Reasons.{condition_of};

use cics_names::Condition;

/// Which check a command failed, with the condition that answers it.
#[derive(Clone, Copy, PartialEq, Eq)]
pub enum Reason {
    /// DSIDERR: the file isn't defined.
    FileNotDefined,
    /// QIDERR: the transient data queue isn't defined.
    QueueNotDefined,
    /// INVREQ: READ UPDATE has GTEQ or GENERIC.
    UpdateNotByKey,
    /// INVREQ: KEYLENGTH isn't the length of RIDFLD.
    KeyLengthDiffers,
    /// INVREQ: RIDFLD isn't as long as the keys of the file.
    KeySize,
    /// INVREQ: RIDFLD with GENERIC is longer than the keys of the file.
    PrefixTooLong,
    /// INVREQ: RIDFLD of DELETE GENERIC has no byte.
    PrefixEmpty,
    /// INVREQ: DELETE has KEYLENGTH or GENERIC, but no RIDFLD.
    NoRidfld,
    /// LENGERR: LENGTH isn't from 1 to the length of FROM.
    LengthNotInFrom,
    /// LENGERR: the record doesn't reach the end of its key.
    RecordTooShort,
    /// LENGERR: the record is longer than the file's RECORDSIZE.
    RecordTooLong,
    /// LENGERR: an item or a record of transient data hasn't 1 to 32,767 bytes.
    ItemSize,
    /// LENGERR: LENGTH of ENQ or DEQ isn't from 1 to 255.
    ValueSize,
    /// LENGERR: LENGTH of ENQ or DEQ is above the length of the value as written.
    ValueTooShort,
    /// INVREQ: an update read of the file is open already.
    UpdateReadOpen,
    /// INVREQ: no update read of the file is open.
    NoUpdateRead,
    /// INVREQ: the key in FROM of a WRITE isn't RIDFLD.
    KeyIsNotRidfld,
    /// INVREQ: the key in FROM of a REWRITE isn't the one that was read for update.
    KeyIsNotRead,
    /// INVREQ: a browse of the file is open already.
    BrowseOpen,
    /// INVREQ: no browse of the file is open.
    NoBrowse,
    /// INVREQ: READPREV after a GENERIC start.
    BrowseIsGeneric,
}

impl Reason {
    /// Returns the condition that answers a command that failed this check.
    pub fn condition(self) -> Condition
        ensures { result ≡ condition_of self }
    {
        match self {
            Reason::FileNotDefined => Condition::Dsiderr,
            Reason::QueueNotDefined => Condition::Qiderr,
            Reason::LengthNotInFrom
            | Reason::RecordTooShort
            | Reason::RecordTooLong
            | Reason::ItemSize
            | Reason::ValueSize
            | Reason::ValueTooShort => Condition::Lengerr,
            Reason::UpdateNotByKey
            | Reason::KeyLengthDiffers
            | Reason::KeySize
            | Reason::PrefixTooLong
            | Reason::PrefixEmpty
            | Reason::NoRidfld
            | Reason::UpdateReadOpen
            | Reason::NoUpdateRead
            | Reason::KeyIsNotRidfld
            | Reason::KeyIsNotRead
            | Reason::BrowseOpen
            | Reason::NoBrowse
            | Reason::BrowseIsGeneric => Condition::Invreq,
        }
    }
}
