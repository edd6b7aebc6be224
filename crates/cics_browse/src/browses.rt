//! A browse: a position in a file, which any call may have changed in between.

ghost use Rattle.std.specs.Prelude.{◌≡◌, ◌==◌, ◌++◌, IfOk, OnOk, OnErr, IfSome, IsTrue};
ghost use Rattle.std.specs.Prelude.{Some, None, if◌then◌else◌, option_map, option_copied, false};
ghost use Rattle.std.specs.List.{list_all};
ghost use Rattle.cics_ksds.specs.Files.{entry_of, fits_file, last_to};

use cics_ksds::{FileDef, Ordered};
use cics_names::{Condition, NoMemory, Record, stamp_flag, stamp_number, stamp_text};
use std::marker::Model;

/// The last move of a browse: how it came to its key.
#[derive(Clone, Copy, PartialEq, Eq)]
pub enum Move {
    /// STARTBR or RESETBR asked for it.
    Start,
    /// READNEXT read it last.
    Forward,
    /// READPREV read it last.
    Back,
}

impl Move {
    ghost use Rattle.cics_browse.specs.Stamps.{move_number};

    // Returns the number that its stamp has.
    fn number(self) -> u64
        ensures { result ≡ move_number self }
    {
        match self {
            Move::Start => 0,
            Move::Forward => 1,
            Move::Back => 2,
        }
    }
}

/// What a read of a browse is answered.
#[derive(Drop)]
pub struct Browsed {
    /// NORMAL if there is a record, else NOTFND, ENDFILE or INVREQ.
    pub condition: Condition,
    /// The key of the record, or None without one.
    pub key: Option<Record>,
    /// The whole record, or None without one.
    pub content: Option<Record>,
}

/// A browse of one file (the browsing part of the file control chapter of the Application
/// Programmer's Reference Manual).
///
/// It holds a key and never the number of a record, so the file may change in any way between two
/// calls. Each call takes the file anew. The caller must pass the same file each time. Unchanged on
/// error.
#[derive(Drop)]
pub struct Browse {
    key: Record,
    last_move: Move,
    generic: bool,
}

impl Model for Browse {
    ghost use Rattle.cics_browse.specs.Positions.{Position};

    ghost Value = { Position };

    ghost view = { λ b. record { key = b.key; last_move = b.last_move; generic = b.generic } };
}

/// Returns an answer without a record.
fn nothing(condition: Condition) -> Browsed
    ensures { result ≡ record { condition = condition; key = None; content = None } }
{
    Browsed {
        condition,
        key: None,
        content: None,
    }
}

impl Browse {
    ghost use Rattle.cics_browse.specs.Stamps.{position_stamp};
    ghost use Rattle.cics_browse.specs.Positions.{finds_start, start_at, reset_condition};
    ghost use Rattle.cics_browse.specs.Positions.{after_reset};
    ghost use Rattle.cics_browse.specs.Positions.{read_next, after_next, read_prev, after_prev};
    ghost use Rattle.cics_browse.specs.Positions.{reply_of, position_after};

    /// STARTBR: returns a browse whose position is the key, or None if its start isn't found, which
    /// is NOTFND. The key moves in. It takes no memory.
    ///
    /// `generic` says that the key is only the first bytes of one. With `equal` the key itself must
    /// be there, or with `generic` a key that begins with it. Without `equal` any key that isn't
    /// below it will do. A key that isn't generic and has nothing but bytes X'FF' means the end of
    /// the file. Without `equal` every file has it.
    ///
    /// Without `generic` a region passes keys of the file's length. No record has any other key:
    /// reads then begin where its bytes would stand. An empty key means the end of the file too.
    pub fn start<F: Ordered>(file: &F, key: Record, generic: bool, equal: bool) -> Option<Browse>
        ensures { result
            ≡ (if finds_start (F.file_records file.now) key generic equal
            then Some (start_at key generic) else None) }
    {
        if finds(file, key.bytes(), generic, equal) {
            Some(Browse {
                key,
                last_move: Move::Start,
                generic,
            })
        } else {
            None
        }
    }

    /// Returns whether the browse was started, or last reset, with GENERIC.
    pub fn is_generic(&self) -> bool
        ensures { result ≡ self.now.generic }
    {
        self.generic
    }

    /// Returns the key of its position.
    pub fn key(&self) -> &[u8]
        ensures { result.now ≡ self.now.key }
    {
        self.key.bytes()
    }

    /// Returns how it came to its key. A read without a record doesn't change that.
    pub fn last_move(&self) -> Move
        ensures { result ≡ self.now.last_move }
    {
        self.last_move
    }

    /// Appends the stamp of its position.
    ///
    /// Errors: `NoMemory`.
    pub fn stamp(&self, out: &mut Vec<u8>) -> Result<(), NoMemory>
        ensures { OnOk result (out.new.items ≡ out.old.items ++ position_stamp self.now) }
    {
        stamp_text(out, self.key.bytes())?;
        stamp_number(out, self.last_move.number())?;
        stamp_flag(out, self.generic)
    }

    /// RESETBR: makes the key the position, as `start` with the same arguments would. If its start
    /// isn't found, it is answered NOTFND, and the position and its `generic` stay.
    pub fn reset<F: Ordered>(
        &mut self,
        file: &F,
        key: Record,
        generic: bool,
        equal: bool,
    ) -> Condition
        ensures condition { result ≡ reset_condition (F.file_records file.now) key generic equal }
        ensures position { self.new ≡ after_reset (F.file_records file.now) self.old key
            generic equal }
    {
        if !finds(file, key.bytes(), generic, equal) {
            return Condition::Notfnd;
        }
        self.key = key;
        self.last_move = Move::Start;
        self.generic = generic;
        Condition::Normal
    }

    /// READNEXT: reads the record of the smallest key that isn't below the position, or after a
    /// READNEXT is above it. Its key becomes the position. ENDFILE if there is none, and then the
    /// position stays. A prefix with which the browse was started is no bound here.
    ///
    /// It copies the key and the record. The only error is `NoMemory`.
    pub fn next<F: Ordered>(&mut self, file: &F) -> Result<Browsed, NoMemory>
        ensures reply { IfOk result (λ reply. reply
            ≡ read_next (F.file_records file.now) self.old) }
        ensures position { OnOk result (self.new ≡ after_next (F.file_records file.now) self.old) }
        ensures err { OnErr result (self.new ≡ self.old) }
    {
        let found = file.first_from(self.key.bytes(), self.last_move == Move::Forward);
        self.give(file.definition(), found, Move::Forward, Condition::Endfile)
    }

    /// READPREV: reads the record of the greatest key that isn't above the position, or after a
    /// READPREV is below it. Its key becomes the position. ENDFILE if there is none.
    ///
    /// At the key that STARTBR or RESETBR asked for, it reads the record of that very key, or is
    /// answered NOTFND. If that key has nothing but bytes X'FF', it means the end of the file. Then
    /// it reads the last record, or is answered ENDFILE in an empty file. INVREQ if that STARTBR or
    /// RESETBR was generic. On any of these conditions the position stays.
    ///
    /// It copies the key and the record. The only error is `NoMemory`.
    pub fn prev<F: Ordered>(&mut self, file: &F) -> Result<Browsed, NoMemory>
        ensures reply { IfOk result (λ reply. reply
            ≡ read_prev (F.file_records file.now) self.old) }
        ensures position { OnOk result (self.new ≡ after_prev (F.file_records file.now) self.old) }
        ensures err { OnErr result (self.new ≡ self.old) }
    {
        if self.generic {
            return Ok(nothing(Condition::Invreq));
        }
        let found = entry_before(file, self.key.bytes(), self.last_move);
        let none = none_before(self.key.bytes(), self.last_move);
        self.give(file.definition(), found, Move::Back, none)
    }

    /// Returns the record that was found and makes its key the position, or returns the condition.
    fn give(
        &mut self,
        definition: FileDef,
        found: Option<&Record>,
        last_move: Move,
        none: Condition,
    ) -> Result<Browsed, NoMemory>
        requires { IfSome found (λ r. IsTrue (fits_file definition r.now)) }
        ensures reply { IfOk result (λ reply. reply
            ≡ reply_of none (option_map (entry_of definition) (option_copied found.entry))) }
        ensures position { OnOk result (self.new
            ≡ position_after self.old last_move (option_map (entry_of definition)
            (option_copied found.entry))) }
        ensures err { OnErr result (self.new ≡ self.old) }
    {
        let Some(from) = found else {
            return Ok(nothing(none));
        };
        let offset = definition.key_offset as usize;
        let count = definition.key_length as usize;
        // All that may fail comes before the position moves.
        let content = from.copy()?;
        let key = from.part(offset, count)?;
        let position = key.copy()?;
        self.key = position;
        self.last_move = last_move;
        Ok(Browsed {
            condition: Condition::Normal,
            key: Some(key),
            content: Some(content),
        })
    }
}

/// Whether each byte is X'FF'.
fn is_all_high(key: &[u8]) -> bool
    ensures { result ≡ list_all (λ b. b == 255) key.now }
{
    key.iter().all(|b| *b == 255)
}

ghost use Rattle.cics_browse.specs.Positions.{finds_start as found_at, prev_entry_at, prev_none};
ghost use Rattle.cics_browse.specs.Positions.{only_same};

/// Returns whether STARTBR or RESETBR finds its start.
fn finds<F: Ordered>(file: &F, key: &[u8], generic: bool, equal: bool) -> bool
    ensures { result ≡ found_at (F.file_records file.now) key.now generic equal }
{
    let found = file.first_from(key, false);
    if !equal {
        return found.is_some() || (!generic && is_all_high(key));
    }
    match found {
        None => false,
        Some(from) if generic => file.definition().key_in(from.bytes()).starts_with(key),
        Some(from) => key.cmp(file.definition().key_in(from.bytes())).is_eq(),
    }
}

/// Returns the record that READPREV reads from a position that no generic key set.
fn entry_before<'a, F: Ordered>(file: &'a F, key: &[u8], last_move: Move) -> Option<&'a Record>
    ensures found { prev_entry_at (F.file_records file.now) key.now false last_move
        ≡ option_map (entry_of (F.file_definition file.now)) (option_copied result) }
    ensures fits { IfSome result (λ r. IsTrue (fits_file (F.file_definition file.now) r.now)) }
{
    match last_move {
        Move::Forward => file.last_to(key, false),
        Move::Back => file.last_to(key, true),
        Move::Start => {
            if is_all_high(key) {
                file.last_to(key, false)
            } else {
                own_entry(file, key)
            }
        }
    }
}

/// Returns the record of the key itself.
fn own_entry<'a, F: Ordered>(file: &'a F, key: &[u8]) -> Option<&'a Record>
    ensures found { only_same key.now (last_to (F.file_records file.now) key.now false)
        ≡ option_map (entry_of (F.file_definition file.now)) (option_copied result) }
    ensures fits { IfSome result (λ r. IsTrue (fits_file (F.file_definition file.now) r.now)) }
{
    let found = file.last_to(key, false)?;
    if key.cmp(file.definition().key_in(found.bytes())).is_eq() {
        Some(found)
    } else {
        None
    }
}

/// Returns what READPREV is answered without a record. The key asked for must be there, but the
/// file's end may be that of an empty file.
fn none_before(key: &[u8], last_move: Move) -> Condition
    ensures { result ≡ prev_none key.now false last_move }
{
    if last_move == Move::Start && !is_all_high(key) {
        Condition::Notfnd
    } else {
        Condition::Endfile
    }
}
