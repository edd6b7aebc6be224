//! What a command that takes no lock looks at.

ghost use Rattle.std.specs.Prelude.{◌≡◌, ◌==◌, Some, option_map, option_copied, IfOk, IfSome};
ghost use Rattle.std.specs.List.{list_all};
ghost use Rattle.cics_names.specs.Keyed.{value_at};
ghost use Rattle.cics_dispatch.specs.Machine.Machine.{definition_of};
ghost use Rattle.cics_browse.specs.Positions.{is_forward};
ghost use Rattle.cics_run.specs.Reads.Looks.{first_key, reached, bound};
ghost use Rattle.cics_run.specs.Reads.Looks.{read_spot, start_spot, next_spot, is_back};
ghost use Rattle.cics_run.specs.Reads.Looks.{lowest, prev_spot, spot_of};

use crate::reads::steps::{Bound, Spot};
use cics_browse::{Browse, Move};
use cics_dispatch::{Region, Verb};
use cics_ksds::File;
use cics_names::{Name8, NoMemory, Record};
use std::alloc::Global;

// A file of a region as it stands, with its name.
#[derive(Drop)]
struct Target<'a> {
    name: Name8,
    file: &'a File,
    alloc: Global,
}

// Returns an end of an interval.
fn bound(key: Record, is_in: bool) -> Bound
    ensures { result ≡ bound key is_in }
{
    if is_in {
        Bound::In(key)
    } else {
        Bound::Out(key)
    }
}

// Returns whether each byte is X'FF'.
fn is_all_high(key: &[u8]) -> bool
    ensures { result ≡ list_all (λ b. b == 255) key.now }
{
    key.iter().all(|b| *b == 255)
}

impl Target<'_> {
    // Returns the first key from a bound on, or with `strict` above it.
    fn first_key(&self, bound: &[u8], strict: bool) -> Option<&[u8]>
        ensures { option_copied result
            ≡ first_key self.now.file.now.records bound.now strict }
    {
        let record = self.file.first_from(bound, strict)?;
        Some(self.file.definition().key_in(record.bytes()))
    }

    // Returns the key that was found, if it begins with these bytes, and else the greatest that
    // does.
    fn reached(&self, front: &[u8], found: Option<&[u8]>) -> Result<Record, NoMemory>
        ensures { IfOk result (λ key. key ≡ reached self.now.file.now.definition front.now
            (option_copied found.entry)) }
    {
        match found {
            Some(key) if key.starts_with(front) => Record::from_slice(self.alloc, key),
            _ => {
                let mut key = Vec::new(self.alloc);
                key.extend_from_slice(front)?;
                let len = self.file.definition().key_length as usize;
                key.resize(len.max(front.len()), 255)?;
                Ok(Record::new(key))
            }
        }
    }

    // Returns what READ looks at. The key that it finds begins with `front`.
    fn read_spot(&self, key: &Record, front: &[u8]) -> Result<Option<Spot>, NoMemory>
        ensures { IfOk result (λ spot. spot ≡ Some (read_spot self.now.name
            self.now.file.now.definition self.now.file.now.records key.now front.now)) }
    {
        let found = self.first_key(key.bytes(), false);
        Ok(Some(Spot::Keys {
            file: self.name,
            from: Bound::In(key.copy()?),
            to: Bound::In(self.reached(front, found)?),
        }))
    }

    // Returns what STARTBR or RESETBR looks at.
    fn start_spot(&self, key: &Record, generic: bool, equal: bool) -> Result<Option<Spot>, NoMemory>
        ensures { IfOk result (λ spot. spot ≡ start_spot self.now.name
            self.now.file.now.definition self.now.file.now.records key.now generic equal) }
    {
        match Browse::start(self.file, key.copy()?, generic, equal) {
            Some(_) => Ok(None),
            None => {
                let front = if equal { key.bytes() } else { b"" };
                self.read_spot(key, front)
            }
        }
    }

    // Returns what READNEXT looks at.
    fn next_spot(&self, browse: &Browse) -> Result<Option<Spot>, NoMemory>
        ensures { IfOk result (λ spot. spot ≡ Some (next_spot self.now.name
            self.now.file.now.definition self.now.file.now.records browse.now)) }
    {
        let is_forward = matches!(browse.last_move(), Move::Forward);
        let key = Record::from_slice(self.alloc, browse.key())?;
        let found = self.first_key(browse.key(), is_forward);
        Ok(Some(Spot::Keys {
            file: self.name,
            from: bound(key, !is_forward),
            to: Bound::In(self.reached(b"", found)?),
        }))
    }

    // Returns the least key that READPREV finds or could find.
    fn lowest(&self, browse: &Browse) -> Result<Record, NoMemory>
        ensures { IfOk result (λ key. key ≡ lowest self.now.file.now.records browse.now) }
    {
        let is_end = !browse.is_generic() && is_all_high(browse.key());
        if matches!(browse.last_move(), Move::Start) && !is_end {
            return Record::from_slice(self.alloc, browse.key());
        }
        let is_back = matches!(browse.last_move(), Move::Back);
        match self.file.last_to(browse.key(), is_back) {
            Some(record) => {
                let key = self.file.definition().key_in(record.bytes());
                Record::from_slice(self.alloc, key)
            }
            None => Ok(Record::new(Vec::new(self.alloc))),
        }
    }

    // Returns what READPREV looks at.
    fn prev_spot(&self, browse: &Browse) -> Result<Option<Spot>, NoMemory>
        ensures { IfOk result (λ spot. spot
            ≡ Some (prev_spot self.now.name self.now.file.now.records browse.now)) }
    {
        let is_back = matches!(browse.last_move(), Move::Back);
        let key = Record::from_slice(self.alloc, browse.key())?;
        Ok(Some(Spot::Keys {
            file: self.name,
            from: Bound::In(self.lowest(browse)?),
            to: bound(key, !is_back),
        }))
    }
}

// Returns the file of a name, if it is defined.
fn target_of<'a>(region: &'a Region, name: &Name8) -> Option<Target<'a>>
    ensures name { IfSome result (λ t. t.name ≡ name.now) }
    ensures definition { definition_of region.now.machine name.now
        ≡ option_map (λ t. t.file.now.definition) result }
    ensures records { value_at name.now region.now.store.files
        ≡ option_map (λ t. t.file.now.records) result }
{
    let units = region.units();
    let file = units.file(name)?;
    Some(Target {
        name: *name,
        file,
        alloc: units.opening().allocator(),
    })
}

/// Returns what a command of a label's task looks at, if it passes its checks. The region is the
/// one before the command. READ UPDATE looks at nothing here.
///
/// Errors: `NoMemory`. Cost: O(log records + bytes of keys).
pub fn spot_of(region: &Region, label: &Name8, verb: &Verb) -> Result<Option<Spot>, NoMemory>
    ensures { IfOk result (λ spot. spot ≡ spot_of region.now label.now verb.now) }
{
    match verb {
        Verb::Read {
            file,
            ridfld,
            gteq,
            update: false,
            ..
        } => match target_of(region, file) {
            Some(target) => {
                let front = if *gteq { b"" } else { ridfld.bytes() };
                target.read_spot(ridfld, front)
            }
            None => Ok(None),
        },
        Verb::StartBr {
            file,
            ridfld: key,
            generic,
            equal,
            ..
        }
        | Verb::ResetBr {
            file,
            ridfld: key,
            generic,
            equal,
            ..
        } => match target_of(region, file) {
            Some(target) => target.start_spot(key, *generic, *equal),
            None => Ok(None),
        },
        Verb::ReadNext { file, .. } => {
            match (target_of(region, file), region.browse(label, file)) {
                (Some(target), Some(browse)) => target.next_spot(browse),
                _ => Ok(None),
            }
        }
        Verb::ReadPrev { file, .. } => {
            match (target_of(region, file), region.browse(label, file)) {
                (Some(target), Some(browse)) => target.prev_spot(browse),
                _ => Ok(None),
            }
        }
        Verb::ReadqTs {
            queue,
            item: Some(number),
            ..
        } => Ok(Some(Spot::Item(*queue, *number))),
        Verb::ReadqTs { queue, .. } => {
            let next = u64::from(region.units().next_place(queue)) + 1;
            Ok(Some(Spot::Item(*queue, next)))
        }
        _ => Ok(None),
    }
}
