//! The parts of endings.

ghost use Rattle.std.specs.Prelude.{◌≡◌, ◌++◌, IfOk, OnOk};
ghost use Rattle.std.specs.List.{flat_map};
ghost use Rattle.cics_orders.specs.Report.Parts.{mark_in, told_in, is_in, is_in_each, first_told};
ghost use Rattle.cics_orders.specs.Report.Parts.{shared, own_text};

use crate::space::Ending;
use cics_names::{Items, NoMemory, Record};
use std::alloc::Global;

/// Returns the mark of an ending.
pub(crate) fn mark_in(parts: &[Record]) -> &[u8]
    ensures { result.now ≡ mark_in parts.now }
{
    match parts.split_first() {
        Some((mark, _)) => mark.bytes(),
        None => &[],
    }
}

/// Returns the other parts of an ending.
pub(crate) fn told_in(parts: &[Record]) -> &[Record]
    ensures { result.now ≡ told_in parts.now }
{
    match parts.split_first() {
        Some((_, told)) => told,
        None => parts,
    }
}

// Returns whether a part is among these.
fn is_in(parts: &[Record], part: &Record) -> bool
    ensures { result ≡ is_in parts.now part.now }
{
    parts.contains(part)
}

// Returns whether each ending has a part.
fn is_in_each(endings: &[Ending], part: &Record) -> bool
    ensures { result ≡ is_in_each endings.now part.now }
{
    for i in 0..endings.len() {
        if !is_in(told_in(endings[i].parts()), part) {
            return false;
        }
    }
    true
}

// Returns the parts of the first ending.
fn first_told(endings: &[Ending]) -> &[Record]
    ensures { result.now ≡ first_told endings.now }
{
    match endings.split_first() {
        Some((first, _)) => told_in(first.parts()),
        None => &[],
    }
}

/// Returns the parts that each of two endings or more has.
pub(crate) fn shared(alloc: Global, endings: &[Ending]) -> Result<Items<Record>, NoMemory>
    ensures { IfOk result (λ all. all ≡ shared endings.now) }
{
    let mut all = Items::new(alloc);
    if endings.len() <= 1 {
        return Ok(all);
    }
    let parts = first_told(endings);
    for i in 0..parts.len() {
        if is_in_each(endings, &parts[i]) {
            all.push(parts[i].copy()?)?;
        }
    }
    Ok(all)
}

/// Appends the parts that aren't in `all`, in their order.
pub(crate) fn push_own(out: &mut Vec<u8>, all: &[Record], parts: &[Record]) -> Result<(), NoMemory>
    ensures { OnOk result (out.new.items
        ≡ out.old.items ++ flat_map (own_text all.now) parts.now) }
{
    for part in parts {
        if !is_in(all, part) {
            out.extend_from_slice(part.bytes())?;
        }
    }
    Ok(())
}
