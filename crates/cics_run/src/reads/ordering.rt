//! What is found in a run, in order.

ghost use Rattle.std.specs.Prelude.{◌≡◌, ◌++◌, OnOk, map};
ghost use Rattle.std.specs.List.{filter, fold};
ghost use Rattle.std.specs.Map.{values_of};
ghost use Rattle.std.specs.Option.{option_to_list};
ghost use Rattle.cics_run.specs.Reads.Findings.{is_kept};
ghost use Rattle.cics_run.specs.Reads.Written.{dirty, lost, rank_of, with_finding, in_order};

use crate::reads::found::{Finding, Lost, Pair};
use crate::reads::past::Past;
use cics_names::{Items, NoMemory};
use std::collections::BTreeMap;

/// Where a finding stands among those of its name: the numbers of its look, of the change that it
/// missed, and of the change that replaced that.
#[derive(Clone, Copy, PartialEq, Eq, PartialOrd, Ord)]
pub struct Rank {
    pub look: u64,
    pub change: u64,
    pub by: u64,
}

// Returns where a finding stands among those of its name.
fn rank_of(found: &Finding) -> Rank
    ensures { result ≡ rank_of found.now }
{
    let (pair, by) = match found {
        Finding::LostUpdate(pair, by) => (pair, by.at),
        Finding::DirtyRead(pair, _) | Finding::ReadSkew(pair, _) | Finding::WriteSkew(pair, _) => (
            pair, 0,
        ),
    };
    Rank {
        look: pair.look.at,
        change: pair.change.at,
        by,
    }
}

/// Puts a finding, if there is one, where it stands.
pub fn put(ranked: &mut BTreeMap<Rank, Finding>, found: Option<Finding>) -> Result<(), NoMemory>
    ensures { OnOk result (ranked.new.entries
        ≡ fold with_finding ranked.old.entries (option_to_list found)) }
{
    match found {
        Some(found) => {
            ranked.insert(rank_of(&found), found)?;
            Ok(())
        }
        None => Ok(()),
    }
}

/// Appends findings, in order.
pub fn push_all(ranked: &BTreeMap<Rank, Finding>, out: &mut Items<Finding>) -> Result<(), NoMemory>
    ensures { OnOk result (out.new ≡ out.old ++ values_of ranked.now.entries) }
{
    for one in ranked.values() {
        out.push(*one)?;
    }
    Ok(())
}

/// Appends the dirty reads, each with its fate.
pub fn push_dirty(past: &Past, pairs: &[Pair], out: &mut Items<Finding>) -> Result<(), NoMemory>
    ensures { OnOk result (out.new ≡ out.old ++ map (dirty past.now) pairs.now) }
{
    for pair in pairs {
        out.push(Finding::DirtyRead(*pair, past.fate_of(pair.change.turn)))?;
    }
    Ok(())
}

/// Appends the lost updates whose changes stand.
pub fn push_lost(past: &Past, all: &[Lost], out: &mut Items<Finding>) -> Result<(), NoMemory>
    ensures { OnOk result (out.new
        ≡ out.old ++ in_order (map lost (filter (is_kept past.now) all.now))) }
{
    let mut ranked = BTreeMap::new(past.alloc());
    for one in all {
        if past.stands(one.lasts, one.by.turn) {
            put(&mut ranked, Some(Finding::LostUpdate(one.missed, one.by)))?;
        }
    }
    push_all(&ranked, out)
}
