//! What a command uses, and how its unit acquires it: all of it, or nothing on `NoMemory`.

ghost use Rattle.std.specs.Prelude.{◌≡◌, ◌≤◌, false, length, IfOk, OnOk, OnErr};
ghost use Rattle.std.specs.List.{list_any};
ghost use Rattle.cics_history.specs.Resources.{is_user};
ghost use Rattle.cics_history.specs.Records.{key_of};
ghost use Rattle.cics_units.specs.Uses.{uses_if, listed, taken_all, AreFreeFor, holder_over_all};
ghost use Rattle.cics_units.specs.Uses.{given_back_if, let_go};

use cics_enqueue::{Enqueues, ResourceRef};
use cics_history::{Op, UnitId};
use cics_names::NoMemory;

/// What a command uses: two resources at most, the reading end of a queue before its writing end.
/// Their bytes are borrowed from the command.
#[derive(Drop)]
pub(crate) enum Uses<'a> {
    /// No resource.
    Nothing,
    /// One resource.
    One(ResourceRef<'a>),
    /// Two resources.
    Two(ResourceRef<'a>, ResourceRef<'a>),
}

/// Which of two resources were free before a unit acquired them. It owned the others already.
#[derive(Clone, Copy)]
pub(crate) struct WereFree {
    first: bool,
    second: bool,
}

impl WereFree {
    /// Returns that none was free.
    pub(crate) fn none() -> WereFree
        ensures { result ≡ record { first = false; second = false } }
    {
        WereFree {
            first: false,
            second: false,
        }
    }
}

/// Returns what a command uses. Of any file it is the record, there or not, or all under a prefix.
/// Of a recoverable temporary storage queue it is the name. Of a LOGICAL queue it is the reading
/// end for a read, the writing end for a write, both for a delete. Of other queues it is nothing.
pub(crate) fn uses_of(op: &Op, recoverable: bool) -> Uses<'_>
    requires most { length (key_of op.now) ≤ 255 }
    ensures { listed result ≡ uses_if recoverable op.now }
{
    match op {
        Op::Write { file, key, .. } => Uses::One(ResourceRef::record(*file, key.bytes())),
        Op::Rewrite { file, key, .. } => Uses::One(ResourceRef::record(*file, key.bytes())),
        Op::Delete { file, key } => Uses::One(ResourceRef::record(*file, key.bytes())),
        Op::DeleteGeneric { file, prefix } => {
            Uses::One(ResourceRef::prefix(*file, prefix.bytes()))
        }
        Op::ReadUpdate { file, key } => Uses::One(ResourceRef::record(*file, key.bytes())),
        _ if !recoverable => Uses::Nothing,
        Op::TsWrite { queue, .. } => Uses::One(ResourceRef::ts_queue(*queue)),
        Op::TsRewrite { queue, .. } => Uses::One(ResourceRef::ts_queue(*queue)),
        Op::TsDelete { queue } => Uses::One(ResourceRef::ts_queue(*queue)),
        Op::TdWrite { queue, .. } => Uses::One(ResourceRef::writing_end(*queue)),
        Op::TdRead { queue } => Uses::One(ResourceRef::reading_end(*queue)),
        Op::TdDelete { queue } => Uses::Two(
            ResourceRef::reading_end(*queue),
            ResourceRef::writing_end(*queue),
        ),
    }
}

// Releases a resource if it was free before its unit acquired it.
fn let_go(enqueues: &mut Enqueues, resource: &ResourceRef<'_>, unit: UnitId, was_free: bool)
    ensures { enqueues.new ≡ given_back_if was_free enqueues.old resource.now unit }
{
    if was_free {
        enqueues.let_go(resource, unit);
    }
}

/// Acquires for a unit what a command uses, but for what the unit owns already, and returns what
/// was free before. No other unit may own anything that conflicts with it. On `NoMemory` nothing
/// has changed: the first resource is released if the second is refused.
pub(crate) fn hold_all(
    enqueues: &mut Enqueues,
    uses: &Uses<'_>,
    unit: UnitId,
) -> Result<WereFree, NoMemory>
    requires plain { list_any is_user (listed uses.now) ≡ false }
    requires free { AreFreeFor enqueues.old (listed uses.now) unit }
    ensures taken { OnOk result (enqueues.new ≡ taken_all enqueues.old unit (listed uses.now)) }
    ensures undone { IfOk result (λ were_free.
        let_go enqueues.new uses.now were_free unit ≡ enqueues.old) }
    ensures err { OnErr result (enqueues.new ≡ enqueues.old) }
{
    match uses {
        Uses::Nothing => Ok(WereFree::none()),
        Uses::One(resource) => {
            let first = enqueues.hold(resource, unit)?;
            Ok(WereFree {
                first,
                second: false,
            })
        }
        Uses::Two(one, other) => {
            let first = enqueues.hold(one, unit)?;
            match enqueues.hold(other, unit) {
                Ok(second) => Ok(WereFree { first, second }),
                Err(refused) => {
                    let_go(enqueues, one, unit, first);
                    Err(refused)
                }
            }
        }
    }
}

/// Releases what a unit acquired for a command, and leaves it what it owned before. Takes no
/// memory.
pub(crate) fn let_go_all(
    enqueues: &mut Enqueues,
    uses: &Uses<'_>,
    unit: UnitId,
    were_free: WereFree,
)
    ensures { enqueues.new ≡ let_go enqueues.old uses.now were_free unit }
{
    match uses {
        Uses::Nothing => {}
        Uses::One(resource) => let_go(enqueues, resource, unit, were_free.first),
        Uses::Two(one, other) => {
            let_go(enqueues, other, unit, were_free.second);
            let_go(enqueues, one, unit, were_free.first);
        }
    }
}

/// Returns the blocker at the first resource that isn't free for `asking`: the other owner of the
/// smallest conflicting resource. Returns None if all are free.
pub(crate) fn holder_over_all(
    enqueues: &Enqueues,
    uses: &Uses<'_>,
    asking: Option<UnitId>,
) -> Option<UnitId>
    ensures { result ≡ holder_over_all (listed uses.now) asking enqueues.now }
{
    // A copy for each call that takes the unit.
    let again = asking;
    match uses {
        Uses::Nothing => None,
        Uses::One(resource) => enqueues.holder_over(resource, asking),
        Uses::Two(one, other) => match enqueues.holder_over(one, asking) {
            Some(holder) => Some(holder),
            None => enqueues.holder_over(other, again),
        },
    }
}
