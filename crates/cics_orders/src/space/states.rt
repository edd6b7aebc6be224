//! What is noted of a state, and the orders that lead to states of one stamp.
//!
//! No state is kept. It is made again from the initial one, by the first order that leads to it.

ghost use Rattle.std.specs.Prelude.{◌≡◌, ◌&&◌, [], ◌∷◌, ◌++◌, if◌then◌else◌, List, None, Some};
ghost use Rattle.std.specs.Prelude.{IfOk, OnOk};
ghost use Rattle.cics_orders.specs.Words.{after, lanes, initial_of, as_written, state_stamp};
ghost use Rattle.cics_orders.specs.Words.{breaks};
ghost use Rattle.cics_orders.specs.Space.States.{led_joined, lanes_of, reached};

use crate::space::groups::Join;
use crate::walks::Walker;
use cics_names::{Items, NoMemory};
use std::alloc::Global;
use std::hash::{Hash, Hasher};
use std::marker::Model;

/// The stamp of a state: bytes that tell how it goes on.
#[derive(Drop)]
pub struct Stamp {
    bytes: Vec<u8>,
}

impl Model for Stamp {
    ghost use Rattle.std.specs.Prelude.{ℕ, List};

    ghost Value = { List ℕ };

    ghost view = { λ s. s.bytes.items };
}

impl PartialEq for Stamp {
    ghost use Rattle.std.specs.Str.{bytes_eq};
    ghost use Rattle.std.proofs.Common.{rules};
    ghost use Rattle.std.specs.Cmp.Rules.{comparing};

    ghost eq = { bytes_eq };

    ghost laws = { Prim.search (comparing, rules) };

    fn eq(&self, other: &Stamp) -> bool {
        self.bytes.as_slice() == other.bytes.as_slice()
    }
}

impl Eq for Stamp {
    ghost use Rattle.std.proofs.Common.{rules};
    ghost use Rattle.std.specs.Cmp.Rules.{comparing};

    ghost laws = { Prim.search (comparing, rules) };
}

impl Hash for Stamp {
    ghost use Rattle.std.specs.Prelude.{[], ◌∷◌};
    ghost use Rattle.std.proofs.Common.{rules};
    ghost use Rattle.std.specs.Cmp.Rules.{hashing};

    ghost hash_input = { λ s. s ∷ [] };

    ghost respects_eq = { Prim.search (hashing, rules) };

    // In one call, which a hasher takes faster than byte by byte.
    fn hash<H: Hasher>(&self, state: &mut H) {
        state.write(self.bytes.as_slice());
    }
}

/// What is noted of a state that orders lead to.
#[derive(Drop)]
pub struct Reached {
    pub stamp: Stamp,
    /// The lanes that are followed from there.
    pub lanes: Items<usize>,
    /// Whether no lane may give there.
    pub has_ended: bool,
}

impl Reached {
    /// Returns a copy. Errors: `NoMemory`.
    pub fn copy(&self, alloc: Global) -> Result<Reached, NoMemory>
        ensures { IfOk result (λ r. r ≡ self.now) }
    {
        let mut bytes = Vec::new(alloc);
        bytes.extend_from_slice(self.stamp.bytes.as_slice())?;
        Ok(Reached {
            stamp: Stamp { bytes },
            lanes: copied(alloc, self.lanes.as_slice())?,
            has_ended: self.has_ended,
        })
    }

    /// Returns its stamp.
    pub fn into_stamp(self) -> Stamp
        ensures { result ≡ self.stamp }
    {
        self.stamp
    }

    /// Returns its entry, to which so many orders lead.
    pub fn into_entry(self, first: Items<usize>, count: u128) -> (Stamp, Led)
        ensures { result ≡ (
          self.stamp,
          record {
            first = first;
            lanes = self.lanes;
            has_ended = self.has_ended;
            count = count;
          },
        ) }
    {
        let led = Led {
            first,
            lanes: self.lanes,
            has_ended: self.has_ended,
            count,
        };
        (self.stamp, led)
    }
}

// Returns a copy of lanes.
fn copied(alloc: Global, lanes: &[usize]) -> Result<Items<usize>, NoMemory>
    ensures { IfOk result (λ copy. copy ≡ lanes.now) }
{
    let mut copy = Vec::new(alloc);
    copy.extend_from_slice(lanes)?;
    Ok(Items::from_vec(copy))
}

/// Returns an order with one lane more. Errors: `NoMemory`.
pub fn with_lane(alloc: Global, order: &[usize], lane: usize) -> Result<Items<usize>, NoMemory>
    ensures { IfOk result (λ longer. longer ≡ order.now ++ lane ∷ []) }
{
    let mut longer = copied(alloc, order)?;
    longer.push(lane)?;
    Ok(longer)
}

/// Orders that lead to states of one stamp.
#[derive(Drop)]
pub struct Led {
    /// The first of these orders.
    pub first: Items<usize>,
    /// The lanes that are followed from there.
    pub lanes: Items<usize>,
    /// Whether no lane may give there.
    pub has_ended: bool,
    /// How many orders there are; `u128::MAX` is that many or more.
    pub count: u128,
}

impl Join for Led {
    ghost joined = { led_joined };

    fn join(&mut self, other: Led) {
        self.count = self.count.saturating_add(other.count);
    }
}

/// Which orders are followed, and what tells states apart.
#[derive(Clone, Copy)]
pub struct Scope {
    /// Whether only serial orders are followed.
    pub is_serial: bool,
    /// Whether all that tasks were told tells states apart, and not only how they ended.
    pub told: bool,
}

/// Goes to the state after an order from the initial state. Errors: `NoMemory`.
pub fn go_to(walk: &mut Walker, order: &[usize]) -> Result<(), NoMemory>
    ensures { OnOk result (walk.new ≡ after lanes (initial_of walk.old) order.now) }
{
    walk.restart()?;
    for i in 0..order.len() {
        walk.give(order[i])?;
    }
    Ok(())
}

/// Goes to the state after the order as written: the lines of the script, but for those that its
/// plain run refuses. Returns whether there is such an order.
///
/// There is none if a line is refused because its task waits, and the task gives a later line or
/// may give one.
///
/// Errors: `NoMemory`. Cost: a restart, and that of the lines.
pub fn go_as_written(walk: &mut Walker) -> Result<bool, NoMemory>
    ensures { IfOk result (λ is_there. as_written (initial_of walk.old)
        ≡ (if is_there then Some walk.new else None)) }
{
    walk.restart()?;
    for i in 0..walk.written().len() {
        let line = walk.written()[i];
        if !walk.follow(line)? {
            return Ok(false);
        }
    }
    Ok(walk.first_giver().is_none())
}

// Adds a lane that may give to those that are followed, unless `is_serial` and it breaks a turn.
fn add_lane(
    lanes: &mut Items<usize>,
    walk: &Walker,
    lane: usize,
    is_serial: bool,
) -> Result<(), NoMemory>
    ensures { OnOk result (lanes.new ≡ lanes.old
        ++ (if is_serial && breaks walk.now lane then [] else lane ∷ [])) }
{
    if !is_serial || !walk.breaks_turn(lane) {
        lanes.push(lane)?;
    }
    Ok(())
}

// Returns the lanes that are followed: those that may give, or if `is_serial` only those that break
// no turn.
fn lanes_of(alloc: Global, walk: &Walker, is_serial: bool) -> Result<Items<usize>, NoMemory>
    ensures { IfOk result (λ ls. ls ≡ lanes_of lanes breaks is_serial walk.now) }
{
    let mut lanes = Items::new(alloc);
    let mut giver = walk.first_giver();
    while let Some(lane) = giver {
        add_lane(&mut lanes, walk, lane, is_serial)?;
        giver = walk.giver_after(lane);
    }
    Ok(lanes)
}

/// Returns what is noted of the state of a walker. Errors: `NoMemory`.
pub fn look(alloc: Global, walk: &Walker, scope: Scope) -> Result<Reached, NoMemory>
    ensures { IfOk result (λ state. state
        ≡ reached lanes breaks (state_stamp scope.told) scope.is_serial walk.now) }
{
    let mut bytes = Vec::new(alloc);
    walk.stamp(scope.told, &mut bytes)?;
    let lanes = lanes_of(alloc, walk, scope.is_serial)?;
    let has_ended = walk.first_giver().is_none();
    Ok(Reached {
        stamp: Stamp { bytes },
        lanes,
        has_ended,
    })
}
