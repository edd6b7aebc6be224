//! Gathers the endings that orders lead to, each once.

ghost use Rattle.std.specs.Prelude.{◌≡◌, if◌then◌else◌, map, IfOk};
ghost use Rattle.cics_orders.specs.Space.Tallies.{tally_joined, ending_of};

use crate::space::groups::Join;
use crate::space::states::Led;
use cics_names::{Items, NoMemory, Record};
use indexmap::IndexMap;
use std::alloc::Global;
use std::hash::{Hash, Hasher};
use std::marker::Model;

/// An ending, with the first order that was followed to it, and how many were.
#[derive(Drop)]
pub struct Ending {
    order: Items<usize>,
    parts: Items<Record>,
    orders: u128,
    serial: u128,
}

impl Model for Ending {
    ghost use Rattle.cics_orders.specs.Space.Endings.{Reported};

    ghost Value = { Reported };

    ghost view = { λ e. record {
      order = e.order;
      ending = e.parts;
      orders = e.orders;
      serial = e.serial;
    } };
}

impl Ending {
    /// Returns the first order that was followed to it: for each line that is given, the lane that
    /// gives it.
    pub fn order(&self) -> &[usize]
        ensures { result.now ≡ self.now.order }
    {
        self.order.as_slice()
    }

    /// Returns the parts in which it is told.
    pub fn parts(&self) -> &[Record]
        ensures { result.now ≡ self.now.ending }
    {
        self.parts.as_slice()
    }

    /// Returns the greater of two counts: the orders that lead to it and were followed, and the
    /// serial ones that were followed by themselves. `u128::MAX` is that many or more.
    pub fn orders(&self) -> u128
        ensures { result ≡ self.now.orders }
    {
        self.orders
    }

    /// Returns how many serial orders that lead to it were followed; `u128::MAX` is that many or
    /// more.
    pub fn serial(&self) -> u128
        ensures { result ≡ self.now.serial }
    {
        self.serial
    }

    // Returns the ending that has these parts and this tally.
    fn new(parts: Parts, tally: Tally) -> Ending
        ensures { result ≡ ending_of (parts, tally) }
    {
        Ending {
            order: tally.order,
            parts: parts.parts,
            orders: tally.orders.max(tally.serial),
            serial: tally.serial,
        }
    }
}

/// The parts in which an ending is told.
#[derive(Drop)]
pub struct Parts {
    parts: Items<Record>,
}

impl Model for Parts {
    ghost use Rattle.std.specs.Prelude.{ℕ, List};

    ghost Value = { List (List ℕ) };

    ghost view = { λ p. p.parts };
}

impl Parts {
    /// Returns these parts.
    pub fn new(parts: Items<Record>) -> Parts
        ensures { result ≡ parts }
    {
        Parts { parts }
    }
}

impl PartialEq for Parts {
    ghost use Rattle.cics_orders.specs.Space.Endings.{are_same};
    ghost use Rattle.std.proofs.Common.{rules};
    ghost use Rattle.std.specs.Cmp.Rules.{comparing};

    ghost eq = { are_same };

    ghost laws = { Prim.search (comparing, rules) };

    fn eq(&self, other: &Parts) -> bool {
        self.parts.as_slice() == other.parts.as_slice()
    }
}

impl Eq for Parts {
    ghost use Rattle.std.proofs.Common.{rules};
    ghost use Rattle.std.specs.Cmp.Rules.{comparing};

    ghost laws = { Prim.search (comparing, rules) };
}

impl Hash for Parts {
    ghost use Rattle.cics_orders.specs.Space.EndingLaws.{same_parts};

    ghost hash_input = { λ p. p };

    ghost respects_eq = { same_parts };

    fn hash<H: Hasher>(&self, state: &mut H) {
        for part in self.parts.as_slice() {
            state.write(part.bytes());
        }
    }
}

/// The orders that lead to an ending: the first, how many were followed, and how many serial ones,
/// which are followed by themselves. `u128::MAX` is that many or more.
#[derive(Drop)]
pub struct Tally {
    pub order: Items<usize>,
    pub orders: u128,
    pub serial: u128,
}

impl Tally {
    /// Returns the tally of the orders that lead to a state, or of serial ones if `is_serial`.
    pub fn new(led: Led, is_serial: bool) -> Tally
        ensures order { result.order ≡ led.first }
        ensures orders { result.orders ≡ (if is_serial then 0 else led.count) }
        ensures serial { result.serial ≡ (if is_serial then led.count else 0) }
    {
        let count = led.count;
        let (orders, serial) = if is_serial { (0, count) } else { (count, 0) };
        Tally {
            order: led.first,
            orders,
            serial,
        }
    }
}

impl Join for Tally {
    ghost joined = { tally_joined };

    fn join(&mut self, other: Tally) {
        self.orders = self.orders.saturating_add(other.orders);
        self.serial = self.serial.saturating_add(other.serial);
    }
}

/// The endings that were met, by their parts.
pub type Met = IndexMap<Parts, Tally>;

/// Returns the endings that were met, in their order. Errors: `NoMemory`.
pub fn endings_of(alloc: Global, met: Met) -> Result<Items<Ending>, NoMemory>
    ensures { IfOk result (λ endings. endings ≡ map ending_of met.entries) }
{
    let mut endings = Items::new(alloc);
    for (parts, tally) in met {
        endings.push(Ending::new(parts, tally))?;
    }
    Ok(endings)
}
