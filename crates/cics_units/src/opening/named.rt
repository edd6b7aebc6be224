//! Values by name, as one value whose changes before images undo.

ghost use Rattle.std.specs.Prelude.{◌≡◌, ◌<◌, ◌^◌, [], length, T, IfOk, OnOk, OnErr, None};
ghost use Rattle.std.specs.Prelude.{Some, IsSome};
ghost use Rattle.std.specs.Option.{option_copied};
ghost use Rattle.std.specs.Borrow.{Lends, sem};
ghost use Rattle.cics_units.specs.contracts.opening.named.Named.{the_row};
ghost use Rattle.std.specs.Map.Iter.{ShowsInOrder, deref_pair};
ghost use Rattle.cics_names.specs.Keyed.{has_key, value_at, with_value, is_rising};

use cics_images::{NamedImage, Undoable};
use cics_names::{Name8, NoMemory};
use std::alloc::Global;
use std::collections::BTreeMap;
use std::collections::btree_map::Iter;
use std::marker::Model;

/// Values of one kind, each under its name, in the order of the names: the files of a region.
///
/// Contracts see them as a map from the names to the values, itself in that order.
///
/// Cost of a look-up: O(log values).
#[derive(Drop)]
pub struct Named<M: Undoable + Drop> {
    pub(crate) rows: BTreeMap<Name8, M>,
    pub(crate) alloc: Global,
}

impl<M: Undoable + Drop> Model for Named<M> {
    ghost use Rattle.std.specs.Prelude.{T};
    ghost use Rattle.cics_names.specs.Keyed.{Map, is_rising};

    ghost Value = { Map M };

    ghost view = { λ n. n.rows.entries };

    ghost invariant = { λ n. T (is_rising n.rows.entries) };
}

impl<M: Undoable + Drop> Named<M> {
    /// Returns an empty map. `alloc` gives the memory for what is put in.
    pub fn new(alloc: Global) -> Named<M>
        ensures { result ≡ [] }
    {
        Named {
            rows: BTreeMap::new(alloc),
            alloc,
        }
    }

    /// Returns whether a name has a value.
    pub fn contains(&self, name: &Name8) -> bool
        ensures { result ≡ has_key name.now self.now }
    {
        self.rows.contains_key(name)
    }

    /// Returns the value of a name, or `None` if it has none. The names of all values rise.
    pub fn get(&self, name: &Name8) -> Option<&M>
        ensures value { option_copied result ≡ value_at name.now self.now }
        ensures in_order { T (is_rising self.now) }
    {
        self.rows.get(name)
    }

    /// Returns the value of a name, which has to be there.
    pub fn at(&self, name: &Name8) -> &M
        requires { IsSome (value_at name.now self.now) }
        ensures value { value_at name.now self.now ≡ Some result.now }
        ensures in_order { T (is_rising self.now) }
    {
        self.get(name).unwrap()
    }

    /// Lends the value of a name, which has to be there, to be changed. The other values stay.
    pub fn at_mut(&mut self, name: &Name8) -> &mut M
        requires { IsSome (value_at name.now self.old) }
        ensures* writes_back { sem 𝓛 (Lends (the_row M.row M.Image.row M.Undoable) M.row self.entry
            result (λ value. with_value name.now value self.old)) }
        ensures value { value_at name.now self.old ≡ Some result.now }
        ensures in_order { T (is_rising self.old) }
    {
        self.rows.get_mut(name).unwrap()
    }

    /// Puts a value under a name, and returns the value that stood there.
    ///
    /// Only a new name takes memory. On `NoMemory` nothing has changed, and `value` is gone.
    pub fn insert(&mut self, name: Name8, value: M) -> Result<Option<M>, NoMemory>
        ensures old { IfOk result (λ old. old ≡ value_at name self.old) }
        ensures values { OnOk result (self.new ≡ with_value name value self.old) }
        ensures new_name { OnErr result (value_at name self.old ≡ None) }
        ensures err { OnErr result (self.new ≡ self.old) }
    {
        Ok(self.rows.insert(name, value)?)
    }

    /// Returns the values with their names, in the order of the names.
    pub fn iter(&self) -> Iter<'_, Name8, M>
        ensures rest { result ≡ self.now }
        ensures runs { ShowsInOrder (deref_pair {K = Name8} {X = M}) }
        ensures fits { length self.now < 2 ^ 63 }
    {
        self.rows.iter()
    }
}

/// A cell is a name with a cell of the value that has it. An image is a name with an image of that
/// value.
impl<M: Undoable + Drop> Undoable for Named<M> {
    ghost use Rattle.std.specs.Prelude.{Option};
    ghost use Rattle.cics_names.specs.Keyed.{Bytes};
    ghost use Rattle.cics_images.specs.NamedValues.{named_content, named_cell, IsNamedReady};
    ghost use Rattle.cics_images.specs.NamedValues.{named_undone, named_holds, named_swept};
    ghost use Rattle.cics_images.specs.NamedValues.{NamedKeep, named_fixed};
    ghost use Rattle.cics_images.specs.NamedLaws as laws;

    type Image = NamedImage<M::Image>;

    ghost content = { named_content M.content };

    ghost cell = { named_cell M.cell };

    ghost leads = { λ i. M.leads i.image };

    ghost IsReady = { IsNamedReady M.IsReady };

    ghost undone = { named_undone M.undone };

    ghost holds_back = { named_holds M.holds_back };

    ghost swept = { named_swept M.swept };

    ghost Keeps = { NamedKeep M.Keeps };

    ghost Fixed = { Bytes → Option M.Fixed };

    ghost fixed = { named_fixed M.fixed };

    ghost determined = { λ i. M.determined i.image };

    ghost undone_leads = { laws.undone_leads M.content M.cell M.leads M.IsReady M.undone
        M.undone_leads };

    ghost undone_keeps = { laws.undone_keeps M.Keeps M.keeps_itself M.keeps_fewer M.cell M.IsReady
        M.undone M.undone_keeps };

    ghost undone_fixed = { laws.undone_fixed M.fixed M.undone M.undone_fixed };

    ghost undone_holds = { laws.undone_holds M.holds_back M.cell M.undone M.undone_holds };

    ghost swept_content = { laws.swept_content M.content M.swept M.swept_content };

    ghost swept_keeps = { laws.swept_keeps M.Keeps M.keeps_itself M.keeps_fewer M.swept
        M.swept_keeps };

    ghost swept_fixed = { laws.swept_fixed M.fixed M.swept M.swept_fixed };

    ghost swept_holds = { laws.swept_holds M.holds_back M.swept M.swept_holds };

    ghost keeps_content = { laws.keeps_content M.Keeps M.content M.keeps_content };

    ghost keeps_ready = { laws.keeps_ready M.Keeps M.cell M.IsReady M.keeps_ready };

    ghost keeps_undone = { laws.keeps_undone M.Keeps M.cell M.IsReady M.keeps_ready M.undone
        M.keeps_undone };

    ghost keeps_itself = { laws.keeps_itself M.Keeps M.keeps_itself };

    ghost keeps_fewer = { laws.keeps_fewer M.Keeps M.keeps_fewer };

    ghost keeps_on = { laws.keeps_on M.Keeps M.keeps_on };

    fn undo_by_ref(&mut self, image: &mut NamedImage<M::Image>) {
        self.at_mut(&image.name).undo_by_ref(&mut image.image);
    }

    fn settle(&mut self, image: NamedImage<M::Image>) {
        let Some(value) = self.rows.get_mut(&image.name) else {
            return;
        };
        value.settle(image.image);
    }
}
