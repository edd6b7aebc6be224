//! The transient data queues of a region by name.

ghost use Rattle.std.specs.Prelude.{◌≡◌, ◌<◌, ◌^◌, [], length, T, IfOk, OnOk, OnErr, None};
ghost use Rattle.std.specs.Prelude.{Some, IsSome};
ghost use Rattle.std.specs.Option.{option_copied};
ghost use Rattle.std.specs.Borrow.{Lends, sem};
ghost use Rattle.std.specs.Map.Iter.{ShowsInOrder, deref_pair};
ghost use Rattle.cics_names.specs.Keyed.{has_key, value_at, with_value, is_rising};
ghost use Rattle.cics_images.specs.NamedValues.{changed_at};
ghost use Rattle.cics_transdata.specs.Trans.{reader_committed, writer_committed};
ghost use Rattle.cics_transdata.specs.contracts.queues.TransQueue.{the_row as queue_row};
ghost use Rattle.cics_units.specs.contracts.opening.queues.Queues.{the_row};

use cics_images::Undoable;
use cics_names::{Name4, NoMemory};
use cics_transdata::{Recovery, TdImage, TransQueue};
use std::alloc::Global;
use std::collections::BTreeMap;
use std::collections::btree_map::Iter;
use std::marker::Model;

/// The transient data queues of a region, each under its name, in the order of the names' bytes.
///
/// Contracts see them as a map from the names to the queues, itself in that order.
///
/// Cost of a look-up: O(log queues).
#[derive(Drop)]
pub struct Queues {
    rows: BTreeMap<Name4, TransQueue>,
    alloc: Global,
}

impl Model for Queues {
    ghost use Rattle.std.specs.Prelude.{T};
    ghost use Rattle.cics_names.specs.Keyed.{Map, is_rising};
    ghost use Rattle.cics_transdata.specs.Trans.{TransState};

    ghost Value = { Map TransState };

    ghost view = { λ q. q.rows.entries };

    ghost invariant = { λ q. T (is_rising q.rows.entries) };
}

/// The before image of one change of one queue: its name, and what undoes the change of its end.
#[derive(Drop)]
pub struct QueueImage {
    /// The name of the queue.
    pub name: Name4,
    /// What undoes its change.
    pub image: TdImage,
}

/// Contracts see it as the image of a value by name.
impl Model for QueueImage {
    ghost use Rattle.cics_images.specs.declared.named.NamedImage.{NamedImage};
    ghost use Rattle.cics_transdata.specs.declared.images.TdImage.{TdImage};

    ghost Value = { NamedImage TdImage };

    ghost view = { λ i. record { name = i.name; image = i.image } };
}

impl Queues {
    /// Returns an empty map. `alloc` gives the memory for what is put in.
    pub fn new(alloc: Global) -> Queues
        ensures { result ≡ [] }
    {
        Queues {
            rows: BTreeMap::new(alloc),
            alloc,
        }
    }

    /// Returns whether there is a queue of a name.
    pub fn contains(&self, name: &Name4) -> bool
        ensures { result ≡ has_key name.now self.now }
    {
        self.rows.contains_key(name)
    }

    /// Returns the queue of a name, or `None` if there is none. The names of all queues rise.
    pub fn get(&self, name: &Name4) -> Option<&TransQueue>
        ensures value { option_copied result ≡ value_at name.now self.now }
        ensures in_order { T (is_rising self.now) }
    {
        self.rows.get(name)
    }

    /// Returns the queue of a name, which has to be there.
    pub fn at(&self, name: &Name4) -> &TransQueue
        requires { IsSome (value_at name.now self.now) }
        ensures value { value_at name.now self.now ≡ Some result.now }
        ensures in_order { T (is_rising self.now) }
    {
        self.get(name).unwrap()
    }

    /// Lends the queue of a name, which has to be there, to be changed. The other queues stay.
    pub fn at_mut(&mut self, name: &Name4) -> &mut TransQueue
        requires { IsSome (value_at name.now self.old) }
        ensures* writes_back { sem 𝓛 (Lends the_row queue_row self.entry
            result (λ queue. with_value name.now queue self.old)) }
        ensures value { value_at name.now self.old ≡ Some result.now }
        ensures in_order { T (is_rising self.old) }
    {
        self.rows.get_mut(name).unwrap()
    }

    /// Commits the unit at the reading end of the queue of a name, if there is such a queue.
    pub fn commit_reader(&mut self, name: &Name4)
        ensures { self.new ≡ changed_at reader_committed name.now self.old }
    {
        let Some(queue) = self.rows.get_mut(name) else {
            return;
        };
        queue.commit_reader();
    }

    /// Commits the unit at the writing end of the queue of a name, if there is such a queue.
    pub fn commit_writer(&mut self, name: &Name4)
        ensures { self.new ≡ changed_at writer_committed name.now self.old }
    {
        let Some(queue) = self.rows.get_mut(name) else {
            return;
        };
        queue.commit_writer();
    }

    /// Puts a queue under a name, and returns the queue that stood there.
    ///
    /// Only a new name takes memory. On `NoMemory` nothing has changed, and `queue` is gone.
    pub fn insert(&mut self, name: Name4, queue: TransQueue) -> Result<Option<TransQueue>, NoMemory>
        ensures old { IfOk result (λ old. old ≡ value_at name self.old) }
        ensures queues { OnOk result (self.new ≡ with_value name queue self.old) }
        ensures new_name { OnErr result (value_at name self.old ≡ None) }
        ensures err { OnErr result (self.new ≡ self.old) }
    {
        Ok(self.rows.insert(name, queue)?)
    }

    /// Returns the queues with their names, in the order of the names.
    pub fn iter(&self) -> Iter<'_, Name4, TransQueue>
        ensures rest { result ≡ self.now }
        ensures runs { ShowsInOrder (deref_pair {K = Name4} {X = TransQueue}) }
        ensures fits { length self.now < 2 ^ 63 }
    {
        self.rows.iter()
    }

    /// Returns queues with the same names, recoveries, records and marks.
    ///
    /// Errors: `NoMemory`. Cost: O(bytes copied).
    pub fn copy(&self) -> Result<Queues, NoMemory>
        ensures { IfOk result (λ queues. queues ≡ self.now) }
    {
        let mut queues = Queues::new(self.alloc);
        for (name, original) in &self.rows {
            // No queue is replaced: names differ. The result is dropped by a call, proved once.
            drop(queues.insert(*name, original.copy()?)?);
        }
        Ok(queues)
    }
}

/// A cell is a name with an end of the queue that has it. An image is a name with an image of that
/// queue.
impl Undoable for Queues {
    ghost use Rattle.std.specs.Prelude.{Option, false, refl};
    ghost use Rattle.cics_names.specs.Keyed.{Bytes};
    ghost use Rattle.cics_images.specs.NamedValues.{named_content, named_cell, IsNamedReady};
    ghost use Rattle.cics_images.specs.NamedValues.{named_undone, NamedKeep, named_fixed};
    ghost use Rattle.cics_images.specs.Cells.{is_other};
    ghost use Rattle.cics_images.specs.NamedLaws as laws;
    ghost use Rattle.cics_transdata.specs.declared.queues.Recovery.{Recovery};
    ghost use Rattle.cics_transdata.specs.Undo.{content_at as end_content, end_of};
    ghost use Rattle.cics_transdata.specs.Undo.{Leads as EndLeads, IsReadyImage as IsEndReady};
    ghost use Rattle.cics_transdata.specs.Undo.{undone as queue_undone, KeepsEnds};
    ghost use Rattle.cics_transdata.specs.UndoLaws as ends;

    type Image = QueueImage;

    ghost content = { named_content end_content };

    ghost cell = { named_cell end_of };

    ghost leads = { λ i. EndLeads i.image };

    ghost IsReady = { IsNamedReady IsEndReady };

    ghost undone = { named_undone queue_undone };

    ghost holds_back = { λ s c. false };

    ghost swept = { λ s c. s };

    ghost Keeps = { NamedKeep KeepsEnds };

    ghost Fixed = { Bytes → Option Recovery };

    ghost fixed = { named_fixed (λ q. q.kind) };

    ghost determined = { λ i. ends.determined i.image };

    ghost undone_leads = { laws.undone_leads end_content end_of EndLeads IsEndReady queue_undone
        ends.undone_leads };

    ghost undone_keeps = { laws.undone_keeps KeepsEnds ends.keeps_itself ends.keeps_fewer end_of
        IsEndReady queue_undone ends.undone_keeps };

    ghost undone_fixed = { laws.undone_fixed (λ q. q.kind) queue_undone ends.undone_fixed };

    ghost undone_holds = { λ s i c other. refl };

    ghost swept_content = { λ s k c. refl };

    ghost swept_keeps = { λ s k. laws.keeps_itself KeepsEnds ends.keeps_itself (is_other k) s };

    ghost swept_fixed = { λ s k. refl };

    ghost swept_holds = { λ s k c. refl };

    ghost keeps_content = { laws.keeps_content KeepsEnds end_content ends.keeps_content };

    ghost keeps_ready = { laws.keeps_ready KeepsEnds end_of IsEndReady ends.keeps_ready };

    ghost keeps_undone = { laws.keeps_undone KeepsEnds end_of IsEndReady ends.keeps_ready
        queue_undone ends.keeps_undone };

    ghost keeps_itself = { laws.keeps_itself KeepsEnds ends.keeps_itself };

    ghost keeps_fewer = { laws.keeps_fewer KeepsEnds ends.keeps_fewer };

    ghost keeps_on = { laws.keeps_on KeepsEnds ends.keeps_on };

    fn undo_by_ref(&mut self, image: &mut QueueImage) {
        self.at_mut(&image.name).undo_by_ref(&mut image.image);
    }

    // Nothing is held back for an undo.
    fn settle(&mut self, _image: QueueImage) {}
}
