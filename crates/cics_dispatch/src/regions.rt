//! A region: tasks that share files and queues, their waits, and their units of work.

ghost use Rattle.std.specs.Prelude.{◌≡◌, ◌&&◌, ◌++◌, if◌then◌else◌, None, true, false, ℕ, length};
ghost use Rattle.std.specs.Prelude.{IfOk, IfErr, IfSome, OnOk};
ghost use Rattle.std.specs.Bool.{OnTrue};
ghost use Rattle.std.specs.Option.{option_copied};
ghost use Rattle.cics_dispatch.specs.declared.machine.outcomes.Refused.TheVariants.{RegionDown};
ghost use Rattle.cics_dispatch.specs.Words.{is_live, HoldsCommitted, initial_region, region_stamp};
ghost use Rattle.cics_dispatch.specs.Words.{attached, issued, clock_set, woken};
ghost use Rattle.cics_dispatch.specs.Words.{expired, IsAtRest, IsFirstToGoOn, IsFirstTooLate};
ghost use Rattle.cics_dispatch.specs.Words.{without_tasks, IsStep, always, attach_may_want};
ghost use Rattle.cics_dispatch.specs.Words.{may_want, IsHeadlineRegion, IsSerializableRegion};
ghost use Rattle.cics_dispatch.specs.Words.{region_listing, replayed_listing, IsRegionStep};
ghost use Rattle.cics_dispatch.specs.Words.{shut_down, task_ended, unit_of, blocker_of};
ghost use Rattle.cics_dispatch.specs.Words.{blockers_of, label_at, number_of, HaveBlocker};
ghost use Rattle.cics_dispatch.specs.Words.{waiting_command, browse_of};

mod playing;

use crate::dispatcher::Dispatcher;
use crate::machine::{Event, Expired, Outcome, Refused, Request, Woken};
use crate::notes::Notes;
use cics_browse::Browse;
use cics_history::UnitId;
use cics_names::{Command, Items, Name4, Name8, NoMemory};
use cics_units::{Listing, Opening, Units};
use std::marker::Model;

/// The tasks of a region, their waiting commands, and the files, queues and units that they share.
///
/// Each call that changes a region is one step of its machine: it returns the step's outcome, and
/// leaves its state. After each of them two clauses hold, which `promises` gives at any time:
///
/// - `headline`: files and queues equal a replay of the surviving entries. Those are the executed
///   updating commands without those of backed-out units on recoverable files and queues. The
///   replay gives each the answer that it had when it was executed, before LENGTH cut what its task
///   was told.
/// - `serializable`: committed units are serializable in commit order. What they did to recoverable
///   files and queues, unit after unit, gives what would stand there if the open units were backed
///   out. In this order each of these commands that was answered NORMAL has the same answer again.
///
/// The region remembers the blockers that `wake` found. So `wake` looks only at commands that began
/// to wait since the last look, or whose blocker may have released something since. Waiting
/// commands that use the same resource and nothing else are a wait group. A resource is a record, a
/// prefix, a queue name, the writing end of a queue, or a value. Of a group `wake` looks no further
/// than the first that must wait, unless its blocker's own task waits for the same resource.
pub struct Region {
    dispatcher: Dispatcher,
    // What is known of the waiting commands, but those that began to wait since the last `wake`.
    notes: Notes,
    // If true, each waiting command has its note, and none must be looked at.
    is_settled: bool,
    // If true, no task has waited too long yet.
    is_in_time: bool,
}

// By hand: so each place that drops a region is one call, not a drop of each field.
impl Drop for Region {
    fn drop(self) {
        let Region {
            dispatcher: _dispatcher,
            notes: _notes,
            is_settled: _is_settled,
            is_in_time: _is_in_time,
        } = self;
    }
}

impl Model for Region {
    ghost use Rattle.cics_dispatch.specs.Machine.Machine.{RegionValue};
    ghost use Rattle.cics_dispatch.specs.Machine.Regions.{IsRegionKept};
    ghost use Rattle.cics_dispatch.specs.Machine.Notes.{IsRemembered};

    ghost Value = { RegionValue };

    ghost view = { λ r. r.dispatcher };

    ghost invariant = { λ r. IsRegionKept r.dispatcher
        × IsRemembered r.dispatcher.machine r.notes r.is_settled r.is_in_time };
}

impl Region {
    /// Returns the region of an opening, without a task, its clock at 0. It copies the files and
    /// queues.
    ///
    /// Errors: the opening, if memory is refused.
    pub fn new(opening: Opening) -> Result<Region, Opening>
        ensures machine { IfOk result (λ region. region.machine ≡ initial_region opening) }
        ensures headline { IfOk result IsHeadlineRegion }
        ensures serializable { IfOk result IsSerializableRegion }
        ensures err { IfErr result (λ back. back ≡ opening) }
    {
        let alloc = opening.allocator();
        let dispatcher = Dispatcher::new(opening)?;
        Ok(Region {
            dispatcher,
            notes: Notes::new(alloc),
            is_settled: false,
            is_in_time: false,
        })
    }

    /// Says what holds of a region at any time. Does nothing.
    ///
    /// - `headline`: each recoverable file and queue holds what a replay of the surviving commands
    ///   gives. In that replay each of them has its answer again.
    /// - `serializable`: the committed units of work are serializable in their commits' order.
    pub fn promises(&self)
        ensures headline { IsHeadlineRegion self.now }
        ensures serializable { IsSerializableRegion self.now }
    {
        let _dispatcher = &self.dispatcher;
    }

    // Returns the error `RegionDown` if the region is shut down.
    fn refuse_if_down(&self) -> Result<(), Refused>
        ensures up { OnOk result (self.now.machine.is_down ≡ false) }
        ensures down { IfErr result (λ refused. (refused ≡ RegionDown)
            × (self.now.machine.is_down ≡ true)) }
    {
        if self.dispatcher.is_down() {
            return Err(Refused::RegionDown);
        }
        Ok(())
    }

    /// Begins the task of a label: ATTACH. `dtimout` is the seconds that a command of it may wait,
    /// 0 for no limit. The transaction makes no difference.
    ///
    /// Errors, in this order, which change nothing: `RegionDown` if the region is shut down,
    /// `DuplicateLabel` if a task has or had the label, and `NoMemory`.
    pub fn attach(&mut self, label: Name8, transaction: Name4, dtimout: u64) -> Result<(), Refused>
        ensures step { IsRegionStep (attach_may_want self.old.machine label) self.old
            (attached self.old.machine label dtimout) result self.new }
        ensures headline { IsHeadlineRegion self.new }
        ensures serializable { IsSerializableRegion self.new }
    {
        self.refuse_if_down()?;
        self.dispatcher.attach(label, transaction, dtimout)
    }

    /// Sets the clock to `now`, in seconds. Takes no memory.
    ///
    /// Errors, in this order, which change nothing: `RegionDown` if the region is shut down, and
    /// `ClockBack` if the clock would go back.
    pub fn set_clock(&mut self, now: u64) -> Result<(), Refused>
        ensures step { IsRegionStep false self.old
            (clock_set self.old.machine now) result self.new }
        ensures headline { IsHeadlineRegion self.new }
        ensures serializable { IsSerializableRegion self.new }
    {
        self.refuse_if_down()?;
        self.is_in_time = false;
        self.dispatcher.set_clock(now)
    }

    /// Issues a command of the task of a label: it is answered, or it waits, or its task ends.
    ///
    /// A condition that neither RESP nor NOHANDLE handles abends the task with its default code, if
    /// it has one. The manual has this in its chapter on the exceptional conditions.
    ///
    /// Errors, in this order, which change nothing:
    ///
    /// - `RegionDown`: the region is shut down.
    /// - `NoTask`: no task has the label.
    /// - `TaskEnded`: the task has ended.
    /// - `TaskWaiting`: a command of it waits.
    /// - `NoMemory`, once the command's checks have passed. UNLOCK, RESETBR, ENDBR, DEQ, SYNCPOINT,
    ///   ROLLBACK, RETURN and ABEND take no memory.
    pub fn issue(&mut self, label: Name8, command: Command) -> Result<Outcome, Refused>
        ensures step { IsRegionStep (may_want self.old.machine label command) self.old
            (issued self.old.machine label command) result self.new }
        ensures headline { IsHeadlineRegion self.new }
        ensures serializable { IsSerializableRegion self.new }
    {
        match self.play(Request::Issue(label, command)) {
            Ok(Event::Issued(_, outcome, _)) => Ok(outcome),
            Ok(Event::Refused(_, refusal)) => Err(refusal),
            Ok(_) => unreachable!(),
            Err(NoMemory) => Err(Refused::NoMemory),
        }
    }

    /// Returns true only if `wake` and `expire` would return `None`: no waiting command may resume,
    /// and no task has waited too long. May be conservatively false. Cost: O(1).
    pub fn is_at_rest(&self) -> bool
        ensures rest { OnTrue result (IsAtRest self.now.machine) }
    {
        self.is_settled && self.is_in_time
    }

    /// Resumes the earliest waiting command that no longer has to wait, and returns the label of
    /// its task and its outcome. Returns `None` if each has to wait.
    ///
    /// The order is that in which the waits began. The command isn't checked again, and doesn't
    /// wait again.
    ///
    /// Errors: `NoMemory`, which changes nothing: the command waits as it did.
    ///
    /// Cost: O(1) if it last returned `None`, and since then no command began to wait, no task
    /// expired, and no blocker may have released something.
    #[inline(never)]
    pub fn wake(&mut self) -> Result<Option<Woken>, Refused>
        ensures step { IsStep true self.old (always (woken self.old.machine)) result self.new }
        ensures first { IfOk result (λ woken.
            IfSome woken (λ w. IsFirstToGoOn self.old.machine w.label)) }
        ensures headline { IsHeadlineRegion self.new }
        ensures serializable { IsSerializableRegion self.new }
    {
        if self.is_settled {
            return Ok(None);
        }
        self.dispatcher.note_rest(&mut self.notes)?;
        let Some(free) = self.dispatcher.first_free(&mut self.notes)? else {
            self.is_settled = true;
            return Ok(None);
        };
        let unit = self.dispatcher.unit_of(&free.label);
        let woken = self.dispatcher.wake(free.label)?;
        self.notes.remove(free.place);
        self.notes.forget(unit);
        Ok(Some(woken))
    }

    /// Abends the first task that has waited too long, with the code AKCS, and returns its label
    /// and the code. Returns `None` if no task has. Takes no memory.
    ///
    /// The order is that in which the waits began. A task has waited too long if `dtimout` seconds
    /// or more have passed since its wait began; a `dtimout` of 0 is no limit. The task's unit of
    /// work is backed out, its wait ends, and so does the task.
    ///
    /// Cost: O(1) if it last returned `None` and `set_clock` wasn't called since. Else O(log waits)
    /// to find the task, or O(waits) if it can only be one that began to wait since the last
    /// `wake`.
    #[inline(never)]
    pub fn expire(&mut self) -> Option<Expired>
        ensures outcome { result ≡ (expired self.old.machine).outcome }
        ensures machine { self.new.machine ≡ (expired self.old.machine).machine }
        ensures first { IfSome result (λ e. IsFirstTooLate self.old.machine e.label) }
        ensures headline { IsHeadlineRegion self.new }
        ensures serializable { IsSerializableRegion self.new }
    {
        if self.is_in_time {
            return None;
        }
        let Some(late) = self.dispatcher.first_late(&self.notes) else {
            self.is_in_time = true;
            return None;
        };
        let unit = self.dispatcher.unit_at(late.task);
        let expired = self.dispatcher.time_out(late.task);
        self.notes.remove_any(late.note);
        self.notes.forget(unit);
        self.is_settled = false;
        Some(expired)
    }

    /// Shuts the region down, and returns how many units were backed out: SHUTDOWN IMMEDIATE.
    ///
    /// No command waits any more. Then each task ends as by an abend, in the order of attach, and
    /// its open unit of work is backed out. From then on `attach`, `issue`, `set_clock` and
    /// `shutdown` return `RegionDown`, and `wake` and `expire` return `None`. The region can be
    /// read as before. Takes no memory.
    ///
    /// - `none_open`: no unit is open.
    /// - `committed`: each recoverable file and queue holds the replay of the committed units'
    ///   entries alone.
    ///
    /// Errors, which change nothing: `RegionDown` if the region is shut down already.
    pub fn shutdown(&mut self) -> Result<u64, Refused>
        ensures step { IsRegionStep false self.old
            (shut_down self.old.machine) result self.new }
        ensures none_open { OnOk result ((u : ℕ) → is_live self.new.machine.units u ≡ false) }
        ensures committed { OnOk result (HoldsCommitted
            (record { state = self.new.machine.units; store = self.new.store })) }
        ensures headline { IsHeadlineRegion self.new }
        ensures serializable { IsSerializableRegion self.new }
    {
        self.refuse_if_down()?;
        let count = self.dispatcher.shut_down();
        self.notes.clear();
        self.is_settled = true;
        self.is_in_time = true;
        Ok(count)
    }

    /// Returns the open unit of work of the task of a label. `None` if no task has the label, or
    /// the task has no unit.
    pub fn unit(&self, label: &Name8) -> Option<UnitId>
        ensures unit { result ≡ unit_of self.now.machine label.now }
    {
        self.dispatcher.unit_of(label)
    }

    /// Returns whom the waiting command of a label's task waits for now: the label of the task
    /// whose unit blocks it. `None` if no command of such a task waits, or the one that waits may
    /// resume.
    ///
    /// It looks at what units own now, and not at what the region remembers.
    pub fn blocker(&self, label: &Name8) -> Option<Name8>
        ensures blocker { result ≡ blocker_of self.now.machine label.now }
    {
        self.dispatcher.blocker(label)
    }

    /// Returns all tasks whom the waiting command of a label's task waits for now, by their labels,
    /// in the order of attach. It may resume if there is none. That of `blocker` is among them.
    ///
    /// Only DELETE GENERIC and DELETEQ TD may wait for more than one.
    ///
    /// Errors: `NoMemory`. Cost: that of `blocker`; for those two O(tasks + k log resources), k
    /// the resources that open units ever acquired.
    pub fn blockers(&self, label: &Name8) -> Result<Items<Name8>, NoMemory>
        ensures blockers { IfOk result (λ labels. labels ≡ blockers_of self.now.machine label.now) }
        ensures one { IfOk result (HaveBlocker (blocker_of self.now.machine label.now)) }
    {
        self.dispatcher.blockers(label)
    }

    /// Returns the waiting command of a label's task, `None` if no command of it waits. Its verb
    /// names what it asks for: a record, a prefix, a queue or a value.
    pub fn waiting_command(&self, label: &Name8) -> Option<&Command>
        ensures command { option_copied result ≡ waiting_command self.now.machine label.now }
    {
        self.dispatcher.waiting_command(label)
    }

    /// Returns the browse of a file that the task of a label has open. `None` if no task has the
    /// label, or it has no such browse.
    pub fn browse(&self, label: &Name8, file: &Name8) -> Option<&Browse>
        ensures browse { option_copied result ≡ browse_of self.now.machine label.now file.now }
    {
        self.dispatcher.browse(label, file)
    }

    /// Returns whether the task of a label has ended. `false` if no task has the label.
    pub fn has_ended(&self, label: &Name8) -> bool
        ensures ended { result ≡ task_ended self.now.machine label.now }
    {
        self.dispatcher.has_ended(label)
    }

    /// Returns how many tasks were attached, those that have ended included.
    pub fn task_count(&self) -> usize
        ensures count { result ≡ length self.now.machine.tasks }
    {
        self.dispatcher.task_count()
    }

    /// Returns the label of the task of a number, if there is one. Numbers count from 0 in the
    /// order of attach, and a task keeps its number.
    pub fn label_at(&self, number: usize) -> Option<Name8>
        ensures label { result ≡ label_at self.now.machine.tasks number }
    {
        self.dispatcher.label_at(number)
    }

    /// Returns the number of the task of a label, if there is one.
    pub fn number(&self, label: &Name8) -> Option<usize>
        ensures number { result ≡ number_of self.now.machine.tasks label.now }
    {
        self.dispatcher.number(label)
    }

    /// Returns the units of work of the region, with the files and queues that they share, their
    /// history and their outcomes.
    pub fn units(&self) -> &Units
        ensures units { result.now
            ≡ record { state = self.now.machine.units; store = self.now.store } }
    {
        self.dispatcher.units()
    }

    /// Returns what stands in the files and queues, the changes of open units included. It also
    /// returns what each task that hasn't ended does, in the order of attach. This is what a user
    /// is shown of the region.
    ///
    /// Errors: `NoMemory`.
    ///
    /// Cost: that of `Units::listing`, and O(tasks), however many commands wait.
    pub fn listing(&self) -> Result<Listing, NoMemory>
        ensures listing { IfOk result (λ listing. listing ≡ region_listing self.now) }
        ensures replayed { IfOk result (λ listing.
            without_tasks listing ≡ replayed_listing self.now) }
    {
        self.dispatcher.listing()
    }

    /// Returns the listing that a replay of the surviving entries gives: they are applied anew, one
    /// by one, to what was loaded. It has no tasks. Uses no before images: an independent check of
    /// the files and queues of `listing`.
    ///
    /// Errors: `NoMemory`.
    ///
    /// Cost: O(log n) for each record loaded and each command executed, for n records in its file.
    pub fn replayed(&self) -> Result<Listing, NoMemory>
        ensures replayed { IfOk result (λ listing. listing ≡ replayed_listing self.now) }
    {
        self.dispatcher.replayed()
    }

    /// Appends the region's stamp: bytes that tell all of its future. Take two regions of one
    /// opening with the same stamp, whose waiting commands are the same. The same events are then
    /// answered alike in both.
    ///
    /// Errors: `NoMemory`.
    ///
    /// Cost: that of `replayed`, and O(commands executed) for each task with an open unit.
    pub fn stamp(&self, out: &mut Vec<u8>) -> Result<(), NoMemory>
        ensures stamp { OnOk result (out.new.items
            ≡ out.old.items ++ region_stamp self.now.machine) }
    {
        self.dispatcher.stamp(out)
    }
}
