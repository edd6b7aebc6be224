//! Waiting commands: which one resumes, and which task has waited too long.

ghost use Rattle.std.specs.Prelude.{◌≡◌, ◌<◌, ◌≤◌, [], All, Some, None, true, false, length, ◌+◌};
ghost use Rattle.std.specs.Prelude.{slice_get, is_ok, IfOk, OnOk, OnErr, IfSome, IfNone};
ghost use Rattle.cics_dispatch.specs.Words.{IsOpenUnit, key_of, IsSound, task_at, timed_out};
ghost use Rattle.cics_dispatch.specs.Words.{is_waiting, Task as TaskValue, IsWaitKept};
ghost use Rattle.cics_dispatch.specs.Words.{AreTasksKept, expired, woken, woken_first, first_free};
ghost use Rattle.cics_dispatch.specs.Words.{first_late, is_late, awaited_by, with_outcome, OfWait};
ghost use Rattle.cics_dispatch.specs.Words.{IsFound, IsOnlyUse, IsOnlyNeed, AreNotedNow};
ghost use Rattle.cics_dispatch.specs.Words.{IsFirstFree, IsFirstFreeOf, MayClose, UseOf, IsLooked};
ghost use Rattle.cics_dispatch.specs.Words.{IsFreeAt, AreSettled, IsUse, OwnerIsElsewhere};
ghost use Rattle.cics_dispatch.specs.Words.{IsFirstOpen, count, IsPlaceOf, deadline_of};
ghost use Rattle.cics_dispatch.specs.Words.{reads_queue, IsBlocked, AreApart, OfTask, IsAwake};
ghost use Rattle.cics_dispatch.specs.Words.{HasReady, KeepsRegion, IsAttempt};

use crate::dispatcher::Dispatcher;
use crate::machine::{Attempt, Expired, Free, Late, Suspended, WaitLook, Waits, Woken};
use crate::notes::{Notes, WaitNote};
use cics_history::{Resource, UnitId};
use cics_names::{AbendCode, Name4, Name8, NoMemory, Verb};
use cics_units::Op;
use std::mem;

// Returns the code of a task that has waited too long: AKCS.
fn time_out_code() -> AbendCode
    ensures { result ≡ timed_out }
{
    match Name4::new(b"AKCS") {
        Ok(name) => AbendCode(name),
        Err(_) => unreachable!(),
    }
}

// Returns whether an updating command's key has at most 255 bytes. One that names no file has no
// key.
fn has_short_key(op: &Op) -> bool
    ensures { result ≡ true → length (key_of op.now) ≤ 255 }
{
    match op.record() {
        Some((_, key)) => key.bytes().len() <= 255,
        None => true,
    }
}

// Returns the one resource that an updating command uses, if it uses any. `None` for DELETEQ TD,
// which may use two, and READQ TD, which may also wait for a writer of its queue.
fn need_of(op: &Op) -> Option<Resource>
    requires { length (key_of op.now) ≤ 255 }
    ensures { IfSome result (λ r. IsOnlyUse r op.now) }
{
    match op {
        Op::Write { file, key, .. } => Some(Resource::record(*file, key.bytes())),
        Op::Rewrite { file, key, .. } => Some(Resource::record(*file, key.bytes())),
        Op::Delete { file, key } => Some(Resource::record(*file, key.bytes())),
        Op::DeleteGeneric { file, prefix } => Some(Resource::prefix(*file, prefix.bytes())),
        Op::ReadUpdate { file, key } => Some(Resource::record(*file, key.bytes())),
        Op::TsWrite { queue, .. } => Some(Resource::TsQueue(*queue)),
        Op::TsRewrite { queue, .. } => Some(Resource::TsQueue(*queue)),
        Op::TsDelete { queue } => Some(Resource::TsQueue(*queue)),
        Op::TdWrite { queue, .. } => Some(Resource::TdWrite(*queue)),
        Op::TdRead { .. } | Op::TdDelete { .. } => None,
    }
}

impl Dispatcher {
    // Returns the unit that blocks a waiting command of the task at an index, if one does.
    pub(super) fn awaited(&self, at: usize, wait: &Suspended) -> Option<UnitId>
        requires within { at < length self.now.machine.tasks }
        requires ready { HasReady self.now.machine at wait.now.command.verb wait.now.op }
        ensures holder { OfTask self.now.machine.tasks at (λ t. result
            ≡ awaited_by self.now.machine.units t.unit wait.now.command.verb wait.now.op) }
        ensures is_open { IfSome result (IsOpenUnit self.now.machine.units) }
        ensures sound { reads_queue wait.now.op ≡ true → IsSound self.now.machine.units }
    {
        let asking = self.tasks.get(at).unit();
        if let Some(op) = wait.op() {
            return self.units.awaited(asking, op);
        }
        let Verb::Enq {
            resource,
            length,
            ..
        } = &wait.command().verb
        else {
            unreachable!();
        };
        self.units
            .value_holder(asking, &resource.bytes()[..*length as usize])
    }

    /// Looks at the waiting command of a label's task: it may resume, or a unit blocks it.
    pub(crate) fn look(&self, label: &Name8) -> WaitLook
        requires { is_waiting self.now.machine.waiting label.now ≡ true }
        ensures { OfWait self.now.machine.waiting label.now
            (λ w. IsFound self.now.machine w result) }
    {
        let Some(wait) = self.waits.get(label) else {
            unreachable!();
        };
        let Some(at) = self.tasks.find(label) else {
            unreachable!();
        };
        match self.awaited(at, wait) {
            None => WaitLook::MayGoOn,
            Some(unit) => WaitLook::IsBlocked(unit),
        }
    }

    // Returns the one resource that the waiting command of a label's task uses, if it is known to
    // use no other.
    fn need(&self, label: &Name8) -> Option<Resource>
        ensures { OfWait self.now.machine.waiting label.now (λ w. IfSome result (λ r.
            IsOnlyNeed r w.command.verb w.op)) }
    {
        let wait = self.waits.get(label)?;
        if let Some(op) = wait.op() {
            return if has_short_key(op) { need_of(op) } else { None };
        }
        match &wait.command().verb {
            Verb::Enq {
                resource,
                length,
                ..
            } => Some(Resource::value(&resource.bytes()[..*length as usize])),
            _ => None,
        }
    }

    // Returns false only if the waiting command of a label's task can't be one of a wait group. It
    // isn't inlined: a resource takes over 255 bytes of the frame, and few looks need one.
    #[inline(never)]
    fn may_be_in_group(&self, notes: &Notes, group: usize, label: &Name8) -> bool
        ensures { result ≡ false → OfWait self.now.machine.waiting label.now
            (λ w. IsUse self.now.machine.units.opening notes.now.resources w group → ⊥) }
    {
        match self.need(label) {
            Some(resource) => notes.is_group_of(group, &resource),
            None => true,
        }
    }

    // Returns false only if no command of a wait group is of the unit's own task.
    fn owner_waits_in(&self, notes: &Notes, group: usize, unit: UnitId) -> bool
        ensures { result ≡ false
            → OwnerIsElsewhere self.now.machine notes.now.resources group unit }
    {
        let Some(label) = self.tasks.label_of(unit) else {
            return false;
        };
        if !self.waits.is_waiting(&label) {
            return false;
        }
        self.may_be_in_group(notes, group, &label)
    }

    // Returns whether a unit that blocks one command of a wait group may be noted for the whole
    // group. It may if it is noted already, or if the group has no blocker noted and no command of
    // the unit's own task.
    fn may_close(&self, notes: &Notes, group: usize, unit: UnitId) -> bool
        requires { group < length notes.now.blockers }
        ensures { result ≡ true → MayClose self.now.machine
            notes.now.resources notes.now.blockers group unit }
    {
        match notes.group_blocker(group) {
            Some(blocker) => blocker == unit,
            None => !self.owner_waits_in(notes, group, unit),
        }
    }

    // Notes the unit that blocks the first command that must be looked at, as the blocker of its
    // whole wait group if it may. On error the command must be looked at again.
    fn note_blocker(
        &self,
        notes: &mut Notes,
        at: usize,
        note: &WaitNote,
        unit: UnitId,
    ) -> Result<(), NoMemory>
        requires first { IsFirstOpen notes.old at note.now }
        requires kept { AreTasksKept self.now.machine }
        requires noted { AreNotedNow self.now.machine notes.old }
        requires blocked { OfWait self.now.machine.waiting note.now.label
            (IsBlocked self.now.machine unit) }
        ensures { IsLooked self.now.machine notes.old notes.new at (is_ok result) }
    {
        if let Some(group) = note.group {
            return self.note_group(notes, (at, *note), group, unit);
        }
        let Some(resource) = self.need(&note.label) else {
            return notes.set_alone(at, note, unit);
        };
        match notes.group_of(resource) {
            Ok(group) => self.note_group(notes, (at, *note), group, unit),
            Err(refused) => Err(refused),
        }
    }

    // Does as `note_blocker`, for a command that uses the resource of this wait group alone.
    // `found` is the index of its note, and the note.
    fn note_group(
        &self,
        notes: &mut Notes,
        found: (usize, WaitNote),
        group: usize,
        unit: UnitId,
    ) -> Result<(), NoMemory>
        requires first { IsFirstOpen notes.old found.0 found.1 }
        requires kept { AreTasksKept self.now.machine }
        requires noted { AreNotedNow self.now.machine notes.old }
        requires blocked { OfWait self.now.machine.waiting found.1.label
            (IsBlocked self.now.machine unit) }
        requires within { group < length notes.old.blockers }
        requires only { IfSome found.1.group (λ g. g ≡ group) }
        requires uses { UseOf self.now.machine notes.old.resources found.1 group }
        ensures { IsLooked self.now.machine notes.old notes.new found.0 (is_ok result) }
    {
        if self.may_close(notes, group, unit) {
            notes.close(found.0, &found.1, group, unit)
        } else {
            notes.set_alone(found.0, &found.1, unit)
        }
    }

    /// Looks at the waiting commands without a known blocker, up to the first that may resume, and
    /// returns that one. Notes the blockers that it finds. On `NoMemory` it looks no further.
    pub(crate) fn first_free(&self, notes: &mut Notes) -> Result<Option<Free>, NoMemory>
        requires kept { AreTasksKept self.now.machine }
        requires noted { AreNotedNow self.now.machine notes.old }
        requires all { count notes.old.rows ≡ length self.now.machine.waiting }
        ensures noted { AreNotedNow self.now.machine notes.new }
        ensures first { IfOk result (λ found.
            IfSome found (λ f. IsFreeAt self.now.machine notes.new f.place f.label)) }
        ensures none { IfOk result (λ found. IfNone found
            (AreSettled self.now.machine notes.new)) }
    {
        while let Some((at, note)) = notes.first_open() {
            match self.look(&note.label) {
                WaitLook::MayGoOn => {
                    return Ok(Some(Free {
                        place: at,
                        label: note.label,
                    }));
                }
                WaitLook::IsBlocked(unit) => self.note_blocker(notes, at, &note, unit)?,
            }
        }
        Ok(None)
    }

    /// Adds a note of each waiting command that has none, as one that must be looked at. Drops all
    /// notes first if most of their indexes are empty. On `NoMemory` it adds no more.
    pub(crate) fn note_rest(&self, notes: &mut Notes) -> Result<(), NoMemory>
        requires noted { AreNotedNow self.now.machine notes.old }
        ensures noted { AreNotedNow self.now.machine notes.new }
        ensures all { OnOk result (count notes.new.rows ≡ length self.now.machine.waiting) }
        ensures once { AreApart self.now.machine.waiting }
    {
        if notes.have_grown(self.waits.len()) {
            notes.clear();
        }
        match self.waits.len().checked_sub(notes.count()) {
            Some(1) => self.note_last(notes),
            _ => self.note_behind(notes),
        }
    }

    // Adds a note of the command that began to wait last. Every other has its note.
    fn note_last(&self, notes: &mut Notes) -> Result<(), NoMemory>
        requires noted { AreNotedNow self.now.machine notes.old }
        requires one { count notes.old.rows + 1 ≡ length self.now.machine.waiting }
        ensures noted { AreNotedNow self.now.machine notes.new }
        ensures all { OnOk result (count notes.new.rows ≡ length self.now.machine.waiting) }
        ensures once { AreApart self.now.machine.waiting }
    {
        let Some(wait) = self.waits.last() else {
            unreachable!();
        };
        notes.push(wait.label(), self.deadline(wait))?;
        Ok(())
    }

    // Returns the last clock at which the task of a waiting command hasn't waited too long.
    fn deadline(&self, wait: &Suspended) -> u64
        ensures { (t : TaskValue) → task_at self.now.machine.tasks wait.now.label ≡ Some t
            → result ≡ deadline_of t wait.now.since }
    {
        match self.tasks.find(&wait.label()) {
            Some(at) => self.tasks.get(at).deadline(wait.since()),
            None => u64::MAX,
        }
    }

    // Adds a note of each waiting command that has none.
    fn note_behind(&self, notes: &mut Notes) -> Result<(), NoMemory>
        requires noted { AreNotedNow self.now.machine notes.old }
        ensures noted { AreNotedNow self.now.machine notes.new }
        ensures all { OnOk result (count notes.new.rows ≡ length self.now.machine.waiting) }
        ensures once { AreApart self.now.machine.waiting }
    {
        let noted = notes.count();
        if noted == self.waits.len() {
            return Ok(());
        }
        let mut passed = 0;
        for wait in self.waits.iter() {
            if passed < noted {
                passed += 1;
                continue;
            }
            notes.push(wait.label(), self.deadline(wait))?;
        }
        Ok(())
    }

    // Tries a waiting command of the task at an index again, with what it asked for when issued.
    fn attempt(&mut self, at: usize, wait: &Suspended) -> Result<Attempt, NoMemory>
        requires within { at < length self.old.machine.tasks }
        requires awake { IsAwake self.old.machine at }
        requires ready { HasReady self.old.machine at wait.now.command.verb wait.now.op }
        ensures attempt { IsAttempt self.old at wait.now.command wait.now.op result self.new }
    {
        match wait.op() {
            Some(op) => self.execute(at, wait.command(), op.copy()?),
            None => self.take_value(at, wait.command()),
        }
    }

    // Resumes the waiting command of a label's task, the first of `waits` that may resume. `waits`
    // were taken out of the dispatcher.
    fn go_on_first(&mut self, waits: &Waits, label: Name8) -> Result<Woken, NoMemory>
        requires alone { self.old.machine.waiting ≡ [] }
        requires kept { All (IsWaitKept self.old.machine) waits.now }
        requires first { IsFirstFreeOf self.old.machine waits.now label }
        ensures step { IfOk result (λ woken. with_outcome (Some woken) self.new.machine
            ≡ woken_first self.old.machine (first_free self.old.machine waits.now)) }
        ensures kept { KeepsRegion self.old self.new }
        ensures err { OnErr result (self.new ≡ self.old) }
    {
        let Some(wait) = waits.get(&label) else {
            unreachable!();
        };
        let Some(at) = self.tasks.find(&label) else {
            unreachable!();
        };
        match self.attempt(at, wait)? {
            Attempt::Told(outcome) => Ok(Woken { label, outcome }),
            Attempt::MustWait(_, _) => unreachable!(),
        }
    }

    /// Resumes the waiting command of a label's task, the first that may resume, and returns its
    /// outcome.
    ///
    /// It isn't checked again, and doesn't wait again. On `NoMemory` nothing changes: the command
    /// waits as it did.
    pub(crate) fn wake(&mut self, label: Name8) -> Result<Woken, NoMemory>
        requires first { IsFirstFree self.old.machine label }
        ensures step { IfOk result (λ w.
            with_outcome (Some w) self.new.machine ≡ woken self.old.machine) }
        ensures kept { KeepsRegion self.old self.new }
        ensures err { OnErr result (self.new ≡ self.old) }
    {
        // The waits are taken out whole, so that on `NoMemory` the command waits as it did.
        let mut waits = mem::replace(&mut self.waits, Waits::new(self.alloc));
        match self.go_on_first(&waits, label) {
            Ok(woken) => {
                waits.remove(&label);
                self.waits = waits;
                Ok(woken)
            }
            Err(refused) => {
                self.waits = waits;
                Err(refused)
            }
        }
    }

    // Returns the index of a waiting command's task, if the task has waited too long.
    fn late(&self, wait: &Suspended) -> Option<usize>
        ensures late { IfSome result (λ at.
            is_late self.now.machine wait.now (task_at self.now.machine.tasks wait.now.label)
            ≡ true) }
        ensures task { IfSome result (λ at. slice_get self.now.machine.tasks at
            ≡ task_at self.now.machine.tasks wait.now.label) }
        ensures within { IfSome result (λ at. at < length self.now.machine.tasks) }
        ensures none { IfNone result
            (is_late self.now.machine wait.now (task_at self.now.machine.tasks wait.now.label)
            ≡ false) }
    {
        let at = self.tasks.find(&wait.label())?;
        let limit = self.tasks.get(at).dtimout();
        let waited = self.clock.saturating_sub(wait.since());
        if limit > 0 && limit <= waited {
            Some(at)
        } else {
            None
        }
    }

    // Returns the index of the first task that has waited too long, if one has. Cost: O(waits).
    fn first_late_of_all(&self) -> Option<usize>
        ensures task { IfSome result (λ at. slice_get self.now.machine.tasks at
            ≡ first_late self.now.machine self.now.machine.waiting) }
        ensures within { IfSome result (λ at. at < length self.now.machine.tasks) }
        ensures none { IfNone result (first_late self.now.machine self.now.machine.waiting ≡ None) }
    {
        for wait in self.waits.iter() {
            if let Some(at) = self.late(wait) {
                return Some(at);
            }
        }
        None
    }

    /// Returns the first task that has waited too long, in the order in which the waits began.
    ///
    /// The notes are of the earliest waits, so the first of them whose deadline is past is the
    /// first of all. It looks at the waits only if no note is late and some waits have no note.
    pub(crate) fn first_late(&self, notes: &Notes) -> Option<Late>
        requires noted { AreNotedNow self.now.machine notes.now }
        ensures task { IfSome result (λ late. slice_get self.now.machine.tasks late.task
            ≡ first_late self.now.machine self.now.machine.waiting) }
        ensures within { IfSome result (λ late. late.task < length self.now.machine.tasks) }
        ensures note { IfSome result (λ late. OfTask self.now.machine.tasks late.task
            (λ t. IsPlaceOf t.label notes.now.rows late.note)) }
        ensures none { IfNone result (first_late self.now.machine self.now.machine.waiting ≡ None) }
        ensures once { AreApart self.now.machine.waiting }
    {
        let are_all_noted = notes.count() == self.waits.len();
        let Some(place) = notes.first_late(self.clock) else {
            if are_all_noted {
                return None;
            }
            let task = self.first_late_of_all()?;
            return Some(Late { task, note: None });
        };
        let Some(task) = self.tasks.find(&notes.label_at(place)) else {
            unreachable!();
        };
        Some(Late {
            task,
            note: Some(place),
        })
    }

    /// Abends the task at an index, the first that has waited too long, with the code AKCS. Its
    /// unit of work is backed out, its wait ends, and so does the task. Takes no memory.
    pub(crate) fn time_out(&mut self, at: usize) -> Expired
        requires within { at < length self.old.machine.tasks }
        requires first { slice_get self.old.machine.tasks at
            ≡ first_late self.old.machine self.old.machine.waiting }
        ensures step { with_outcome (Some result) self.new.machine ≡ expired self.old.machine }
        ensures kept { KeepsRegion self.old self.new }
    {
        let label = self.tasks.get(at).label();
        self.abend(at);
        Expired {
            label,
            code: time_out_code(),
        }
    }
}
