//! What a region shows, event after event.

ghost use Rattle.std.specs.Prelude.{◌≡◌, ◌++◌, [], IfOk, OnOk};
ghost use Rattle.std.specs.List.{filter_map};
ghost use Rattle.std.specs.List.Sorted.{IsStrictlySortedBy};
ghost use Rattle.std.specs.Map.{keys_of};
ghost use Rattle.cics_picture.specs.contracts.page.notes.CellOrd.TheImpl as order;
ghost use Rattle.cics_picture.specs.Page.Tracked.{IsSameBefore, shown};
ghost use Rattle.cics_picture.specs.Page.Views.{IsTold, text_change, texts_told};

use crate::page::acting::{Acted, wanted_by};
use crate::page::cells::Cells;
use crate::page::differences::{
    insert_cursor_notes, look_at_cursors, push_other, push_owner_notes, push_text_notes,
};
use crate::page::notes::{Cell, Note, Wanted};
use crate::page::owners::Owners;
use crate::page::tracked::Tracked;
use cics_dispatch::{Event, Outcome, Region};
use cics_names::{Command, Items, Name8, NoMemory, Verb};
use cics_script::Line;
use std::alloc::Global;
use std::collections::BTreeMap;

/// The texts of files and queues, NEXT cursors, open units and what they own, and what waits.
#[derive(Drop)]
pub struct Following {
    pub cells: Cells,
    cursors: Tracked<Name8, u64>,
    owners: Owners,
    // The open unit of each task that has one.
    units: BTreeMap<Name8, u64>,
    // How many seconds a task may wait; 0 is no limit.
    limits: BTreeMap<Name8, u64>,
    // What the command of the next line asks for, and the waiting commands.
    asked: Option<Command>,
    pub waits: BTreeMap<Name8, Command>,
    // How many entries of the history it has followed.
    followed: usize,
    /// The task whose wait began last, since `Viewer::rings_of` looked.
    pub began: Option<Name8>,
    /// Whether a wait has ended since then.
    pub has_ended: bool,
    /// Whether a unit has ended since then.
    pub unit_ended: bool,
    alloc: Global,
}

// Notes that a task began this unit, if it had none before the event.
fn begin(
    units: &mut BTreeMap<Name8, u64>,
    label: Name8,
    unit: u64,
    notes: &mut Vec<Note>,
) -> Result<(), NoMemory>
    ensures { OnOk result (texts_told notes.new.items ≡ texts_told notes.old.items) }
{
    if units.get(&label).is_some() {
        return Ok(());
    }
    units.insert(label, unit)?;
    push_other(notes, Note::Begins { unit })
}

// Returns no notes.
fn no_notes(alloc: Global) -> Vec<Note>
    ensures { texts_told result.items ≡ [] }
{
    Vec::new(alloc)
}

// Notes what the command of a task wants.
fn push_wanted(notes: &mut Vec<Note>, wanted: Option<Wanted>, seconds: u64) -> Result<(), NoMemory>
    ensures { OnOk result (texts_told notes.new.items ≡ texts_told notes.old.items) }
{
    match wanted {
        Some(wanted) => push_other(notes, Note::Wants { wanted, seconds }),
        None => Ok(()),
    }
}

// Looks up the cursor of the queue that a READQ TS names.
fn look_at_read(cursors: &mut Tracked<Name8, u64>, acted: &Acted<'_>) -> Result<(), NoMemory> {
    let Some(Verb::ReadqTs { queue, .. }) = acted.verb() else {
        return Ok(());
    };
    let after = u64::from(acted.units.next_place(queue));
    cursors.set(*queue, *queue, (after > 0).then_some(after))
}

// Follows what the command of a task makes its unit own, or release.
fn own(owners: &mut Owners, label: Name8, unit: u64, acted: &Acted<'_>) -> Result<(), NoMemory> {
    let opening = acted.units.opening();
    for entry in acted.entries {
        owners.follow(unit, opening, entry)?;
    }
    if let Some(verb) = acted.verb() {
        if let Some(file) = verb.file() {
            owners.read(label, unit, acted.units, *file)?;
        }
        if acted.is_normal {
            owners.enqueue(unit, verb)?;
        }
    }
    Ok(())
}

// Notes how the unit of a task ended.
fn push_end(notes: &mut Vec<Note>, label: Name8, is_backed_out: bool) -> Result<(), NoMemory>
    ensures { OnOk result (texts_told notes.new.items ≡ texts_told notes.old.items) }
{
    if is_backed_out {
        push_other(notes, Note::BacksOut(label))
    } else {
        push_other(notes, Note::Commits(label))
    }
}

// Forgets the unit of a task that has none after an event. If it had one before, notes how that
// ended. Returns the unit that ended, also one that began with the event.
fn end(
    units: &mut BTreeMap<Name8, u64>,
    label: Name8,
    acted: &Acted<'_>,
    notes: &mut Vec<Note>,
) -> Result<Option<u64>, NoMemory>
    ensures { OnOk result (texts_told notes.new.items ≡ texts_told notes.old.items) }
{
    let Some(unit) = units.remove(&label) else {
        return Ok(acted.last_unit());
    };
    push_end(notes, label, acted.is_backed_out(unit))?;
    Ok(Some(unit))
}

// Undoes the changes of a task's unit, or lets them stay.
fn settle(cells: &mut Cells, label: &Name8, is_backed_out: bool) -> Result<(), NoMemory>
    ensures { OnOk result (IsSameBefore order.ghosts.cmp cells.old.texts cells.new.texts) }
{
    if is_backed_out {
        cells.back_out(label)
    } else {
        cells.commit(label);
        Ok(())
    }
}

// Follows what the entries of a task's command changed.
fn follow(cells: &mut Cells, label: Name8, acted: &Acted<'_>) -> Result<(), NoMemory>
    ensures { OnOk result (IsSameBefore order.ghosts.cmp cells.old.texts cells.new.texts) }
{
    let opening = acted.units.opening();
    for entry in acted.entries {
        let by = opening.is_recoverable(&entry.op()).then_some(label);
        cells.follow(&by, entry)?;
    }
    Ok(())
}

impl Following {
    /// Returns what is shown before the first line.
    pub fn new(alloc: Global) -> Following
        ensures { result.cells.texts ≡ record { entries = []; olds = [] } }
    {
        Following {
            cells: Cells::new(alloc),
            cursors: Tracked::new(alloc),
            owners: Owners::new(alloc),
            units: BTreeMap::new(alloc),
            limits: BTreeMap::new(alloc),
            asked: None,
            waits: BTreeMap::new(alloc),
            followed: 0,
            began: None,
            has_ended: false,
            unit_ended: false,
            alloc,
        }
    }

    /// Forgets the command of the line before.
    pub fn expect_nothing(&mut self)
        ensures { self.new.cells ≡ self.old.cells }
    {
        self.asked = None;
    }

    /// Takes a line that is run next: what its command asks for, and how long a task that it
    /// attaches may wait.
    pub fn expect(&mut self, line: Line) -> Result<(), NoMemory>
        ensures { self.new.cells ≡ self.old.cells }
    {
        match line {
            Line::Attach(label, _transaction, seconds) => {
                self.limits.insert(label, seconds)?;
            }
            Line::Issue(_label, command) => self.asked = Some(command),
            _ => {}
        }
        Ok(())
    }

    // Notes what the command of a task waits for.
    fn wait(
        &mut self,
        label: Name8,
        command: Command,
        region: &Region,
    ) -> Result<Items<Note>, NoMemory>
        ensures { IfOk result (λ notes. IsTold order.ghosts.cmp
            self.old.cells.texts.entries notes self.new.cells.texts.entries) }
    {
        let mut notes = no_notes(self.alloc);
        let wanted = wanted_by(self.alloc, region.units().opening(), &command.verb)?;
        let seconds = self.limits.get(&label).copied().unwrap_or(0);
        push_wanted(&mut notes, wanted, seconds)?;
        self.began = Some(label);
        self.waits.insert(label, command)?;
        Ok(Items::from_vec(notes))
    }

    // Follows the end of a task's unit, if the event ended one.
    fn end(
        &mut self,
        label: Name8,
        acted: &Acted<'_>,
        notes: &mut Vec<Note>,
    ) -> Result<(), NoMemory>
        ensures texts { OnOk result (IsSameBefore order.ghosts.cmp
            self.old.cells.texts self.new.cells.texts) }
        ensures silent { OnOk result (texts_told notes.new.items ≡ texts_told notes.old.items) }
    {
        let Some(unit) = end(&mut self.units, label, acted, notes)? else {
            return Ok(());
        };
        self.unit_ended = true;
        self.owners.end(&label, unit);
        settle(&mut self.cells, &label, acted.is_backed_out(unit))
    }

    // Follows the unit of a task: what it owns, or that it ended.
    fn turn(
        &mut self,
        label: Name8,
        acted: &Acted<'_>,
        region: &Region,
        notes: &mut Vec<Note>,
    ) -> Result<(), NoMemory>
        ensures texts { OnOk result (IsSameBefore order.ghosts.cmp
            self.old.cells.texts self.new.cells.texts) }
        ensures silent { OnOk result (texts_told notes.new.items ≡ texts_told notes.old.items) }
    {
        let Some(unit) = region.unit(&label) else {
            return self.end(label, acted, notes);
        };
        begin(&mut self.units, label, unit.number(), notes)?;
        own(&mut self.owners, label, unit.number(), acted)?;
        push_owner_notes(&mut self.owners.held, notes)
    }

    // Notes the texts and cursors that changed.
    fn set(&mut self, acted: &Acted<'_>, notes: &mut Vec<Note>) -> Result<(), NoMemory>
        ensures ordered { OnOk result (IsStrictlySortedBy order.ghosts.cmp
            (keys_of self.old.cells.texts.olds)) }
        ensures told { OnOk result (texts_told notes.new.items ≡ texts_told notes.old.items
            ++ filter_map (text_change (shown order.ghosts.cmp self.old.cells.texts))
            self.old.cells.texts.olds) }
        ensures entries { OnOk result (self.new.cells.texts.entries
            ≡ self.old.cells.texts.entries) }
    {
        look_at_read(&mut self.cursors, acted)?;
        look_at_cursors(&self.cells.texts, &mut self.cursors, acted.units)?;
        push_text_notes(&mut self.cells.texts, acted.units.opening(), notes)?;
        insert_cursor_notes(&mut self.cursors, notes)
    }

    // Follows the command of a task that was answered, or a task that ended.
    fn act(
        &mut self,
        label: Name8,
        acted: &Acted<'_>,
        region: &Region,
    ) -> Result<Items<Note>, NoMemory>
        requires { self.old.cells.texts.olds ≡ [] }
        ensures { IfOk result (λ notes. IsTold order.ghosts.cmp
            self.old.cells.texts.entries notes self.new.cells.texts.entries) }
    {
        let mut notes = no_notes(self.alloc);
        follow(&mut self.cells, label, acted)?;
        self.followed = acted.units.trace().len();
        self.turn(label, acted, region, &mut notes)?;
        self.set(acted, &mut notes)?;
        Ok(Items::from_vec(notes))
    }

    // Ends the unit of the task with this number, if there is one.
    fn end_at(
        &mut self,
        number: usize,
        acted: &Acted<'_>,
        region: &Region,
        notes: &mut Vec<Note>,
    ) -> Result<(), NoMemory>
        ensures texts { OnOk result (IsSameBefore order.ghosts.cmp
            self.old.cells.texts self.new.cells.texts) }
        ensures silent { OnOk result (texts_told notes.new.items ≡ texts_told notes.old.items) }
    {
        let Some(label) = region.label_at(number) else {
            return Ok(());
        };
        self.end(label, acted, notes)
    }

    // Ends all tasks. Their open units are backed out.
    fn shut_down(&mut self, acted: &Acted<'_>, region: &Region) -> Result<Items<Note>, NoMemory>
        requires { self.old.cells.texts.olds ≡ [] }
        ensures { IfOk result (λ notes. IsTold order.ghosts.cmp
            self.old.cells.texts.entries notes self.new.cells.texts.entries) }
    {
        let mut notes = no_notes(self.alloc);
        for number in 0..region.task_count() {
            self.end_at(number, acted, region, &mut notes)?;
        }
        self.waits = BTreeMap::new(self.alloc);
        self.has_ended = true;
        self.set(acted, &mut notes)?;
        Ok(Items::from_vec(notes))
    }

    // Follows a command that was issued.
    fn issue(
        &mut self,
        label: Name8,
        outcome: &Outcome,
        region: &Region,
    ) -> Result<Items<Note>, NoMemory>
        requires { self.old.cells.texts.olds ≡ [] }
        ensures { IfOk result (λ notes. IsTold order.ghosts.cmp
            self.old.cells.texts.entries notes self.new.cells.texts.entries) }
    {
        let command = self.asked.take();
        match (outcome, command) {
            (Outcome::Waiting(_), Some(command)) => self.wait(label, command, region),
            (_, command) => {
                let acted = Acted::new(region.units(), self.followed, command, outcome);
                self.act(label, &acted, region)
            }
        }
    }

    // Returns no notes.
    fn nothing(&self) -> Items<Note>
        ensures { IsTold order.ghosts.cmp self.now.cells.texts.entries result
            self.now.cells.texts.entries }
    {
        Items::new(self.alloc)
    }

    // Follows an event. Nothing is noted yet.
    fn see(&mut self, event: &Event, region: &Region) -> Result<Items<Note>, NoMemory>
        requires { self.old.cells.texts.olds ≡ [] }
        ensures { IfOk result (λ notes. IsTold order.ghosts.cmp
            self.old.cells.texts.entries notes self.new.cells.texts.entries) }
    {
        match event {
            Event::Attached(_, _) | Event::ClockSet(_) | Event::Refused(_, _) => {
                Ok(self.nothing())
            }
            Event::ShutDown(_) => {
                let acted = Acted::ended(region.units(), self.followed);
                self.shut_down(&acted, region)
            }
            Event::Expired(expired) => {
                self.waits.remove(&expired.label);
                self.has_ended = true;
                let acted = Acted::ended(region.units(), self.followed);
                self.act(expired.label, &acted, region)
            }
            Event::Woken(woken) => {
                let command = self.waits.remove(&woken.label);
                self.has_ended = true;
                let acted = Acted::new(region.units(), self.followed, command, &woken.outcome);
                self.act(woken.label, &acted, region)
            }
            Event::Issued(label, outcome, _) => self.issue(*label, outcome, region),
        }
    }

    /// Follows an event, and returns what it changed, in the order in which that is told. The
    /// region is the one after the event.
    pub fn notes_of(&mut self, event: &Event, region: &Region) -> Result<Items<Note>, NoMemory>
        ensures { IfOk result (λ notes. IsTold order.ghosts.cmp
            self.old.cells.texts.entries notes self.new.cells.texts.entries) }
    {
        self.cells.texts.settle();
        let notes = self.see(event, region)?;
        Ok(notes)
    }
}
