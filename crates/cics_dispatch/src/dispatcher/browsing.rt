//! READ without UPDATE, UNLOCK and browses of the tasks of a region.

ghost use Rattle.std.specs.Prelude.{◌≡◌, ◌<◌, true, is_some, length};
ghost use Rattle.cics_names.specs.Commands.{length_of};
ghost use Rattle.cics_names.specs.Keyed.{value_at};
ghost use Rattle.cics_names.specs.declared.conditions.Condition.TheVariants.{Normal};
ghost use Rattle.cics_history.specs.Execution.{IsOpenOrNone};
ghost use Rattle.cics_dispatch.specs.Machine.Machine.{Machine, definition_of, with_units};
ghost use Rattle.cics_dispatch.specs.Machine.Replies.{plain};
ghost use Rattle.cics_dispatch.specs.Machine.Steps.{answered, unlocked, started, reset, browse_ended};
ghost use Rattle.cics_dispatch.specs.Machine.Calls.{IsAwake, HasBrowse, IsStepOf};
ghost use Rattle.cics_dispatch.specs.Machine.Calls.{IsStepOrRefused, reading, reading_on};
ghost use Rattle.cics_dispatch.specs.Machine.Regions.{ArePromised};

use crate::dispatcher::Dispatcher;
use crate::machine::{
    BrowseStart, Direction, Outcome, plain_reply, read_on, read_plain, reply_of_browsed,
};
use cics_browse::Browse;
use cics_history::UnitId;
use cics_names::{Command, Condition, Name8, NoMemory};
use cics_units::Units;

// Ends a unit's update read of a file, if there is a unit.
fn unlock_file(units: &mut Units, unit: Option<UnitId>, name: &Name8)
    requires is_open { IsOpenOrNone units.old.state unit }
    requires promised { ArePromised units.old }
    ensures state { (m : Machine) → with_units m units.new.state
        ≡ unlocked (with_units m units.old.state) unit name.now }
    ensures promised { ArePromised units.new }
{
    let Some(unit) = unit else {
        return;
    };
    units.unlock(unit, name);
}

impl Dispatcher {
    // Executes READ without UPDATE.
    pub(super) fn read(
        &mut self,
        at: usize,
        name: &Name8,
        command: &Command,
    ) -> Result<Outcome, NoMemory>
        requires within { at < length self.old.machine.tasks }
        requires there { is_some (definition_of self.old.machine name.now) ≡ true }
        ensures step { IsStepOrRefused self.old at
            (reading self.old.machine name.now command.now) result self.new }
    {
        let Some(file) = self.units.file(name) else {
            unreachable!();
        };
        let reply = read_plain(file, &command.verb)?;
        Ok(self.answer(at, command.resp, reply))
    }

    // Executes UNLOCK.
    pub(super) fn unlock(&mut self, at: usize, resp: bool, name: &Name8) -> Outcome
        requires within { at < length self.old.machine.tasks }
        requires awake { IsAwake self.old.machine at }
        ensures step { IsStepOf self.old at
            (λ t. answered (unlocked self.old.machine t.unit name.now) t resp
            (plain Normal)) result self.new }
    {
        let unit = self.tasks.get(at).unit();
        unlock_file(&mut self.units, unit, name);
        self.answer(at, resp, plain_reply(Condition::Normal))
    }

    // Executes STARTBR.
    pub(super) fn start_browse(
        &mut self,
        at: usize,
        resp: bool,
        name: Name8,
        start: BrowseStart,
    ) -> Result<Outcome, NoMemory>
        requires within { at < length self.old.machine.tasks }
        requires awake { IsAwake self.old.machine at }
        requires there { is_some (definition_of self.old.machine name) ≡ true }
        ensures step { IsStepOrRefused self.old at
            (λ t. started self.old.machine t resp name start.key start.generic start.equal)
            result self.new }
    {
        let Some(file) = self.units.file(&name) else {
            unreachable!();
        };
        let BrowseStart {
            key,
            generic,
            equal,
        } = start;
        let Some(browse) = Browse::start(file, key, generic, equal) else {
            return Ok(self.answer(at, resp, plain_reply(Condition::Notfnd)));
        };
        self.tasks.browses_mut(at).put(name, browse)?;
        Ok(self.answer(at, resp, plain_reply(Condition::Normal)))
    }

    // Executes RESETBR.
    pub(super) fn reset_browse(
        &mut self,
        at: usize,
        resp: bool,
        name: &Name8,
        start: BrowseStart,
    ) -> Outcome
        requires within { at < length self.old.machine.tasks }
        requires awake { IsAwake self.old.machine at }
        requires there { is_some (definition_of self.old.machine name.now) ≡ true }
        requires browsing { HasBrowse self.old.machine at name.now }
        ensures step { IsStepOf self.old at
            (λ t. reset self.old.machine t resp name.now start.key start.generic start.equal
            (value_at name.now t.browses)) result self.new }
    {
        let Some(file) = self.units.file(name) else {
            unreachable!();
        };
        let Some(browse) = self.tasks.browses_mut(at).get_mut(name) else {
            unreachable!();
        };
        let BrowseStart {
            key,
            generic,
            equal,
        } = start;
        let condition = browse.reset(file, key, generic, equal);
        self.answer(at, resp, plain_reply(condition))
    }

    // Executes READNEXT or READPREV, by the direction.
    pub(super) fn read_on(
        &mut self,
        at: usize,
        name: Name8,
        command: &Command,
        direction: Direction,
    ) -> Result<Outcome, NoMemory>
        requires within { at < length self.old.machine.tasks }
        requires awake { IsAwake self.old.machine at }
        requires there { is_some (definition_of self.old.machine name) ≡ true }
        requires browsing { HasBrowse self.old.machine at name }
        ensures step { IsStepOrRefused self.old at
            (reading_on self.old.machine command.now.resp name (length_of command.now.verb)
            direction) result self.new }
    {
        let limit = command.verb.length();
        let Some(file) = self.units.file(&name) else {
            unreachable!();
        };
        let Some(browse) = self.tasks.browses_mut(at).get_mut(&name) else {
            unreachable!();
        };
        let browsed = read_on(browse, file, direction)?;
        Ok(self.answer(at, command.resp, reply_of_browsed(browsed, limit)))
    }

    // Executes ENDBR.
    pub(super) fn end_browse(&mut self, at: usize, resp: bool, name: &Name8) -> Outcome
        requires within { at < length self.old.machine.tasks }
        requires awake { IsAwake self.old.machine at }
        ensures step { IsStepOf self.old at
            (λ t. browse_ended self.old.machine t resp name.now) result self.new }
    {
        self.tasks.browses_mut(at).end(name);
        self.answer(at, resp, plain_reply(Condition::Normal))
    }
}
