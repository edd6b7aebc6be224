//! Follows orders level by level, and counts those that lead to each ending.
//!
//! A *level* has the states after orders of so many lines, and after shorter ones at whose end no
//! lane may give. They stand in the order of their first orders. A state is made again by its first
//! order, unless it is known where each of its lanes leads (`ahead`).

ghost use Rattle.std.specs.Prelude.{◌≡◌, ◌≤◌, ◌<◌, ◌+◌, ◌++◌, ◌∷◌, [], map, ℕ};
ghost use Rattle.std.specs.Prelude.{true, false, List, IfOk, OnOk, option_map};
ghost use Rattle.std.specs.Str.{bytes_eq};
ghost use Rattle.cics_orders.specs.Space.Endings.{are_same};
ghost use Rattle.cics_orders.specs.Space.Groups.{added, added_all};
ghost use Rattle.cics_orders.specs.Space.States.{led_joined};
ghost use Rattle.cics_orders.specs.Space.Tallies.{tally_joined};
ghost use Rattle.cics_orders.specs.declared.space.states.Led.{Led};
ghost use Rattle.cics_orders.specs.Search.Ahead.{IsKnown};
ghost use Rattle.cics_orders.specs.Search.Levels.{live, spread, tallied, IsEntry};
ghost use Rattle.cics_orders.specs.Search.Levels.{IsLevel, IsNext, state_count};
ghost use Rattle.cics_orders.specs.Search.Reports.{IsReport};
ghost use Rattle.cics_orders.specs.Words.{is_proper, lanes, initial_state, initial_of, line_count};
ghost use Rattle.cics_orders.specs.Words.{state_stamp, breaks, as_written, parts_at};

use crate::plans::Plan;
use crate::search::ahead::{Known, lead_on};
use crate::search::progress::{Progress, Stand};
use crate::space::{
    Ending, Led, Met, Parts, Reached, Scope, Stamp, Tally, add, endings_of, go_as_written, go_to,
    look, with_lane,
};
use crate::walks::Walker;
use cics_names::{Items, NoMemory, Record};
use indexmap::IndexMap;
use std::alloc::Global;

/// The endings of the orders that were followed.
#[derive(Drop)]
pub struct Report {
    /// The endings, in the order of their first orders. Behind them are those that only serial
    /// orders met, if not all orders were followed.
    pub endings: Items<Ending>,
    /// Whether all orders were followed.
    pub is_whole: bool,
    /// Whether all serial orders were followed.
    pub has_all_serial: bool,
    /// The parts of the ending that the order as written leads to, if there is one.
    pub written: Option<Items<Record>>,
}

// A level: the orders that lead to each of its states, by the stamps of these.
type Level = IndexMap<Stamp, Led>;

// A search: which orders it follows, and how many states.
#[derive(Drop)]
struct Search {
    alloc: Global,
    scope: Scope,
    // If its levels so far have more states than this in which a lane may give, it follows only
    // some of each further level.
    limit: u64,
    // How many of each level it follows then.
    share: u64,
    // How many such states its levels so far had.
    met: u64,
    // Whether it has left out no state.
    is_whole: bool,
    // Where it stands.
    stand: Stand,
}

// Which states of a level go on to the next. Those in which no lane may give always do.
#[derive(Clone, Copy)]
struct Thinning {
    // Whether only some of the others are.
    is_over: bool,
    // How many of them are followed then.
    share: u64,
    // How many of them there are.
    count: usize,
}

impl Thinning {
    // Returns whether a state is followed, by its index among those in which a lane may give.
    fn keeps(&self, at: usize) -> bool
        ensures all { self.now.is_over ≡ false → result ≡ true }
        ensures last { at + 1 ≡ self.now.count → 1 ≤ self.now.share → result ≡ true }
    {
        !self.is_over || is_kept(at, self.share, self.count)
    }
}

// Returns whether the state of an index is followed, if `most` of `count` are, spread evenly.
fn is_kept(at: usize, most: u64, count: usize) -> bool
    ensures last { at + 1 ≡ count → 1 ≤ most → result ≡ true }
{
    let (at, most, count) = (at as u128, u128::from(most), (count as u128).max(1));
    at * most / count != (at + 1) * most / count
}

// Returns how many states of a level have a lane that may give.
fn live_count(level: &Level) -> usize
    ensures { result ≡ live level.now.entries }
{
    let mut count = 0;
    for at in 0..level.len() {
        if let Some((_, led)) = level.get_index(at) {
            if !led.has_ended {
                count += 1;
            }
        }
    }
    count
}

// Adds to a level the state that the orders of `led` reach by one lane more.
fn add_led(level: &mut Level, led: &Led, lane: usize, reached: Reached) -> Result<(), NoMemory>
    ensures { OnOk result (level.new.entries ≡ added bytes_eq led_joined level.old.entries
        reached.stamp (record {
          first = led.now.first ++ lane ∷ [];
          lanes = reached.lanes;
          has_ended = reached.has_ended;
          count = led.now.count;
        })) }
{
    let first = with_lane(*level.allocator(), led.first.as_slice(), lane)?;
    let (stamp, led) = reached.into_entry(first, led.count);
    add(level, stamp, led)
}

impl Search {
    // Returns a search that has met no state yet. Orders have so many lines at most.
    fn new(alloc: Global, scope: Scope, limit: u64, lines: usize) -> Search
        ensures scope { result.scope ≡ scope }
        ensures limit { result.limit ≡ limit }
        ensures share { 1 ≤ result.share }
        ensures met { result.met ≡ 0 }
        ensures whole { result.is_whole ≡ true }
    {
        Search {
            alloc,
            scope,
            limit,
            share: (limit / (lines as u64).saturating_add(1)).max(1),
            met: 0,
            is_whole: true,
            stand: Stand {
                is_serial: scope.is_serial,
                level: 0,
                levels: lines,
                states: 0,
            },
        }
    }

    // Counts so many states in which a lane may give. Returns which of them are followed.
    fn thin(&mut self, count: usize) -> Thinning
        ensures over { result.is_over ≡ true → self.old.limit < self.old.met + count }
        ensures share { result.share ≡ self.old.share }
        ensures count { result.count ≡ count }
        ensures stays { self.new.share ≡ self.old.share }
        ensures met { self.new.met ≤ self.old.met + count }
        ensures limit { self.new.limit ≡ self.old.limit }
        ensures scope { self.new.scope ≡ self.old.scope }
        ensures whole { self.new.is_whole ≡ self.old.is_whole }
    {
        self.met = self.met.saturating_add(count as u64);
        Thinning {
            is_over: self.met > self.limit,
            share: self.share,
            count,
        }
    }

    // Follows an entry of a level: adds what it leads to to the next level. An ended state stays.
    fn follow(
        &self,
        walk: &mut Walker,
        known: &mut Known,
        entry: (Stamp, Led),
        next: &mut Level,
    ) -> Result<(), NoMemory>
        requires entry { IsEntry lanes breaks (state_stamp self.now.scope.told)
            self.now.scope.is_serial (initial_of walk.old) entry }
        requires known { IsKnown lanes breaks (state_stamp self.now.scope.told)
            self.now.scope.is_serial (initial_of walk.old) known.old.entries }
        ensures known { OnOk result (IsKnown lanes breaks (state_stamp self.now.scope.told)
            self.now.scope.is_serial (initial_of walk.old) known.new.entries) }
        ensures next { OnOk result (next.new.entries ≡ added_all bytes_eq led_joined
            next.old.entries (spread lanes breaks (state_stamp self.now.scope.told)
            self.now.scope.is_serial (initial_of walk.old) entry)) }
        ensures initial { OnOk result (initial_of walk.new ≡ initial_of walk.old) }
    {
        if entry.1.has_ended {
            return add(next, entry.0, entry.1);
        }
        let states = lead_on(walk, known, &entry, self.scope)?;
        let led = &entry.1;
        let mut at = 0usize;
        for reached in states.into_vec() {
            add_led(next, led, led.lanes.as_slice()[at], reached)?;
            at += 1;
        }
        Ok(())
    }

    // Follows the states of a level, or some of them. Returns the next level.
    fn next<P: Progress>(
        &mut self,
        walk: &mut Walker,
        known: &mut Known,
        level: Level,
        progress: &mut P,
    ) -> Result<Level, NoMemory>
        requires level { (n : ℕ) × IsLevel lanes breaks (state_stamp self.old.scope.told)
            self.old.scope.is_serial (initial_of walk.old) n self.old.is_whole level.entries }
        requires share { 1 ≤ self.old.share }
        requires known { IsKnown lanes breaks (state_stamp self.old.scope.told)
            self.old.scope.is_serial (initial_of walk.old) known.old.entries }
        ensures known { OnOk result (IsKnown lanes breaks (state_stamp self.old.scope.told)
            self.old.scope.is_serial (initial_of walk.old) known.new.entries) }
        ensures next { IfOk result (λ next. IsNext lanes breaks (state_stamp self.old.scope.told)
            self.old.scope.is_serial (initial_of walk.old) self.old.is_whole self.new.is_whole
            level.entries next.entries) }
        ensures initial { OnOk result (initial_of walk.new ≡ initial_of walk.old) }
        ensures scope { OnOk result (self.new.scope ≡ self.old.scope) }
        ensures limit { OnOk result (self.new.limit ≡ self.old.limit) }
        ensures share { OnOk result (self.new.share ≡ self.old.share) }
        ensures met { OnOk result (self.new.met ≤ self.old.met + live level.entries) }
        ensures within { OnOk result (self.old.met + live level.entries ≤ self.old.limit →
            self.new.is_whole ≡ self.old.is_whole) }
    {
        let thinning = self.thin(live_count(&level));
        let mut next = IndexMap::new(self.alloc);
        let mut at = 0usize;
        for (stamp, led) in level {
            let may_go_on = !led.has_ended;
            let is_kept = !may_go_on || thinning.keeps(at);
            at = at.saturating_add(usize::from(may_go_on));
            if is_kept {
                self.follow(walk, known, (stamp, led), &mut next)?;
                self.stand.states = self.stand.states.saturating_add(u64::from(may_go_on));
                progress.tell(self.stand);
            } else {
                self.is_whole = false;
            }
        }
        self.stand.level = self.stand.level.saturating_add(1);
        Ok(next)
    }

    // Returns the level before the first line.
    fn initial_level(&self, walk: &mut Walker) -> Result<Level, NoMemory>
        ensures level { IfOk result (λ level. IsLevel lanes breaks (state_stamp self.now.scope.told)
            self.now.scope.is_serial (initial_of walk.old) 0 true level.entries) }
        ensures initial { OnOk result (initial_of walk.new ≡ initial_of walk.old) }
    {
        walk.restart()?;
        let here = look(self.alloc, walk, self.scope)?;
        let (stamp, led) = here.into_entry(Items::new(self.alloc), 1);
        let mut level = IndexMap::new(self.alloc);
        add(&mut level, stamp, led)?;
        Ok(level)
    }

    // Follows orders from the initial state of a walk. Returns the level of the states after so
    // many lines.
    fn run<P: Progress>(
        &mut self,
        walk: &mut Walker,
        lines: usize,
        progress: &mut P,
    ) -> Result<Level, NoMemory>
        requires share { 1 ≤ self.old.share }
        requires met { self.old.met ≡ 0 }
        requires whole { self.old.is_whole ≡ true }
        ensures level { IfOk result (λ level. IsLevel lanes breaks (state_stamp self.old.scope.told)
            self.old.scope.is_serial (initial_of walk.old) lines self.new.is_whole level.entries) }
        ensures initial { OnOk result (initial_of walk.new ≡ initial_of walk.old) }
        ensures scope { OnOk result (self.new.scope ≡ self.old.scope) }
        ensures within { OnOk result (state_count lanes breaks (state_stamp self.old.scope.told)
            self.old.scope.is_serial (initial_of walk.old) lines ≤ self.old.limit →
            self.new.is_whole ≡ true) }
    {
        let mut level = self.initial_level(walk)?;
        let mut known = IndexMap::new(self.alloc);
        for _ in 0..lines {
            level = self.next(walk, &mut known, level, progress)?;
        }
        Ok(level)
    }

    // Counts the orders of a level for the endings that they lead to.
    fn tally(&self, walk: &mut Walker, level: Level, met: &mut Met) -> Result<(), NoMemory>
        ensures met { OnOk result (met.new.entries ≡ added_all are_same tally_joined met.old.entries
            (map (tallied lanes (parts_at self.now.scope.told) self.now.scope.is_serial (initial_of
            walk.old)) level.entries)) }
        ensures initial { OnOk result (initial_of walk.new ≡ initial_of walk.old) }
    {
        for (_, led) in level {
            go_to(walk, led.first.as_slice())?;
            let parts = Parts::new(walk.parts(self.scope.told)?);
            add(met, parts, Tally::new(led, self.scope.is_serial))?;
        }
        Ok(())
    }

    // Follows orders of at most so many lines from the initial state of a walk, and counts them for
    // the endings to which they lead. Returns whether it left out no state.
    fn count_orders<P: Progress>(
        mut self,
        walk: &mut Walker,
        lines: usize,
        met: &mut Met,
        progress: &mut P,
    ) -> Result<bool, NoMemory>
        requires share { 1 ≤ self.share }
        requires met { self.met ≡ 0 }
        requires whole { self.is_whole ≡ true }
        ensures told { IfOk result (λ is_whole. (es : List (List ℕ × Led)) × IsLevel lanes breaks
            (state_stamp self.scope.told) self.scope.is_serial (initial_of walk.old) lines is_whole
            es × (met.new.entries ≡ added_all are_same tally_joined met.old.entries (map (tallied
            lanes (parts_at self.scope.told) self.scope.is_serial (initial_of walk.old)) es))) }
        ensures initial { OnOk result (initial_of walk.new ≡ initial_of walk.old) }
        ensures within { IfOk result (λ is_whole. state_count lanes breaks (state_stamp
            self.scope.told) self.scope.is_serial (initial_of walk.old) lines ≤ self.limit →
            is_whole ≡ true) }
    {
        let level = self.run(walk, lines, progress)?;
        self.tally(walk, level, met)?;
        Ok(self.is_whole)
    }
}

// Returns the parts of the ending that the order as written leads to, if there is one.
fn parts_as_written(walk: &mut Walker, told: bool) -> Result<Option<Items<Record>>, NoMemory>
    ensures { IfOk result (λ parts. parts
        ≡ option_map (parts_at told) (as_written (initial_of walk.old))) }
{
    if go_as_written(walk)? {
        Ok(Some(walk.parts(told)?))
    } else {
        Ok(None)
    }
}

// Follows the orders from the initial state of a walker. `wanted` says whether endings have all
// that tasks were told, and how many states are followed.
fn explore<P: Progress>(
    alloc: Global,
    walk: &mut Walker,
    wanted: (bool, u64),
    progress: &mut P,
) -> Result<Report, NoMemory>
    ensures report { IfOk result (λ report. IsReport lanes (parts_at wanted.0) breaks
        (line_count (initial_of walk.old).plan) (initial_of walk.old) report) }
    ensures within { IfOk result (λ report. state_count lanes breaks (state_stamp wanted.0) false
        (initial_of walk.old) (line_count (initial_of walk.old).plan) ≤ wanted.1 →
        report.is_whole ≡ true) }
    ensures serial_within { IfOk result (λ report. state_count lanes breaks (state_stamp wanted.0)
        true (initial_of walk.old) (line_count (initial_of walk.old).plan) ≤ wanted.1 →
        report.has_all_serial ≡ true) }
    ensures written { IfOk result (λ report. report.written
        ≡ option_map (parts_at wanted.0) (as_written (initial_of walk.old))) }
{
    let (told, limit) = wanted;
    walk.restart()?;
    let lines = walk.line_count();
    let mut met = IndexMap::new(alloc);
    let every = Scope {
        is_serial: false,
        told,
    };
    let all = Search::new(alloc, every, limit, lines);
    let is_whole = all.count_orders(walk, lines, &mut met, progress)?;
    let serially = Scope {
        is_serial: true,
        told,
    };
    let serial = Search::new(alloc, serially, limit, lines);
    let has_all_serial = serial.count_orders(walk, lines, &mut met, progress)?;
    Ok(Report {
        endings: endings_of(alloc, met)?,
        is_whole,
        has_all_serial,
        written: parts_as_written(walk, told)?,
    })
}

/// A plan, and whether its endings have all that tasks were told.
#[derive(Drop)]
pub struct ToldPlan {
    /// The plan whose orders are followed.
    pub plan: Plan,
    /// Whether endings are told apart by what tasks were told, and not only by how each ended.
    pub told: bool,
}

/// Follows every order of a plan's lines. Returns the endings that they lead to.
///
/// States of one stamp are followed once, by the first order that leads there, and the number of
/// orders is kept. Each ending stands once, with the first order that leads to it, and how many
/// orders and serial orders do. Serial orders are followed by themselves. If all orders and all
/// serial orders were followed, the endings are those of all orders, in the order of their first
/// orders.
///
/// Once the levels have more than `limit` states in which a lane may give, each level is thinned
/// out. If that leaves out a state, the report isn't whole: its endings are those of some orders,
/// and numbers are lower bounds.
///
/// Tells `progress` how far the search is, after each state that is followed or taken over.
///
/// Errors: `NoMemory`, also if a definition of the plan has a fault.
///
/// Cost: at most O(states * lanes * lines) lines that are given, O(states * lanes) restarts, and as
/// many stamps. A state that a walk reached ahead takes no restart. A state in which no lane may
/// give is hashed again for each later level.
pub fn explore_script<P: Progress>(
    alloc: Global,
    told: ToldPlan,
    limit: u64,
    progress: &mut P,
) -> Result<Report, NoMemory>
    requires { is_proper told.plan ≡ true }
    ensures report { IfOk result (λ report. IsReport lanes (parts_at told.told) breaks
        (line_count told.plan) (initial_state told.plan) report) }
    ensures within { IfOk result (λ report. state_count lanes breaks (state_stamp told.told) false
        (initial_state told.plan) (line_count told.plan) ≤ limit → report.is_whole ≡ true) }
    ensures serial_within { IfOk result (λ report. state_count lanes breaks (state_stamp told.told)
        true (initial_state told.plan) (line_count told.plan) ≤ limit →
        report.has_all_serial ≡ true) }
    ensures written { IfOk result (λ report. report.written
        ≡ option_map (parts_at told.told) (as_written (initial_state told.plan))) }
{
    let with_told = told.told;
    let mut walk = Walker::new(alloc, told.plan)?;
    explore(alloc, &mut walk, (with_told, limit), progress)
}
