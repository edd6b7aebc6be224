//! Searches in a graph of tasks, in which a step leads from each task to those that it waits for.
//!
//! A search has a number of its own, one more than the task's at which it begins. It marks with it
//! the tasks that it finds.

ghost use Rattle.std.specs.Prelude.{◌≡◌, ◌<◌, ◌≤◌, ◌+◌, length, All, OnOk, IfOk};
ghost use Rattle.cics_dispatch.specs.Deadlocks.Searches.{with_step, with_steps, search, leads};
ghost use Rattle.cics_dispatch.specs.Deadlocks.Searches.{index_of, task_at, from_at, led_to};
ghost use Rattle.cics_dispatch.specs.Deadlocks.Searches.{way_among, steps};
ghost use Rattle.cics_dispatch.specs.Deadlocks.Marks.{AreMarks};

use cics_names::{Items, NoMemory};
use std::alloc::Global;

// A task that a search has found, and the index of the found task from which a step led there.
#[derive(Clone, Copy)]
pub(crate) struct Found {
    pub(crate) task: usize,
    pub(crate) from: usize,
}

// The steps from the found task at an index.
#[derive(Clone, Copy)]
struct Next<'a> {
    from: usize,
    steps: &'a [usize],
}

// Adds a task to which a step leads, unless the search has found it before.
fn add_step(
    found: &mut Vec<Found>,
    marks: &mut [usize],
    own: usize,
    next: Found,
) -> Result<(), NoMemory>
    requires { AreMarks marks.old own found.old.items }
    ensures found { OnOk result (found.new.items
        ≡ with_step (length marks.old) next.from found.old.items next.task) }
    ensures marks { OnOk result (AreMarks marks.new own found.new.items) }
{
    if next.task >= marks.len() || marks[next.task] == own {
        return Ok(());
    }
    found.push(next)?;
    marks[next.task] = own;
    Ok(())
}

// Adds the tasks to which steps lead.
fn add_steps(
    found: &mut Vec<Found>,
    marks: &mut [usize],
    own: usize,
    next: &Next<'_>,
) -> Result<(), NoMemory>
    requires { AreMarks marks.old own found.old.items }
    ensures found { OnOk result (found.new.items
        ≡ with_steps (length marks.old) next.now.from found.old.items next.now.steps.now) }
    ensures marks { OnOk result (AreMarks marks.new own found.new.items) }
{
    let from = next.from;
    for task in next.steps {
        add_step(found, marks, own, Found { task: *task, from })?;
    }
    Ok(())
}

// Returns the tasks to which one step leads.
fn steps(graph: &[Items<usize>], task: usize) -> &[usize]
    ensures { result.now ≡ steps graph.now task }
{
    match graph.get(task) {
        Some(steps) => steps.as_slice(),
        None => &[],
    }
}

// Searches a graph from a task, and returns whether steps lead back to it. What is found replaces
// `found`. Cost: O(tasks found + steps from them).
pub(crate) fn search(
    found: &mut Vec<Found>,
    marks: &mut [usize],
    graph: &[Items<usize>],
    first: usize,
) -> Result<bool, NoMemory>
    requires first { first < length graph.now }
    requires len { length marks.old ≡ length graph.now }
    requires most { All (λ mark. mark ≤ first) marks.old }
    ensures found { OnOk result (found.new.items ≡ search graph.now first) }
    ensures most { OnOk result (All (λ mark. mark ≤ first + 1) marks.new) }
    ensures back { IfOk result (λ back. back ≡ leads graph.now first first) }
{
    found.clear();
    found.push(Found {
        task: first,
        from: 0,
    })?;
    let own = first + 1;
    for at in 0..graph.len() + 1 {
        let Some(reached) = found.get(at) else {
            return Ok(marks[first] == own);
        };
        let next = Next {
            from: at,
            steps: steps(graph, reached.task),
        };
        add_steps(found, marks, own, &next)?;
    }
    Ok(marks[first] == own)
}

// Returns the index at which a task was found.
fn index_of(found: &[Found], task: usize) -> usize
    ensures { result ≡ index_of found.now task }
{
    if found.is_empty() {
        return 0;
    }
    for at in 1..found.len() {
        if found[at].task == task {
            return at;
        }
    }
    found.len()
}

// Returns the task at an index.
fn task_at(found: &[Found], at: usize) -> usize
    ensures { result ≡ task_at found.now at }
{
    match found.get(at) {
        Some(found) => found.task,
        None => 0,
    }
}

// Returns the index from which the task at an index was found.
fn from_at(found: &[Found], at: usize) -> usize
    ensures { result ≡ from_at found.now at }
{
    match found.get(at) {
        Some(found) => found.from,
        None => 0,
    }
}

// Returns the tasks from which steps led to the one at an index, last to first.
fn led_to(alloc: Global, found: &[Found], index: usize) -> Result<Vec<usize>, NoMemory>
    ensures { IfOk result (λ tasks. tasks.items ≡ led_to found.now index index) }
{
    let mut tasks = Vec::new(alloc);
    let mut at = index;
    for _step in 0..index {
        if at == 0 {
            return Ok(tasks);
        }
        at = from_at(found, at);
        tasks.push(task_at(found, at))?;
    }
    Ok(tasks)
}

// Returns the way back to a task, by what the search from it has found.
pub(crate) fn way_back(
    alloc: Global,
    found: &[Found],
    first: usize,
) -> Result<Items<usize>, NoMemory>
    ensures { IfOk result (λ way. way ≡ way_among found.now first) }
{
    let mut way = led_to(alloc, found, index_of(found, first))?;
    way.reverse();
    Ok(Items::from_vec(way))
}
