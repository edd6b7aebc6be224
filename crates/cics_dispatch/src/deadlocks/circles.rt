//! The circles in which tasks of a graph wait for each other, and the tasks that are in deadlocks.

ghost use Rattle.std.specs.Prelude.{◌≡◌, ◌≤◌, ◌&&◌, length, IfOk, All};
ghost use Rattle.cics_dispatch.specs.Deadlocks.Searches.{circles, led_back};
ghost use Rattle.cics_dispatch.specs.Deadlocks.Marks.{is_least_by};

use crate::deadlocks::searches::{Found, search, way_back};
use cics_names::{Items, NoMemory};
use std::alloc::Global;

// Returns the marks of no search.
fn no_marks(alloc: Global, count: usize) -> Result<Vec<usize>, NoMemory>
    ensures len { IfOk result (λ marks. length marks.items ≡ count) }
    ensures none { IfOk result (λ marks. All (λ mark. mark ≤ 0) marks.items) }
{
    let mut marks = Vec::new(alloc);
    for _task in 0..count {
        marks.push(0)?;
    }
    Ok(marks)
}

// Returns whether of all tasks that lead to each other this one is the first. `found` is what the
// search from it has found, and `is_back` whether that led back to it.
//
// If a task leads back to itself, and to another one, that one leads to it exactly if searches from
// both find as much.
fn is_first(is_back: bool, found: &[Found], sizes: &[usize], first: usize) -> bool
    requires { first ≤ length sizes.now }
    ensures { result ≡ (is_back && is_least_by sizes.now first found.now) }
{
    if !is_back {
        return false;
    }
    for other in found {
        if other.task < first && sizes[other.task] == found.len() {
            return false;
        }
    }
    true
}

// Returns a circle of each deadlock of a graph. No search has marked any task.
fn circles_by(
    alloc: Global,
    graph: &[Items<usize>],
    marks: &mut [usize],
) -> Result<Items<Items<usize>>, NoMemory>
    requires len { length marks.old ≡ length graph.now }
    requires none { All (λ mark. mark ≤ 0) marks.old }
    ensures { IfOk result (λ found. found ≡ circles graph.now) }
{
    let mut all = Items::new(alloc);
    let mut found = Vec::new(alloc);
    let mut sizes = Vec::new(alloc);
    for first in 0..graph.len() {
        let is_back = search(&mut found, marks, graph, first)?;
        if is_first(is_back, found.as_slice(), sizes.as_slice(), first) {
            all.push(way_back(alloc, found.as_slice(), first)?)?;
        }
        sizes.push(found.len())?;
    }
    Ok(all)
}

/// Returns a circle of each deadlock of a graph, in the order of their first tasks.
///
/// `graph` has for each task, by its number, the numbers of the tasks that it waits for.
///
/// Cost: O(w * (w + s)) beside O(tasks), w the number of tasks that wait, s of steps.
pub fn circles(alloc: Global, graph: &[Items<usize>]) -> Result<Items<Items<usize>>, NoMemory>
    ensures { IfOk result (λ found. found ≡ circles graph.now) }
{
    let mut marks = no_marks(alloc, graph.len())?;
    circles_by(alloc, graph, marks.as_mut_slice())
}

/// Returns for each task of a graph whether it is in a deadlock: whether steps lead back to it.
///
/// Cost: that of `circles`.
pub fn in_deadlock(alloc: Global, graph: &[Items<usize>]) -> Result<Items<bool>, NoMemory>
    ensures { IfOk result (λ flags. flags ≡ led_back graph.now) }
{
    let mut flags = Items::new(alloc);
    let mut found = Vec::new(alloc);
    let mut marks = no_marks(alloc, graph.len())?;
    for first in 0..graph.len() {
        flags.push(search(&mut found, marks.as_mut_slice(), graph, first)?)?;
    }
    Ok(flags)
}
