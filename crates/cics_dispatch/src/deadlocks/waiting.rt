//! The deadlocks of a region.

ghost use Rattle.std.specs.Prelude.{◌≡◌, ◌↔◌, ℕ, List, Some, true, All, IfOk, slice_get};
ghost use Rattle.std.specs.List.{filter_map};
ghost use Rattle.cics_dispatch.specs.Machine.Blockers.{number_of};
ghost use Rattle.cics_dispatch.specs.Deadlocks.Circles.{Leads};
ghost use Rattle.cics_dispatch.specs.Deadlocks.Deadlocks.{blockers_at, waits_of, is_blocked};
ghost use Rattle.cics_dispatch.specs.Deadlocks.Deadlocks.{waiting_count, labels_of, deadlocks};
ghost use Rattle.cics_dispatch.specs.Deadlocks.Deadlocks.{in_deadlock, IsDeadlock, IsTold};

use crate::Region;
use crate::deadlocks::circles;
use cics_names::{Items, Name8, NoMemory};
use std::alloc::Global;

// Returns whether the task of a number waits for another one.
fn is_blocked(region: &Region, number: usize) -> bool
    ensures { result ≡ is_blocked region.now.machine number }
{
    match region.label_at(number) {
        Some(label) => region.blocker(&label).is_some(),
        None => false,
    }
}

/// Returns how many tasks of a region wait for another one.
///
/// Cost: O(tasks), and that of `Region::blocker` for each that waits.
pub fn waiting_count(region: &Region) -> usize
    ensures { result ≡ waiting_count region.now.machine }
{
    let mut count = 0;
    for number in 0..region.task_count() {
        if is_blocked(region, number) {
            count += 1;
        }
    }
    count
}

// Returns the numbers of tasks.
fn numbers_of(alloc: Global, region: &Region, labels: &[Name8]) -> Result<Items<usize>, NoMemory>
    ensures { IfOk result (λ numbers. numbers
        ≡ filter_map (number_of region.now.machine.tasks) labels.now) }
{
    let mut numbers = Items::new(alloc);
    for label in labels {
        if let Some(number) = region.number(label) {
            numbers.push(number)?;
        }
    }
    Ok(numbers)
}

// Returns the numbers of the tasks that block the task of a number now.
fn blockers_at(alloc: Global, region: &Region, number: usize) -> Result<Items<usize>, NoMemory>
    ensures { IfOk result (λ numbers. numbers ≡ blockers_at region.now.machine number) }
{
    let Some(label) = region.label_at(number) else {
        return Ok(Items::new(alloc));
    };
    let blockers = region.blockers(&label)?;
    numbers_of(alloc, region, blockers.as_slice())
}

// Returns for each task, by its number, the numbers of the tasks that block it now.
fn waits_of(alloc: Global, region: &Region) -> Result<Items<Items<usize>>, NoMemory>
    ensures { IfOk result (λ waits. waits ≡ waits_of region.now.machine) }
{
    let mut waits = Items::new(alloc);
    for number in 0..region.task_count() {
        waits.push(blockers_at(alloc, region, number)?)?;
    }
    Ok(waits)
}

// Returns the labels of tasks.
fn labels_of(alloc: Global, region: &Region, numbers: &[usize]) -> Result<Items<Name8>, NoMemory>
    ensures { IfOk result (λ labels. labels ≡ labels_of region.now.machine numbers.now) }
{
    let mut labels = Items::new(alloc);
    for number in numbers {
        if let Some(label) = region.label_at(*number) {
            labels.push(label)?;
        }
    }
    Ok(labels)
}

/// Returns one circle of each deadlock of a region, in the order of their first tasks.
///
/// Tasks that wait for each other, each directly or through others, are a deadlock. A circle is the
/// labels of some of them: each task waits for the next one, the last for the first. It begins with
/// the task of the deadlock that was attached first, and is the shortest from there.
///
/// - `each`: what is returned are such circles.
/// - `all`: each deadlock has one.
///
/// Errors: `NoMemory`. Cost: O(w * (w + s)) beside O(tasks), w the number of waiting tasks, s that
/// of their blockers; and that of `Region::blockers` for each of them.
pub fn deadlocks(alloc: Global, region: &Region) -> Result<Items<Items<Name8>>, NoMemory>
    ensures deadlocks { IfOk result (λ found. found ≡ deadlocks region.now.machine) }
    ensures each { IfOk result (All (IsDeadlock region.now.machine)) }
    ensures all { IfOk result (λ found. (task : ℕ)
        → Leads (blockers_at region.now.machine) task task
        → IsTold region.now.machine found task) }
{
    let waits = waits_of(alloc, region)?;
    let circles = circles::circles(alloc, waits.as_slice())?;
    let mut all = Items::new(alloc);
    for circle in circles.as_slice() {
        all.push(labels_of(alloc, region, circle.as_slice())?)?;
    }
    Ok(all)
}

/// Returns for each task of a region, by its number, whether it is in a deadlock: it waits for
/// itself through others. A task that only waits for one of a deadlock is in none.
///
/// Errors: `NoMemory`. Cost: that of `deadlocks`.
pub fn in_deadlock(alloc: Global, region: &Region) -> Result<Items<bool>, NoMemory>
    ensures flags { IfOk result (λ flags. flags ≡ in_deadlock region.now.machine) }
    ensures each { IfOk result (λ flags. (task : ℕ) → (slice_get flags task ≡ Some true)
        ↔ Leads (blockers_at region.now.machine) task task) }
{
    let waits = waits_of(alloc, region)?;
    circles::in_deadlock(alloc, waits.as_slice())
}
