//! A row of keys that finds the first key below a limit.

ghost use Rattle.std.specs.Prelude.{◌≡◌, ◌<◌, ◌≤◌, ◌*◌, ℕ, List, [], ◌∷◌, ◌++◌, Some, length};
ghost use Rattle.std.specs.Prelude.{slice_get, slice_set, vec_len, vec_capacity};
ghost use Rattle.std.specs.Prelude.{All, OnOk, OnErr, MatchOption};
ghost use Rattle.cics_dispatch.specs.Notes.Firsts.{lesser_of_pairs, last_of, level_at, AreAbove, HaveRoom};
ghost use Rattle.cics_dispatch.specs.Notes.Firsts.{IsFirstBelow};

use cics_names::NoMemory;
use std::alloc::Global;
use std::marker::Model;

/// A row of keys, each a number.
///
/// Cost: O(log keys) to find the first key below a limit, to add a key, and to replace one.
#[derive(Drop)]
pub(crate) struct Firsts {
    keys: Vec<u64>,
    // Levels above the keys: each has the lesser key of each pair of the level below it, the first
    // those of the keys. The last has at most two keys. So there are O(log n) levels, for n the
    // most keys that there were.
    above: Vec<Vec<u64>>,
}

impl Model for Firsts {
    ghost use Rattle.std.specs.Prelude.{List, ℕ};
    ghost use Rattle.cics_dispatch.specs.Notes.Firsts.{AreAbove};

    ghost Value = { List ℕ };

    ghost view = { λ f. f.keys.items };

    ghost invariant = { λ f. AreAbove f.keys.items f.above.items };
}

// Returns the lesser key of a pair, or its one key if the level ends within the pair.
fn lesser(level: &[u64], pair: usize) -> u64
    requires { pair * 2 < length level.now }
    ensures { slice_get (lesser_of_pairs level.now) pair ≡ Some result }
{
    let at = pair * 2;
    if at + 1 < level.len() {
        level[at].min(level[at + 1])
    } else {
        level[at]
    }
}

// Replaces a key of a level, and with it the lesser keys in the levels above. Stops at the first of
// these that stays: all above it stays too.
fn set(level: &mut Vec<u64>, above: &mut [Vec<u64>], at: usize, key: u64)
    requires within { at < length level.old.items }
    requires above { AreAbove level.old.items above.old }
    ensures keys { level.new.items ≡ slice_set level.old.items at key }
    ensures above { AreAbove level.new.items above.new }
{
    if level[at] == key {
        return;
    }
    level[at] = key;
    if above.is_empty() {
        return;
    }
    let least = lesser(level.as_slice(), at / 2);
    let (next, rest) = above.split_at_mut(1);
    set(&mut next[0], rest, at / 2, least);
}

// Adds a key to a level, last of all, and its lesser keys to the levels above. Each has room.
fn append(level: &mut Vec<u64>, above: &mut [Vec<u64>], key: u64)
    requires room { vec_len level.old < vec_capacity level.old }
    requires rooms { HaveRoom above.old }
    requires above { AreAbove level.old.items above.old }
    ensures keys { level.new.items ≡ level.old.items ++ key ∷ [] }
    ensures above { AreAbove level.new.items above.new }
{
    let at = level.len();
    level.push_reserved(key);
    if above.is_empty() {
        return;
    }
    let least = lesser(level.as_slice(), at / 2);
    let (next, rest) = above.split_at_mut(1);
    if at % 2 == 0 {
        append(&mut next[0], rest, least);
    } else {
        set(&mut next[0], rest, at / 2, least);
    }
}

// Returns the last of the levels, or the keys if there is none.
fn last_level<'a>(keys: &'a [u64], above: &'a [Vec<u64>]) -> &'a [u64]
    ensures { result.now ≡ last_of keys.now above.now }
{
    match above.last() {
        Some(level) => level.as_slice(),
        None => keys,
    }
}

// Returns the level that stands `place` levels above the keys, for 0 the keys themselves.
fn level_at<'a>(keys: &'a [u64], above: &'a [Vec<u64>], place: usize) -> &'a [u64]
    requires { place ≤ length above.now }
    ensures { result.now ≡ level_at keys.now above.now place }
{
    if place == 0 {
        keys
    } else {
        above[place - 1].as_slice()
    }
}

// Adds a level of one key above the last level, if that has two. On error the levels stay.
fn raise(keys: &Vec<u64>, above: &mut Vec<Vec<u64>>) -> Result<(), NoMemory>
    requires { AreAbove keys.now.items above.old.items }
    ensures { AreAbove keys.now.items above.new.items }
{
    let last = last_level(keys.as_slice(), above.as_slice());
    if last.len() != 2 {
        return Ok(());
    }
    let least = lesser(last, 0);
    let mut level = Vec::new(*keys.allocator());
    level.push(least)?;
    above.push(level)?;
    Ok(())
}

// Makes room for one more key at each level above the keys. The keys stay, also on error.
fn make_room_above(levels: &mut [Vec<u64>]) -> Result<(), NoMemory>
    ensures ok { OnOk result (HaveRoom levels.new) }
    ensures above { (keys : List ℕ) → AreAbove keys levels.old → AreAbove keys levels.new }
{
    if levels.is_empty() {
        return Ok(());
    }
    let (level, above) = levels.split_at_mut(1);
    level[0].reserve(1)?;
    make_room_above(above)
}

// Makes room for one more key at each level. First adds a level of one key above the last level, if
// that has two. The keys stay, also on error.
fn make_room(keys: &mut Vec<u64>, above: &mut Vec<Vec<u64>>) -> Result<(), NoMemory>
    requires { AreAbove keys.old.items above.old.items }
    ensures room { OnOk result (vec_len keys.new < vec_capacity keys.new) }
    ensures rooms { OnOk result (HaveRoom above.new.items) }
    ensures same { keys.new.items ≡ keys.old.items }
    ensures above { AreAbove keys.new.items above.new.items }
{
    raise(keys, above)?;
    keys.reserve(1)?;
    make_room_above(above.as_mut_slice())
}

// Removes the keys of all levels, and keeps their room.
fn clear_all(levels: &mut [Vec<u64>])
    ensures { AreAbove [] levels.new }
{
    if levels.is_empty() {
        return;
    }
    let (level, above) = levels.split_at_mut(1);
    level[0].clear();
    clear_all(above);
}

// Returns the index of the first key below a limit. `pair` is the first pair whose lesser key is
// below it.
fn first_of_pair(level: &[u64], pair: usize, limit: u64) -> usize
    requires { IsFirstBelow (lesser_of_pairs level.now) limit pair }
    ensures { IsFirstBelow level.now limit result }
{
    let at = pair * 2;
    if level[at] < limit { at } else { at + 1 }
}

// Returns the index of the first key of a level that is below a limit, if there is one. Cost:
// O(keys of the level).
fn first_in(level: &[u64], limit: u64) -> Option<usize>
    ensures { MatchOption result
        (All (λ key. limit ≤ key) level.now) (λ at. IsFirstBelow level.now limit at) }
{
    level.iter().position(|key| *key < limit)
}

// Returns the index of the first key below a limit, if there is one. Finds it in the last level,
// then looks at one pair in each level below. If there is none, reads only the last level.
fn first_below(keys: &[u64], above: &[Vec<u64>], limit: u64) -> Option<usize>
    requires { AreAbove keys.now above.now }
    ensures { MatchOption result
        (All (λ key. limit ≤ key) keys.now) (λ at. IsFirstBelow keys.now limit at) }
{
    let last = last_level(keys, above);
    let mut at = first_in(last, limit)?;
    let mut left = above.len();
    while left > 0 {
        left -= 1;
        at = first_of_pair(level_at(keys, above, left), at, limit);
    }
    Some(at)
}

/// Adds a key to each of two rows, last of all. On error both rows stay as they are.
pub(crate) fn push_each(
    first: &mut Firsts,
    first_key: u64,
    second: &mut Firsts,
    second_key: u64,
) -> Result<(), NoMemory>
    ensures ok { OnOk result ((first.new ≡ first.old ++ first_key ∷ [])
        × (second.new ≡ second.old ++ second_key ∷ [])) }
    ensures err { OnErr result ((first.new ≡ first.old) × (second.new ≡ second.old)) }
{
    make_room(&mut first.keys, &mut first.above)?;
    make_room(&mut second.keys, &mut second.above)?;
    append(&mut first.keys, first.above.as_mut_slice(), first_key);
    append(&mut second.keys, second.above.as_mut_slice(), second_key);
    Ok(())
}

impl Firsts {
    /// Returns a row without keys. `alloc` gives the memory for those to come.
    pub(crate) fn new(alloc: Global) -> Firsts
        ensures { result ≡ [] }
    {
        Firsts {
            keys: Vec::new(alloc),
            above: Vec::new(alloc),
        }
    }

    /// Replaces the key at an index. Takes no memory.
    pub(crate) fn set(&mut self, at: usize, key: u64)
        requires { at < length self.old }
        ensures { self.new ≡ slice_set self.old at key }
    {
        set(&mut self.keys, self.above.as_mut_slice(), at, key);
    }

    /// Returns the index of the first key below a limit, if there is one.
    pub(crate) fn first_below(&self, limit: u64) -> Option<usize>
        ensures { MatchOption result
            (All (λ key. limit ≤ key) self.now) (λ at. IsFirstBelow self.now limit at) }
    {
        first_below(self.keys.as_slice(), self.above.as_slice(), limit)
    }

    /// Removes all keys, and keeps their room. Takes no memory.
    pub(crate) fn clear(&mut self)
        ensures { self.new ≡ [] }
    {
        self.keys.clear();
        clear_all(self.above.as_mut_slice());
    }
}
