//! Lists that were made with room for all that they will ever hold, so that no edit takes memory.

ghost use Rattle.std.specs.Prelude.{◌≡◌, ◌+◌, ◌<◌, ◌≤◌, [], length, take, drop};
ghost use Rattle.std.specs.Prelude.{vec_len, vec_capacity};
ghost use Rattle.std.specs.List.{insert};

/// Inserts a value before the one at an index, or at the end, if there is room for it.
pub(crate) fn insert_reserved<T: Drop>(values: &mut Vec<T>, at: usize, value: T)
    requires in_range { at ≤ length values.old.items }
    requires room { vec_len values.old < vec_capacity values.old }
    ensures items { values.new.items ≡ insert values.old.items at value }
    ensures capacity { vec_capacity values.new ≡ vec_capacity values.old }
{
    let _ = values.insert(at, value);
}

/// Moves the values from an index on to a list that has none, and has room for them.
pub(crate) fn move_tail<T>(values: &mut Vec<T>, from: usize, tail: &mut Vec<T>)
    requires in_range { from ≤ length values.old.items }
    requires none { tail.old.items ≡ [] }
    requires room { length values.old.items ≤ from + vec_capacity tail.old }
    ensures head { values.new.items ≡ take from values.old.items }
    ensures tail { tail.new.items ≡ drop from values.old.items }
    ensures head_capacity { vec_capacity values.new ≡ vec_capacity values.old }
    ensures tail_capacity { vec_capacity tail.new ≡ vec_capacity tail.old }
{
    while values.len() > from {
        tail.push_reserved(values.take_last());
    }
    tail.reverse();
}
