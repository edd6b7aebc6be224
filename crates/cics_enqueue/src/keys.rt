//! Table keys, each with its head: its first bytes, and how many it has.

ghost use Rattle.std.specs.Prelude.{◌≡◌, ◌≤◌, ◌+◌, ◌++◌, OnOk, OnErr, IfOk, [], length};
ghost use Rattle.cics_names.specs.Keyed.{bytes_cmp};
ghost use Rattle.cics_enqueue.specs.Keys.{head_of, long_of};

use cics_ksds::word_of;
use cics_names::NoMemory;
use std::alloc::Global;
use std::cmp::Ordering;
use std::marker::Model;

/// The most bytes of a table key: two, a file's name of eight and a key of 255.
pub const MOST_KEY_BYTES: usize = 265;

// The most bytes of a key that its head has.
const SHORT: usize = 23;

// How many bytes a key head has.
const HEAD: usize = 24;

// How many bytes are compared at a time.
const WORD: usize = 8;

// Returns the order of two key heads.
fn head_order(left: &[u8; HEAD], right: &[u8; HEAD]) -> Ordering
    ensures { result ≡ bytes_cmp left.now right.now }
{
    let (first, other_first) = (word_of(left), word_of(right));
    if first != other_first {
        return first.cmp(&other_first);
    }
    let (left, right) = (left.split_at(WORD).1, right.split_at(WORD).1);
    let (second, other_second) = (word_of(left), word_of(right));
    if second != other_second {
        return second.cmp(&other_second);
    }
    let (left, right) = (left.split_at(WORD).1, right.split_at(WORD).1);
    word_of(left).cmp(&word_of(right))
}

// Returns the head of the key of two parts.
fn head_of(front: &[u8], rest: &[u8]) -> [u8; HEAD]
    requires most { length front.now + length rest.now ≤ 265 }
    ensures { result ≡ head_of (front.now ++ rest.now) }
{
    let count = front.len() + rest.len();
    let middle = front.len().min(SHORT);
    let end = count.min(SHORT);
    let mut head = [0; HEAD];
    head[..middle].copy_from_slice(&front[..middle]);
    head[middle..end].copy_from_slice(&rest[..end - middle]);
    head[SHORT] = count.min(HEAD) as u8;
    head
}

/// A table key: the bytes of a resource. Up to 23 bytes are in the key itself, so a copy of such a
/// key takes no memory. `set` makes room for 265 bytes, however few it is given.
///
/// Heads tell nearly all keys apart. In a tree the head is in the node. The bytes of a key of more
/// than 23 are elsewhere.
pub struct Key {
    // The first 23 bytes, zeros for those that aren't there, and how many bytes there are, 24 for
    // more than 23. That number tells a key from one with zeros behind its bytes.
    head: [u8; HEAD],
    // All bytes if there are more than 23, else none. It keeps the room that it had.
    long: Vec<u8>,
}

// By hand: a derived drop is taken apart wherever a key is dropped.
impl Drop for Key {
    fn drop(self) {
        let Key {
            head: _head,
            long: _long,
        } = self;
    }
}

impl Model for Key {
    ghost use Rattle.std.specs.Prelude.{ℕ, List};
    ghost use Rattle.cics_enqueue.specs.Keys.{bytes_of, AreParts};

    ghost Value = { List ℕ };

    ghost view = { λ k. bytes_of k.head k.long.items };

    ghost invariant = { λ k. AreParts k.head k.long.items };
}

// Empties bytes and makes room in them for any key. Appends two parts if together they have more
// than 23 bytes. If memory is refused, the bytes stay empty.
fn refill(bytes: &mut Vec<u8>, front: &[u8], rest: &[u8]) -> Result<(), NoMemory>
    requires most { length front.now + length rest.now ≤ 265 }
    ensures filled { OnOk result (bytes.new.items ≡ long_of (front.now ++ rest.now)) }
    ensures err { OnErr result (bytes.new.items ≡ []) }
{
    bytes.clear();
    bytes.reserve(MOST_KEY_BYTES)?;
    if front.len() + rest.len() > SHORT {
        let _ = bytes.extend_from_slice(front);
        let _ = bytes.extend_from_slice(rest);
    }
    Ok(())
}

impl Key {
    /// Returns the key of no bytes.
    pub fn new(alloc: Global) -> Key
        ensures { result ≡ [] }
    {
        Key {
            head: [0; HEAD],
            long: Vec::new(alloc),
        }
    }

    /// Returns its bytes.
    pub fn as_slice(&self) -> &[u8]
        ensures { result.now ≡ self.now }
    {
        if self.long.is_empty() {
            &self.head[..usize::from(self.head[SHORT])]
        } else {
            self.long.as_slice()
        }
    }

    /// Returns a key of the same bytes. It takes no memory if there are at most 23.
    ///
    /// Errors: `NoMemory`.
    pub fn copy(&self, alloc: Global) -> Result<Key, NoMemory>
        ensures { IfOk result (λ copy. copy ≡ self.now) }
    {
        Ok(Key {
            head: self.head,
            long: Vec::from_slice(alloc, self.long.as_slice())?,
        })
    }

    /// Makes it the key of `front` and `rest`, one behind the other. Makes room for 265 bytes
    /// first.
    ///
    /// Errors: `NoMemory`. Then it is the key of no bytes.
    pub fn set(&mut self, front: &[u8], rest: &[u8]) -> Result<(), NoMemory>
        requires most { length front.now + length rest.now ≤ 265 }
        ensures set { OnOk result (self.new ≡ front.now ++ rest.now) }
        ensures err { OnErr result (self.new ≡ []) }
    {
        self.head = [0; HEAD];
        refill(&mut self.long, front, rest)?;
        self.head = head_of(front, rest);
        Ok(())
    }
}

impl PartialEq for Key {
    ghost use Rattle.std.specs.Prelude.{nat_eq};
    ghost use Rattle.std.specs.Cmp.{partial_equiv_from_equiv};
    ghost use Rattle.std.specs.Cmp.Lexicographic.{pointwise, nat_list_eq_equiv};

    ghost eq = { λ a b. pointwise nat_eq a b };

    ghost laws = { partial_equiv_from_equiv nat_list_eq_equiv };

    fn eq(&self, other: &Key) -> bool {
        self.as_slice() == other.as_slice()
    }
}

impl Eq for Key {
    ghost use Rattle.std.specs.Cmp.Lexicographic.{nat_list_eq_equiv};

    ghost laws = { nat_list_eq_equiv };
}

impl PartialOrd for Key {
    ghost use Rattle.std.specs.Prelude.{Some};
    ghost use Rattle.std.specs.Cmp.Lexicographic.{texts_po};
    ghost use Rattle.cics_names.specs.Keyed.{bytes_cmp};

    ghost partial_cmp = { λ a b. Some (bytes_cmp a b) };

    ghost laws = { texts_po };

    fn partial_cmp(&self, other: &Key) -> Option<Ordering> {
        Some(self.cmp(other))
    }
}

impl Ord for Key {
    ghost use Rattle.std.specs.Prelude.{refl};
    ghost use Rattle.std.specs.Cmp.Lexicographic.{nat_list_cmp_total, texts_ties};
    ghost use Rattle.cics_names.specs.Keyed.{bytes_cmp};

    ghost cmp = { λ a b. bytes_cmp a b };

    ghost total = { nat_list_cmp_total };

    ghost matches_partial_cmp = { λ a b. refl };

    ghost matches_eq = { λ a b. texts_ties a b };

    fn cmp(&self, other: &Key) -> Ordering {
        match head_order(&self.head, &other.head) {
            Ordering::Equal => self.long.as_slice().cmp(other.long.as_slice()),
            order => order,
        }
    }
}
