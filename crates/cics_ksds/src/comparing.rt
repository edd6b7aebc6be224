//! The order of keys, by which the slots of a file stand.

ghost use Rattle.std.specs.Prelude.{◌≡◌, ◌≤◌, length, take};
ghost use Rattle.std.specs.Ordering.{nat_cmp, ordering_then};
ghost use Rattle.cics_names.specs.Keyed.{bytes_cmp};
ghost use Rattle.cics_ksds.specs.Words.{number, AreBytes, AreNumbers};

use std::cmp::Ordering;

/// How many bytes are compared as one number.
pub(crate) const WORD: usize = 8;

/// Returns the first eight bytes of a key as a number, whose highest digit is the first of them.
/// Two numbers have the order of the bytes.
pub fn word_of(key: &[u8]) -> u64
    requires { 8 ≤ length key.now }
    ensures value { result ≡ number 0 (take 8 key.now) }
    ensures bytes { AreBytes 8 key.now }
{
    u64::from_be_bytes([
        key[0], key[1], key[2], key[3], key[4], key[5], key[6], key[7],
    ])
}

/// The first 16 bytes of a key as two numbers. Keys of the same length are compared by these,
/// without their bytes.
///
/// If a key has fewer than 16 bytes, the second number is that of its last eight. Bytes that it
/// shares with the first don't change the order of keys with equal first numbers.
#[derive(Clone, Copy)]
pub(crate) struct Numbers {
    /// The first eight bytes.
    pub(crate) first: u64,
    /// The next eight bytes, or the last eight of a key with fewer than 16.
    pub(crate) second: u64,
}

impl Numbers {
    /// How many bytes of a key the two numbers hold.
    pub(crate) const BYTES: usize = 16;

    /// Returns the numbers of a key that has eight bytes.
    pub(crate) fn of(key: &[u8]) -> Numbers
        requires { 8 ≤ length key.now }
        ensures { AreNumbers key.now result }
    {
        let common = Numbers::BYTES.saturating_sub(key.len());
        Numbers {
            first: word_of(key),
            second: word_of(key.split_at(WORD - common).1),
        }
    }

    /// Returns the order of the first numbers, or if those are equal, that of the second.
    pub(crate) fn order(self, other: Numbers) -> Ordering
        ensures { result ≡ ordering_then (nat_cmp self.first other.first)
            (nat_cmp self.second other.second) }
    {
        if self.first == other.first {
            self.second.cmp(&other.second)
        } else {
            self.first.cmp(&other.first)
        }
    }
}

/// Returns the order of two keys: that of the first bytes that differ, unsigned, or else of their
/// lengths.
///
/// If both have eight bytes, the first eight are compared as one number, which has the order of the
/// bytes. If they have the same length, their order is most often that of their numbers.
pub(crate) fn order_of(left: &[u8], right: &[u8]) -> Ordering
    ensures { result ≡ bytes_cmp left.now right.now }
{
    if left.len() < WORD || right.len() < WORD {
        return left.cmp(right);
    }
    let (x, y) = (word_of(left), word_of(right));
    if x != y {
        return x.cmp(&y);
    }
    if left.len() != right.len() {
        return left.cmp(right);
    }
    let order = Numbers::of(left).order(Numbers::of(right));
    if left.len() > Numbers::BYTES && order.is_eq() {
        left.cmp(right)
    } else {
        order
    }
}
