//! The table keys of resources, and look-ups of holdings by them.
//!
//! A table key is the kind of the resource, a byte, and its names and bytes. The name of a file
//! comes behind its length, 8.

ghost use Rattle.std.specs.Prelude.{◌≡◌, ◌≤◌, ◌+◌, ◌∷◌, ◌++◌, OnOk, [], length, option_map};
ghost use Rattle.std.specs.Option.{option_copied};
ghost use Rattle.std.specs.Map.{lookup};
ghost use Rattle.cics_names.specs.Keyed.{is_same};
ghost use Rattle.cics_enqueue.specs.Table.{resource_key};
ghost use Rattle.cics_enqueue.specs.Values.{value_in};

use crate::borrowed::{ResourceKind, ResourceRef};
use crate::enqueues::Holding;
use crate::{Key, MOST_KEY_BYTES};
use arrayvec::ArrayVec;
use cics_names::{Name4, Name8, NoMemory};
use std::collections::BTreeMap;

// The kind of a prefix of keys, which is the smallest, and that of a record of a file.
pub(crate) const PREFIX: u8 = 0;

pub(crate) const KEY: u8 = 1;

// The other kinds: a temporary storage queue, the two ends of a transient data queue, a user's
// value.
const TS_QUEUE: u8 = 2;

const TD_READ: u8 = 3;

const TD_WRITE: u8 = 4;

const VALUE: u8 = 5;

// Returns the bytes of the user's value of a table key, or None if it is of another kind.
pub(crate) fn value_in(key: &[u8]) -> Option<&[u8]>
    ensures { option_map (λ value. value.now) result ≡ value_in key.now }
{
    match key {
        [] => None,
        [kind, value @ ..] => { if *kind == VALUE { Some(value) } else { None } }
    }
}

// Adds bytes at the end of a table key that has room for them.
//
// It is filled in place: to return it would move all its bytes each time.
fn put(key: &mut ArrayVec<u8, MOST_KEY_BYTES>, bytes: &[u8])
    requires room { length key.old.items + length bytes.now ≤ 265 }
    ensures { key.new.items ≡ key.old.items ++ bytes.now }
{
    match key.try_extend_from_slice(bytes) {
        Ok(()) => {}
        Err(_) => unreachable!(),
    }
}

// Fills an empty table key with that of a record of a file or a prefix of keys, by the kind.
fn put_file(key: &mut ArrayVec<u8, MOST_KEY_BYTES>, kind: u8, file: &Name8, bytes: &[u8])
    requires empty { key.old.items ≡ [] }
    requires most { length bytes.now ≤ 255 }
    ensures { key.new.items ≡ kind ∷ length file.now ∷ (file.now ++ bytes.now) }
{
    put(key, &[kind, 8]);
    put(key, &file.bytes());
    put(key, bytes);
}

// Returns the table key of a record of a file or a prefix of keys, by the kind.
pub(crate) fn file_bytes(kind: u8, file: Name8, bytes: &[u8]) -> ArrayVec<u8, MOST_KEY_BYTES>
    requires most { length bytes.now ≤ 255 }
    ensures value { result.items ≡ kind ∷ length file ∷ (file ++ bytes.now) }
    ensures len { length result.items ≡ length bytes.now + 10 }
{
    let mut key = ArrayVec::new();
    put_file(&mut key, kind, &file, bytes);
    key
}

// Returns the table key of a temporary storage queue.
fn ts_bytes(queue: &Name8) -> [u8; 9]
    ensures { result ≡ 2 ∷ queue.now }
{
    let mut bytes = [TS_QUEUE; 9];
    bytes[1..].copy_from_slice(&queue.bytes());
    bytes
}

// Returns the table key of an end of a transient data queue, by the kind.
fn td_bytes(kind: u8, queue: &Name4) -> [u8; 5]
    ensures { result ≡ kind ∷ queue.now }
{
    let mut bytes = [kind; 5];
    bytes[1..].copy_from_slice(&queue.bytes());
    bytes
}

// Fills an empty table key with that of a resource.
fn put_resource(key: &mut ArrayVec<u8, MOST_KEY_BYTES>, resource: &ResourceRef<'_>)
    requires empty { key.old.items ≡ [] }
    ensures { key.new.items ≡ resource_key resource.now }
{
    match &resource.kind {
        ResourceKind::FileKey(file, bytes) => put_file(key, KEY, file, bytes),
        ResourceKind::TsQueue(queue) => put(key, &ts_bytes(queue)),
        ResourceKind::TdRead(queue) => put(key, &td_bytes(TD_READ, queue)),
        ResourceKind::TdWrite(queue) => put(key, &td_bytes(TD_WRITE, queue)),
        ResourceKind::User(value) => {
            put(key, &[VALUE]);
            put(key, value);
        }
        ResourceKind::FilePrefix(file, bytes) => put_file(key, PREFIX, file, bytes),
    }
}

// Returns the table key of a resource. It takes no memory, and is used if memory for a `Key` is
// refused.
pub(crate) fn compact(resource: &ResourceRef<'_>) -> ArrayVec<u8, MOST_KEY_BYTES>
    ensures { result.items ≡ resource_key resource.now }
{
    let mut key = ArrayVec::new();
    put_resource(&mut key, resource);
    key
}

// Returns the front of the table key of a record of a file or a prefix of keys: the kind, the
// length and the name.
fn file_front(kind: u8, file: &Name8) -> [u8; 10]
    ensures { result ≡ kind ∷ length file.now ∷ file.now }
{
    let mut front = [kind; 10];
    front[1] = 8;
    front[2..].copy_from_slice(&file.bytes());
    front
}

// Makes a `Key` that of a record of a file or a prefix of keys, by the kind.
pub(crate) fn set_file(key: &mut Key, kind: u8, file: &Name8, bytes: &[u8]) -> Result<(), NoMemory>
    requires most { length bytes.now ≤ 255 }
    ensures set { OnOk result (key.new ≡ kind ∷ length file.now ∷ (file.now ++ bytes.now)) }
{
    key.set(&file_front(kind, file), bytes)
}

// Makes a `Key` that of a user's value.
pub(crate) fn set_value(key: &mut Key, value: &[u8]) -> Result<(), NoMemory>
    requires most { length value.now ≤ 255 }
    ensures set { OnOk result (key.new ≡ 5 ∷ value.now) }
{
    key.set(&[VALUE], value)
}

// Makes a `Key` that of a resource.
pub(crate) fn set_resource(key: &mut Key, resource: &ResourceRef<'_>) -> Result<(), NoMemory>
    ensures set { OnOk result (key.new ≡ resource_key resource.now) }
{
    match &resource.kind {
        ResourceKind::FileKey(file, bytes) => set_file(key, KEY, file, bytes),
        ResourceKind::TsQueue(queue) => key.set(&ts_bytes(queue), &[]),
        ResourceKind::TdRead(queue) => key.set(&td_bytes(TD_READ, queue), &[]),
        ResourceKind::TdWrite(queue) => key.set(&td_bytes(TD_WRITE, queue), &[]),
        ResourceKind::User(value) => set_value(key, value),
        ResourceKind::FilePrefix(file, bytes) => set_file(key, PREFIX, file, bytes),
    }
}

// Returns the holding of a table key, found by going through the whole table. It is used if memory
// for a `Key` is refused. Cost: O(resources).
fn find_among<'t>(table: &'t BTreeMap<Key, Holding>, bytes: &[u8]) -> Option<&'t Holding>
    ensures { option_copied result ≡ lookup (is_same bytes.now) table.now.entries }
{
    for (key, holding) in table {
        if bytes == key.as_slice() {
            return Some(holding);
        }
    }
    None
}

// Returns the holding of a resource, found as `find_among` does.
#[inline(never)]
fn find_resource<'t>(
    table: &'t BTreeMap<Key, Holding>,
    resource: &ResourceRef<'_>,
) -> Option<&'t Holding>
    ensures { option_copied result
        ≡ lookup (is_same (resource_key resource.now)) table.now.entries }
{
    find_among(table, compact(resource).as_slice())
}

// Returns the holding of the table key with these bytes, if it has one. Fills `key` with them.
pub(crate) fn held_under<'t>(
    table: &'t BTreeMap<Key, Holding>,
    key: &mut Key,
    bytes: &[u8],
) -> Option<&'t Holding>
    requires most { length bytes.now ≤ 265 }
    ensures { option_copied result ≡ lookup (is_same bytes.now) table.now.entries }
{
    if table.is_empty() {
        return None;
    }
    match key.set(&[], bytes) {
        Ok(()) => table.get(&*key),
        Err(_) => find_among(table, bytes),
    }
}

// Returns the holding of a resource, if it is owned. Fills `key` with the resource's table key.
pub(crate) fn held<'t>(
    table: &'t BTreeMap<Key, Holding>,
    key: &mut Key,
    resource: &ResourceRef<'_>,
) -> Option<&'t Holding>
    ensures { option_copied result
        ≡ lookup (is_same (resource_key resource.now)) table.now.entries }
{
    if table.is_empty() {
        return None;
    }
    match set_resource(key, resource) {
        Ok(()) => table.get(&*key),
        Err(_) => find_resource(table, resource),
    }
}
