//! The checks of a command, before it looks at what other units own.

ghost use Rattle.std.specs.Prelude.{◌≡◌, true, false, Some, None, IfOk, IfErr, IsTrue};
ghost use Rattle.std.specs.Prelude.{if◌then◌else◌};
ghost use Rattle.std.specs.Option.{option_copied};
ghost use Rattle.cics_ksds.specs.Files.{fits_file};
ghost use Rattle.cics_dispatch.specs.Machine.Lengths.{unless, is_length_given, key_reason};
ghost use Rattle.cics_dispatch.specs.Machine.Lengths.{is_within, used_of, from_reason};
ghost use Rattle.cics_dispatch.specs.Machine.Lengths.{written_reason};
ghost use Rattle.cics_dispatch.specs.Machine.Checks.{read_reason, rewrite_reason};
ghost use Rattle.cics_dispatch.specs.Machine.Checks.{deleted_key_reason, deleted_read_reason};
ghost use Rattle.cics_dispatch.specs.Machine.Checks.{browsing_reason, file_reason};
ghost use Rattle.cics_dispatch.specs.Machine.Checks.{item_reason, resource_reason, value_reason};

use crate::machine::reasons::Reason;
use cics_browse::Browse;
use cics_ksds::FileDef;
use cics_names::Verb;

// Returns the reason of a check unless it passes.
fn unless(passes: bool, reason: Reason) -> Option<Reason>
    ensures { result ≡ unless passes reason }
{
    if passes { None } else { Some(reason) }
}

// Returns whether KEYLENGTH, if it is given, is the length of the key as written.
fn is_length_given(given: Option<u64>, length: u64) -> bool
    ensures { result ≡ is_length_given given length }
{
    match given {
        Some(given) => given == length,
        None => true,
    }
}

// Returns the first check that fails of a key: that KEYLENGTH is its length, and that it is as long
// as the file's keys. A GENERIC key may be shorter.
fn key_reason(definition: FileDef, key: &[u8], given: Option<u64>, generic: bool) -> Option<Reason>
    ensures { result ≡ key_reason definition key.now given generic }
{
    let length = key.len() as u64;
    if !is_length_given(given, length) {
        return Some(Reason::KeyLengthDiffers);
    }
    if generic {
        unless(length <= definition.key_length, Reason::PrefixTooLong)
    } else {
        unless(length == definition.key_length, Reason::KeySize)
    }
}

// Returns the bytes of FROM that LENGTH uses. `None` if LENGTH isn't from 1 to their count.
fn used(from: &[u8], length: Option<u64>) -> Option<&[u8]>
    ensures { option_copied result
        ≡ (if is_within from.now length then Some (used_of from.now length) else None) }
{
    match length {
        None => Some(from),
        Some(length) => {
            if 1 <= length && length <= from.len() as u64 {
                Some(&from[..length as usize])
            } else {
                None
            }
        }
    }
}

// Returns the record that is written: the bytes of FROM that LENGTH uses.
//
// Errors: the first check that fails, of LENGTH and of the length of the record.
fn record_of(definition: FileDef, from: &[u8], length: Option<u64>) -> Result<&[u8], Reason>
    ensures content { IfOk result (λ content. content.now ≡ used_of from.now length) }
    ensures fits { IfOk result (λ content. IsTrue (fits_file definition content.now)) }
    ensures passes { IfOk result (λ _. from_reason definition from.now length ≡ None) }
    ensures reason { IfErr result (λ reason. from_reason definition from.now length
        ≡ Some reason) }
{
    let Some(content) = used(from, length) else {
        return Err(Reason::LengthNotInFrom);
    };
    if definition.fits(content) {
        Ok(content)
    } else if content.len() as u64 <= definition.record_size {
        Err(Reason::RecordTooShort)
    } else {
        Err(Reason::RecordTooLong)
    }
}

// Returns the first check that fails of a REWRITE: of its record, that an update read is open, and
// that the record has its key.
fn rewrite_reason(
    definition: FileDef,
    open_key: Option<&[u8]>,
    from: &[u8],
    length: Option<u64>,
) -> Option<Reason>
    ensures { result ≡ rewrite_reason definition (option_copied open_key.entry) from.now length }
{
    let content = match record_of(definition, from, length) {
        Ok(content) => content,
        Err(reason) => return Some(reason),
    };
    match open_key {
        Some(key) => unless(
            definition.key_in(content).cmp(key).is_eq(),
            Reason::KeyIsNotRead,
        ),
        None => Some(Reason::NoUpdateRead),
    }
}

// Returns the first check that fails of a WRITE whose RIDFLD has the right length: of its record,
// and that the record has its key.
fn written_reason(
    definition: FileDef,
    key: &[u8],
    from: &[u8],
    length: Option<u64>,
) -> Option<Reason>
    ensures { result ≡ written_reason definition key.now from.now length }
{
    match record_of(definition, from, length) {
        Ok(content) => unless(
            definition.key_in(content).cmp(key).is_eq(),
            Reason::KeyIsNotRidfld,
        ),
        Err(reason) => Some(reason),
    }
}

// Returns the first check that fails of a READ UPDATE of a full key: of its key, and that no update
// read of the file is open.
fn update_reason(
    definition: FileDef,
    open_key: Option<&[u8]>,
    key: &[u8],
    given: Option<u64>,
) -> Option<Reason>
    ensures { result ≡ read_reason definition (option_copied open_key.entry) key.now given
        false false true }
{
    match key_reason(definition, key, given, false) {
        Some(reason) => Some(reason),
        None => unless(open_key.is_none(), Reason::UpdateReadOpen),
    }
}

// Returns the first check that fails of a DELETE with RIDFLD: of its key, which with GENERIC is at
// least one byte.
fn deleted_key_reason(
    definition: FileDef,
    key: &[u8],
    given: Option<u64>,
    generic: bool,
) -> Option<Reason>
    ensures { result ≡ deleted_key_reason definition key.now given generic }
{
    match key_reason(definition, key, given, generic) {
        Some(reason) => Some(reason),
        None => unless(1 <= key.len() || !generic, Reason::PrefixEmpty),
    }
}

// Returns the first check that fails of a DELETE without RIDFLD: that it has neither KEYLENGTH nor
// GENERIC, and that an update read is open.
fn deleted_read_reason(open_key: Option<&[u8]>, given: Option<u64>, generic: bool) -> Option<Reason>
    ensures { result ≡ deleted_read_reason (option_copied open_key.entry) given generic }
{
    if given.is_none() && !generic {
        unless(open_key.is_some(), Reason::NoUpdateRead)
    } else {
        Some(Reason::NoRidfld)
    }
}

// Returns the first check that fails of a command of a browse. `None` for every other command.
fn browsing_reason(definition: FileDef, browse: Option<&Browse>, verb: &Verb) -> Option<Reason>
    ensures { result ≡ browsing_reason definition (option_copied browse.entry) verb.now }
{
    match verb {
        Verb::StartBr {
            ridfld,
            key_length,
            generic,
            ..
        } => match key_reason(definition, ridfld.bytes(), *key_length, *generic) {
            Some(reason) => Some(reason),
            None => unless(browse.is_none(), Reason::BrowseOpen),
        },
        Verb::ResetBr {
            ridfld,
            key_length,
            generic,
            ..
        } => match key_reason(definition, ridfld.bytes(), *key_length, *generic) {
            Some(reason) => Some(reason),
            None => unless(browse.is_some(), Reason::NoBrowse),
        },
        Verb::ReadNext { .. } | Verb::EndBr { .. } => unless(browse.is_some(), Reason::NoBrowse),
        Verb::ReadPrev { .. } => match browse {
            Some(browse) => unless(!browse.is_generic(), Reason::BrowseIsGeneric),
            None => Some(Reason::NoBrowse),
        },
        _ => None,
    }
}

/// Returns the first check that fails of a command on a defined file, if one does.
///
/// `open_key` is the key of the task's open update read of the file, and `browse` its browse of it,
/// each `None` if there is none.
///
/// The checks come in this order: the key's options and length, the length of FROM, the open update
/// read and the browse, the key in the record.
pub fn file_reason(
    definition: FileDef,
    open_key: Option<&[u8]>,
    browse: Option<&Browse>,
    verb: &Verb,
) -> Option<Reason>
    ensures { result ≡ file_reason definition (option_copied open_key.entry)
        (option_copied browse.entry) verb.now }
{
    match verb {
        Verb::Read {
            ridfld,
            key_length,
            generic,
            gteq,
            update,
            ..
        } => match *update {
            false => key_reason(definition, ridfld.bytes(), *key_length, *generic),
            true if *gteq || *generic => Some(Reason::UpdateNotByKey),
            true => update_reason(definition, open_key, ridfld.bytes(), *key_length),
        },
        Verb::Write {
            ridfld,
            key_length,
            from,
            length,
            ..
        } => match key_reason(definition, ridfld.bytes(), *key_length, false) {
            Some(reason) => Some(reason),
            None => written_reason(definition, ridfld.bytes(), from.bytes(), *length),
        },
        Verb::Rewrite { from, length, .. } => {
            rewrite_reason(definition, open_key, from.bytes(), *length)
        }
        Verb::Delete {
            ridfld,
            key_length,
            generic,
            ..
        } => match ridfld {
            Some(key) => deleted_key_reason(definition, key.bytes(), *key_length, *generic),
            None => deleted_read_reason(open_key, *key_length, *generic),
        },
        _ => browsing_reason(definition, browse, verb),
    }
}

/// Returns the first check that fails of a WRITEQ: that LENGTH is from 1 to the length of FROM, and
/// that its item or record has 1 to 32,767 bytes.
pub fn item_reason(from: &[u8], length: Option<u64>) -> Option<Reason>
    ensures { result ≡ item_reason from.now length }
{
    match used(from, length) {
        Some(content) => unless(
            1 <= content.len() && content.len() <= 32_767,
            Reason::ItemSize,
        ),
        None => Some(Reason::LengthNotInFrom),
    }
}

// Returns the first check that fails of an ENQ or DEQ: that LENGTH is from 1 to 255, and not above
// the length of the value as written.
fn resource_reason(value: &[u8], length: u64) -> Option<Reason>
    ensures { result ≡ resource_reason value.now length }
{
    if 1 <= length && length <= 255 {
        unless(length <= value.len() as u64, Reason::ValueTooShort)
    } else {
        Some(Reason::ValueSize)
    }
}

/// Returns the first check that fails of an ENQ or DEQ. `None` for every other command.
pub fn value_reason(verb: &Verb) -> Option<Reason>
    ensures { result ≡ value_reason verb.now }
{
    match verb {
        Verb::Enq {
            resource,
            length,
            ..
        }
        | Verb::Deq { resource, length } => resource_reason(resource.bytes(), *length),
        _ => None,
    }
}
