//! Entries: a field and a key as bytes, in the order of the fields, then of the keys.

ghost use Rattle.std.specs.Prelude.{◌≡◌, ◌⊎◌, ◌<◌, ◌≤◌, ◌^◌, ◌++◌, length, IfErr, IfOk, IsOkUnless, OnOk};
ghost use Rattle.std.specs.Option.{option_map};
ghost use Rattle.fjall_base.specs.declared.error.Error.TheVariants.{KeyTooLong, OutOfMemory};
ghost use Rattle.fjall_index_entries.specs.Entries.{entry, escaped, key_behind, range_of};

use fjall_base::{Error, Result, Slice, UserKey};
use fjall_reading::KeyRange;
use std::alloc::Global;
use std::ops::Bound;

// Adds a field, each byte 00 of it as 00 ff.
fn push_escaped(out: &mut Vec<u8>, field: &[u8]) -> Result<()>
    ensures ok { OnOk result (out.new.items ≡ out.old.items ++ escaped field.now) }
    ensures only { IsOkUnless result OutOfMemory }
{
    for byte in field {
        out.push(*byte)?;
        if *byte == 0 {
            out.push(255)?;
        }
    }
    Ok(())
}

// A field, and these bytes behind it.
fn behind_field(alloc: Global, field: &[u8], end: [u8; 2], key: &[u8]) -> Result<Slice>
    ensures ok { IfOk result (λ found. found ≡ escaped field.now ++ (end ++ key.now)) }
    ensures only { IsOkUnless result OutOfMemory }
{
    let mut bytes = Vec::new(alloc);
    push_escaped(&mut bytes, field)?;
    bytes.extend_from_slice(&end)?;
    bytes.extend_from_slice(key)?;
    Ok(Slice::new(alloc, &bytes)?)
}

/// The entry of a key with this field, however long it is.
pub fn entry_of(alloc: Global, field: &[u8], key: &[u8]) -> Result<Slice>
    ensures ok { IfOk result (λ found. found ≡ entry field.now key.now) }
    ensures only { IsOkUnless result OutOfMemory }
{
    behind_field(alloc, field, [0, 1], key)
}

// An entry as a key of the index keyspace. One of more than 65,535 bytes is none.
pub(crate) fn as_key(entry: Slice) -> Result<UserKey>
    ensures ok { IfOk result (λ found. (found ≡ entry) × (length entry < 2 ^ 16)) }
    ensures cause { IfErr result (λ e. (e ≡ KeyTooLong) × (2 ^ 16 ≤ length entry)) }
{
    if entry.len() > 65_535 {
        return Err(Error::KeyTooLong);
    }
    Ok(entry)
}

/// The entry of a key with this field, as a key of the index keyspace. One of more than 65,535 bytes is refused with
/// `KeyTooLong`.
pub fn index_key(alloc: Global, field: &[u8], key: &[u8]) -> Result<UserKey>
    ensures ok { IfOk result (λ found. found ≡ entry field.now key.now) }
    ensures fits { IfOk result (λ found. length found < 2 ^ 16) }
    ensures cause { IfErr result (λ e. (e ≡ OutOfMemory) ⊎ ((e ≡ KeyTooLong) × (2 ^ 16 ≤ length (entry field.now key.now)))) }
{
    as_key(entry_of(alloc, field, key)?)
}

/// The range in which the entries of a field lie, and those of no other one.
pub fn range_of(alloc: Global, field: &[u8]) -> Result<KeyRange>
    ensures ok { IfOk result (λ range. range ≡ range_of field.now) }
    ensures only { IsOkUnless result OutOfMemory }
{
    let start = behind_field(alloc, field, [0, 1], &[])?;
    let end = behind_field(alloc, field, [0, 2], &[])?;
    Ok((Bound::Included(start), Bound::Excluded(end)))
}

/// The key of the main keyspace that an entry has behind its field. Bytes that are spelled as no entry is have none.
pub fn key_behind(entry: &[u8]) -> Option<&[u8]>
    ensures { option_map (λ key. key.now) result ≡ key_behind entry.now }
{
    let mut ahead = false;
    for (at, byte) in entry.iter().enumerate() {
        if !ahead {
            ahead = *byte == 0;
        } else if *byte == 1 {
            return Some(&entry[at + 1..]);
        } else if *byte == 255 {
            ahead = false;
        } else {
            return None;
        }
    }
    None
}
