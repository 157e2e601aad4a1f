//! What is written where a key of the main keyspace gets a value, or loses it.

ghost use Rattle.std.specs.Prelude.{◌≡◌, ◌⊎◌, ◌++◌, ◌∷◌, ℕ, IfErr, IfOk, IsOkUnless, OnOk, false, map, true};
ghost use Rattle.fjall_base.specs.declared.error.Error.TheVariants.{KeyTooLong, OutOfMemory};
ghost use Rattle.fjall_journal.specs.Ops.{item_in, value_in};
ghost use Rattle.fjall_index_entries.specs.Index.{bytes_of, field_in};
ghost use Rattle.fjall_index_entries.specs.Putting.{comes, entry_in, entry_item, entry_items, goes, has_long_entry, is_long, item, put_items};

use crate::entry::index_key;
use crate::extract::Extract;
use fjall_base::{Result, Slice, UserKey, UserValue};
use fjall_journal::{BatchItem, Op};
use std::alloc::Global;

/// The field of a key that has this value, or none.
pub fn field_of_value<E: Extract>(
    alloc: Global,
    extract: &E,
    key: &[u8],
    value: &Option<UserValue>,
) -> Result<Option<Vec<u8>>>
    ensures ok { IfOk result (λ found. bytes_of found ≡ field_in (E.field_of extract.now) key.now value.now) }
    ensures only { IsOkUnless result OutOfMemory }
{
    match value {
        Some(value) => extract.field(alloc, key, value.as_slice()),
        None => Ok(None),
    }
}

// The entry of a key with this field, where it has one.
fn entry_in(alloc: Global, key: &[u8], field: &Option<Vec<u8>>) -> Result<Option<UserKey>>
    ensures ok { IfOk result (λ found. found ≡ entry_in key.now (bytes_of field.now)) }
    ensures fits { IfOk result (λ found. is_long found ≡ false) }
    ensures cause { IfErr result (λ e. (e ≡ OutOfMemory)
        ⊎ ((e ≡ KeyTooLong) × (is_long (entry_in key.now (bytes_of field.now)) ≡ true))) }
{
    match field {
        Some(field) => Ok(Some(index_key(alloc, field, key)?)),
        None => Ok(None),
    }
}

// The entries that go and come where the field of a key, or none, becomes another.
fn changed_entries(
    alloc: Global,
    key: &[u8],
    was: &Option<Vec<u8>>,
    becomes: &Option<Vec<u8>>,
) -> Result<(Option<UserKey>, Option<UserKey>)>
    ensures ok { (index : ℕ) → IfOk result (λ both. goes index both.0 ++ comes index both.1
        ≡ entry_items index key.now (bytes_of was.now) (bytes_of becomes.now)) }
    ensures fits { IfOk result (λ _. has_long_entry key.now (bytes_of was.now) (bytes_of becomes.now) ≡ false) }
    ensures cause { IfErr result (λ e. (e ≡ OutOfMemory) ⊎ ((e ≡ KeyTooLong)
        × (has_long_entry key.now (bytes_of was.now) (bytes_of becomes.now) ≡ true))) }
{
    if *was == *becomes {
        return Ok((None, None));
    }
    let going = entry_in(alloc, key, was)?;
    let coming = entry_in(alloc, key, becomes)?;
    Ok((going, coming))
}

// The write that gives a key this value, or none.
fn op_for(value: Option<UserValue>) -> Op
    ensures { value_in result ≡ value }
{
    match value {
        Some(value) => Op::Put(value),
        None => Op::Remove,
    }
}

// Adds the item of an entry, where there is one.
pub(crate) fn add_entry(
    items: &mut Vec<BatchItem>,
    index: u64,
    entry: Option<UserKey>,
    op: Op,
) -> Result<()>
    ensures ok { OnOk result (map item_in items.new.items ≡ map item_in items.old.items ++ entry_item index entry (value_in op)) }
    ensures only { IsOkUnless result OutOfMemory }
{
    if let Some(entry) = entry {
        items.push((index, entry, op))?;
    }
    Ok(())
}

/// What is written where a key of the main keyspace gets a value, or none, and its field, or none, so becomes another: the
/// key's item, and where the field changes the entry that goes and the one that comes. An entry of more than 65,535 bytes is
/// refused with `KeyTooLong`.
pub fn change_items(
    alloc: Global,
    main: u64,
    index: u64,
    key: UserKey,
    new: Option<UserValue>,
    was: &Option<Vec<u8>>,
    becomes: &Option<Vec<u8>>,
) -> Result<Vec<BatchItem>>
    ensures ok { IfOk result (λ items. map item_in items.items ≡ item main key new
        ∷ entry_items index key (bytes_of was.now) (bytes_of becomes.now)) }
    ensures fits { IfOk result (λ _. has_long_entry key (bytes_of was.now) (bytes_of becomes.now) ≡ false) }
    ensures cause { IfErr result (λ e. (e ≡ OutOfMemory) ⊎ ((e ≡ KeyTooLong)
        × (has_long_entry key (bytes_of was.now) (bytes_of becomes.now) ≡ true))) }
{
    let (going, coming) = changed_entries(alloc, key.as_slice(), was, becomes)?;
    let mut items = Vec::new(alloc);
    items.push((main, key, op_for(new)))?;
    add_entry(&mut items, index, going, Op::Remove)?;
    add_entry(&mut items, index, coming, Op::Put(Slice::empty()))?;
    Ok(items)
}

/// What a put or a removal writes, where a key of the main keyspace that had the one value, or none, gets the other, or none:
/// the key's item, and where its field changes the entry that goes and the one that comes. An entry that stays isn't
/// written. One of more than 65,535 bytes is refused with `KeyTooLong`.
pub fn put_items<E: Extract>(
    alloc: Global,
    extract: &E,
    main: u64,
    index: u64,
    key: UserKey,
    old: &Option<UserValue>,
    new: Option<UserValue>,
) -> Result<Vec<BatchItem>>
    ensures ok { IfOk result (λ items. map item_in items.items ≡ put_items (E.field_of extract.now) main index key old.now new) }
    ensures fits { IfOk result (λ _. has_long_entry key (field_in (E.field_of extract.now) key old.now) (field_in (E.field_of extract.now) key new) ≡ false) }
    ensures cause { IfErr result (λ e. (e ≡ OutOfMemory) ⊎ ((e ≡ KeyTooLong)
        × (has_long_entry key (field_in (E.field_of extract.now) key old.now) (field_in (E.field_of extract.now) key new) ≡ true))) }
{
    let was = field_of_value(alloc, extract, key.as_slice(), old)?;
    let becomes = field_of_value(alloc, extract, key.as_slice(), &new)?;
    change_items(alloc, main, index, key, new, &was, &becomes)
}
