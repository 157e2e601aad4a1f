//! What a write does to its key.

ghost use Rattle.std.specs.Prelude.{◌≡◌, Err, MatchOption, Ok};
ghost use Rattle.std.specs.Option.{option_map};
ghost use Rattle.fjall_journal.specs.Ops.{bytes_in, items_refusal, kind_of, op_of, some_key_empty, some_key_too_long, some_value_too_long, value_in};

use crate::entry::ValueType;
use fjall_base::{Error, Result, UserKey, UserValue};

/// A key gets a value, or none. The weak removal acts as the other one; the journal alone tells them apart.
#[derive(Debug, Drop)]
pub enum Op {
    /// Gives the key this value.
    Put(UserValue),
    /// Takes the key and its value away.
    Remove,
    /// Does the same.
    RemoveWeak,
}

/// The same where the value is lent.
#[derive(Clone, Copy)]
pub enum OpRef<'a> {
    /// Gives the key this value.
    Put(&'a [u8]),
    /// Takes the key and its value away.
    Remove,
    /// Does the same.
    RemoveWeak,
}

/// An item of a batch: the id of a keyspace, a key, and what becomes of it.
pub type BatchItem = (u64, UserKey, Op);

impl Op {
    /// The value's bytes in the journal, none for a removal.
    pub fn bytes(&self) -> &[u8]
        ensures { result.now ≡ bytes_in self.now }
    {
        match self {
            Op::Put(value) => value,
            Op::Remove | Op::RemoveWeak => &[],
        }
    }

    /// The type of the item in the journal.
    pub fn value_type(&self) -> ValueType
        ensures { result ≡ kind_of self.now }
    {
        match self {
            Op::Put(_) => ValueType::Value,
            Op::Remove => ValueType::Tombstone,
            Op::RemoveWeak => ValueType::WeakTombstone,
        }
    }

    /// The same, lent.
    pub fn lend(&self) -> OpRef<'_>
        ensures { op_of result ≡ self.now }
    {
        match self {
            Op::Put(value) => OpRef::Put(value.as_slice()),
            Op::Remove => OpRef::Remove,
            Op::RemoveWeak => OpRef::RemoveWeak,
        }
    }
}

impl<'a> OpRef<'a> {
    /// The value that the key has afterwards, where it has one.
    pub fn value(self) -> Option<&'a [u8]>
        ensures { option_map (λ v. v.now) result ≡ value_in (op_of self.entry) }
    {
        match self {
            OpRef::Put(value) => Some(value),
            OpRef::Remove | OpRef::RemoveWeak => None,
        }
    }

    /// The value's bytes in the journal, none for a removal.
    pub fn bytes(self) -> &'a [u8]
        ensures { result.now ≡ bytes_in (op_of self.entry) }
    {
        match self {
            OpRef::Put(value) => value,
            OpRef::Remove | OpRef::RemoveWeak => &[],
        }
    }

    /// The type of the item in the journal.
    pub fn value_type(self) -> ValueType
        ensures { result ≡ kind_of (op_of self.entry) }
    {
        match self {
            OpRef::Put(_) => ValueType::Value,
            OpRef::Remove => ValueType::Tombstone,
            OpRef::RemoveWeak => ValueType::WeakTombstone,
        }
    }
}

/// Whether some key is empty.
pub fn has_empty_key(items: &[BatchItem]) -> bool
    ensures { result ≡ some_key_empty items.now }
{
    items.iter().any(|item| item.1.as_slice().is_empty())
}

/// Whether some key has more than 65,535 bytes.
pub fn has_key_too_long(items: &[BatchItem]) -> bool
    ensures { result ≡ some_key_too_long items.now }
{
    items.iter().any(|item| item.1.len() > 65_535)
}

/// Whether some value has more than 4,294,967,295 bytes.
pub fn has_value_too_long(items: &[BatchItem]) -> bool
    ensures { result ≡ some_value_too_long items.now }
{
    items
        .iter()
        .any(|item| item.2.bytes().len() > 4_294_967_295)
}

/// Refuses items that no batch can have, cause by cause over all of them: an empty key, a key of more than 65,535
/// bytes, a value of more than 4,294,967,295, and more than 4,294,967,295 items.
pub fn check_items(items: &[BatchItem]) -> Result<()>
    ensures { MatchOption (items_refusal items.now) (result ≡ Ok tt) (λ e. result ≡ Err e) }
{
    if has_empty_key(items) {
        return Err(Error::KeyEmpty);
    }
    if has_key_too_long(items) {
        return Err(Error::KeyTooLong);
    }
    if has_value_too_long(items) {
        return Err(Error::ValueTooLong);
    }
    if items.len() > 4_294_967_295 {
        return Err(Error::TooManyItems);
    }
    Ok(())
}
