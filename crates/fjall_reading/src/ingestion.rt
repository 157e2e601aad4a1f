//! Bulk writes: their keys ascend, and each item is one that can be written.

ghost use Rattle.std.specs.Prelude.{◌≡◌, ◌==◌, [], length, MatchOption, IsOkUnless, OnOk, OnErr};
ghost use Rattle.fjall_base.specs.declared.error.Error.TheVariants.{OutOfMemory};
ghost use Rattle.fjall_journal.specs.declared.op.Op.TheVariants.{Put, Remove, RemoveWeak};
ghost use Rattle.fjall_reading.specs.Ingestions.{AreWritable, KeysAscend, ingestion_refusal, is_above_last, with_item};

use fjall_base::{Error, Result, UserKey, UserValue, check_item};
use fjall_journal::Op;
use std::alloc::Global;
use std::marker::Model;

/// A bulk write to a keyspace, key by key, upwards. It belongs to a keyspace of which it has a handle, or stands beside an engine,
/// and then has `()`.
#[derive(Drop)]
pub struct Ingestion<H> {
    handle: H,
    items: Vec<(UserKey, Op)>,
}

impl<H> Model for Ingestion<H> {
    ghost use Rattle.fjall_reading.specs.Ingestions.{Ascending, IsIngestible};

    ghost Value = { Ascending H };

    ghost view = { λ ingestion. record { handle = ingestion.handle; items = ingestion.items.items } };

    ghost invariant = { λ ingestion. IsIngestible ingestion.items.items };
}

// Whether a key is above the last of these, or there is none.
#[tactic(auto, using(crate::proofs::Ascents::last_at_end))]
fn is_above_last(key: &UserKey, items: &[(UserKey, Op)]) -> bool
    ensures { result ≡ is_above_last key.now items.now }
{
    match items.last() {
        Some(last) => last.0 < *key,
        None => true,
    }
}

impl<H> Ingestion<H> {
    /// A bulk write of no items yet. It takes no memory.
    pub fn new(alloc: Global, handle: H) -> Ingestion<H>
        ensures { result ≡ record { handle = handle; items = [] } }
    {
        Ingestion {
            handle,
            items: Vec::new(alloc),
        }
    }

    // One item more.
    fn push(&mut self, key: UserKey, op: Op) -> Result<()>
        ensures ok { OnOk result (self.new ≡ with_item (key, op) self.old) }
        ensures unchanged { OnErr result (self.new ≡ self.old) }
        ensures refused { MatchOption (ingestion_refusal (key, op) self.old.items) (IsOkUnless result OutOfMemory) (λ e. result ≡ Err e) }
    {
        check_item(key.as_slice(), op.bytes())?;
        if !is_above_last(&key, self.items.as_slice()) {
            return Err(Error::KeyOrder);
        }
        self.items.push((key, op))?;
        Ok(())
    }

    /// Gives the key this value.
    ///
    /// Refusals, after which it is as before and goes on: `KeyEmpty`, `KeyTooLong` above 65,535 bytes, `ValueTooLong` above
    /// 4,294,967,295, `KeyOrder` where the key is not above the last one that was taken, `OutOfMemory`.
    pub fn write(&mut self, key: UserKey, value: UserValue) -> Result<()>
        ensures ok { OnOk result (self.new ≡ with_item (key, Put value) self.old) }
        ensures unchanged { OnErr result (self.new ≡ self.old) }
        ensures refused { MatchOption (ingestion_refusal (key, Put value) self.old.items) (IsOkUnless result OutOfMemory) (λ e. result ≡ Err e) }
    {
        self.push(key, Op::Put(value))
    }

    /// Takes the key away.
    ///
    /// Refusals, after which it is as before and goes on: `KeyEmpty`, `KeyTooLong` above 65,535 bytes, `KeyOrder` where the
    /// key is not above the last one that was taken, `OutOfMemory`.
    pub fn write_tombstone(&mut self, key: UserKey) -> Result<()>
        ensures ok { OnOk result (self.new ≡ with_item (key, Remove) self.old) }
        ensures unchanged { OnErr result (self.new ≡ self.old) }
        ensures refused { MatchOption (ingestion_refusal (key, Remove) self.old.items) (IsOkUnless result OutOfMemory) (λ e. result ≡ Err e) }
    {
        self.push(key, Op::Remove)
    }

    /// Takes the key away, as [`write_tombstone`](Self::write_tombstone) does; the item alone tells them apart.
    ///
    /// Refusals, after which it is as before and goes on: `KeyEmpty`, `KeyTooLong` above 65,535 bytes, `KeyOrder` where the
    /// key is not above the last one that was taken, `OutOfMemory`.
    pub fn write_weak_tombstone(&mut self, key: UserKey) -> Result<()>
        ensures ok { OnOk result (self.new ≡ with_item (key, RemoveWeak) self.old) }
        ensures unchanged { OnErr result (self.new ≡ self.old) }
        ensures refused { MatchOption (ingestion_refusal (key, RemoveWeak) self.old.items) (IsOkUnless result OutOfMemory) (λ e. result ≡ Err e) }
    {
        self.push(key, Op::RemoveWeak)
    }

    /// How many items it has.
    pub fn len(&self) -> usize
        ensures { result ≡ length self.now.items }
    {
        self.items.len()
    }

    /// Whether it has no item.
    pub fn is_empty(&self) -> bool
        ensures { result ≡ (length self.now.items == 0) }
    {
        self.items.is_empty()
    }
}

impl<H: Drop> Ingestion<H> {
    /// Its items, by key ascending, which is the order in which they were written.
    pub fn into_items(self) -> Vec<(UserKey, Op)>
        ensures items { result.items ≡ self.items }
        // No key comes twice.
        ensures ascend { KeysAscend result.items }
        // An engine refuses none of them for its length.
        ensures writable { AreWritable result.items }
    {
        self.items
    }
}
