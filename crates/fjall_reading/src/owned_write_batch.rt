//! Batches of writes: each item of one can stand in the journal.

ghost use Rattle.std.specs.Prelude.{◌≡◌, ◌==◌, [], None, Ok, length, MatchOption, IfOk, IsOkUnless, OnOk, OnErr};
ghost use Rattle.fjall_base.specs.declared.error.Error.TheVariants.{OutOfMemory};
ghost use Rattle.fjall_journal.specs.declared.op.Op.TheVariants.{Put, Remove, RemoveWeak};
ghost use Rattle.fjall_journal.specs.Ops.{items_refusal};
ghost use Rattle.fjall_reading.specs.WriteBatches.{refusal_of, with_item, write_refusal};

use crate::identified::Identified;
use bytes::BytesMut;
use fjall_base::{Error, Result, Slice, UserKey, UserValue, check_item};
use fjall_journal::{BatchItem, Op, PersistMode};
use std::alloc::{AllocError, Global};
use std::marker::Model;
use std::result;

/// The most items that a batch has.
const MOST_ITEMS: usize = 4_294_967_295;

/// How much memory is asked for at a time, of which values are cut.
const ROOM_LEN: usize = 4_096;

/// Values of fewer bytes aren't cut of it, since they stand in their slices, and those of more have memory of their own.
const LEAST_CUT: usize = 25;

const MOST_CUT: usize = 512;

/// A batch of writes to any keyspaces, which an engine takes all at once. It belongs to a database of which it has a handle, or
/// stands beside an engine, and then has `()`.
#[derive(Drop)]
pub struct OwnedWriteBatch<H> {
    handle: H,
    items: Vec<BatchItem>,
    mode: Option<PersistMode>,
    /// Memory of which the next values are cut.
    room: BytesMut,
}

/// A slice with a copy of these bytes, cut of the room where they are as many as that.
fn copy_of(room: &mut BytesMut, bytes: &[u8]) -> result::Result<Slice, AllocError>
    ensures { IfOk result (λ s. s ≡ bytes.now) }
{
    if bytes.len() < LEAST_CUT || bytes.len() > MOST_CUT {
        return Slice::new(*room.allocator(), bytes);
    }
    room.clear();
    if room.capacity() < bytes.len() {
        room.reserve(ROOM_LEN)?;
    }
    room.extend_from_slice(bytes)?;
    Ok(Slice::from(room.freeze_to(bytes.len())?))
}

impl<H> Model for OwnedWriteBatch<H> {
    ghost use Rattle.std.specs.Prelude.{◌≡◌, None};
    ghost use Rattle.fjall_journal.specs.Ops.{items_refusal};
    ghost use Rattle.fjall_reading.specs.WriteBatches.{WriteBatch};

    ghost Value = { WriteBatch H };

    ghost view = { λ batch. record { handle = batch.handle; items = batch.items.items; mode = batch.mode } };

    ghost invariant = { λ batch. items_refusal batch.items.items ≡ None };
}

impl<H: Drop> OwnedWriteBatch<H> {
    /// A batch without items and without a mode, which takes memory for so many items at once. Refuses for want of memory alone.
    pub fn with_capacity(alloc: Global, handle: H, capacity: usize) -> Result<OwnedWriteBatch<H>>
        ensures ok { IfOk result (λ batch. batch ≡ record { handle = handle; items = []; mode = None }) }
        ensures only { IsOkUnless result OutOfMemory }
    {
        Ok(OwnedWriteBatch {
            handle,
            items: Vec::with_capacity(alloc, capacity)?,
            mode: None,
            room: BytesMut::new(alloc),
        })
    }
}

impl<H> OwnedWriteBatch<H> {
    // Refuses one item more with this key and these bytes of a value.
    fn refuse(&self, key: &[u8], value: &[u8]) -> Result<()>
        ensures { MatchOption (refusal_of key.now value.now self.now.items) (result ≡ Ok tt) (λ e. result ≡ Err e) }
    {
        check_item(key, value)?;
        if self.items.len() >= MOST_ITEMS {
            return Err(Error::TooManyItems);
        }
        Ok(())
    }

    // One item more.
    fn push(&mut self, item: BatchItem) -> Result<()>
        ensures ok { OnOk result (self.new ≡ with_item item self.old) }
        ensures unchanged { OnErr result (self.new ≡ self.old) }
        ensures refused { MatchOption (write_refusal item self.old.items) (IsOkUnless result OutOfMemory) (λ e. result ≡ Err e) }
    {
        self.refuse(item.1.as_slice(), item.2.bytes())?;
        self.items.push(item)?;
        Ok(())
    }

    /// Gives the key of a keyspace this value, and copies both. A short value is cut of memory that others of the batch are cut of
    /// too, so that it needs no request for memory of its own. It is refused as [`insert`](Self::insert) is.
    pub fn insert_copied<K: Identified>(
        &mut self,
        keyspace: &K,
        key: &[u8],
        value: &[u8],
    ) -> Result<()>
        ensures ok { OnOk result (self.new ≡ with_item (K.identity keyspace.now, key.now, Put value.now) self.old) }
        ensures unchanged { OnErr result (self.new ≡ self.old) }
        ensures refused { MatchOption (write_refusal (K.identity keyspace.now, key.now, Put value.now) self.old.items) (IsOkUnless result OutOfMemory) (λ e. result ≡ Err e) }
    {
        self.refuse(key, value)?;
        let key = Slice::new(*self.room.allocator(), key)?;
        let value = copy_of(&mut self.room, value)?;
        self.items.push((keyspace.id(), key, Op::Put(value)))?;
        Ok(())
    }

    /// Gives the key of a keyspace this value.
    ///
    /// Refusals, after which the batch is as before: `KeyEmpty`, `KeyTooLong` above 65,535 bytes, `ValueTooLong` above
    /// 4,294,967,295, `TooManyItems` where it has 4,294,967,295 items, `OutOfMemory`.
    pub fn insert<K: Identified>(
        &mut self,
        keyspace: &K,
        key: UserKey,
        value: UserValue,
    ) -> Result<()>
        ensures ok { OnOk result (self.new ≡ with_item (K.identity keyspace.now, key, Put value) self.old) }
        ensures unchanged { OnErr result (self.new ≡ self.old) }
        ensures refused { MatchOption (write_refusal (K.identity keyspace.now, key, Put value) self.old.items) (IsOkUnless result OutOfMemory) (λ e. result ≡ Err e) }
    {
        self.push((keyspace.id(), key, Op::Put(value)))
    }

    /// Takes the key of a keyspace away.
    ///
    /// Refusals, after which the batch is as before: `KeyEmpty`, `KeyTooLong` above 65,535 bytes, `TooManyItems` where it has
    /// 4,294,967,295 items, `OutOfMemory`.
    pub fn remove<K: Identified>(&mut self, keyspace: &K, key: UserKey) -> Result<()>
        ensures ok { OnOk result (self.new ≡ with_item (K.identity keyspace.now, key, Remove) self.old) }
        ensures unchanged { OnErr result (self.new ≡ self.old) }
        ensures refused { MatchOption (write_refusal (K.identity keyspace.now, key, Remove) self.old.items) (IsOkUnless result OutOfMemory) (λ e. result ≡ Err e) }
    {
        self.push((keyspace.id(), key, Op::Remove))
    }

    /// Takes the key of a keyspace away, as [`remove`](Self::remove) does; the journal alone tells them apart.
    ///
    /// Refusals, after which the batch is as before: `KeyEmpty`, `KeyTooLong` above 65,535 bytes, `TooManyItems` where it has
    /// 4,294,967,295 items, `OutOfMemory`.
    pub fn remove_weak<K: Identified>(&mut self, keyspace: &K, key: UserKey) -> Result<()>
        ensures ok { OnOk result (self.new ≡ with_item (K.identity keyspace.now, key, RemoveWeak) self.old) }
        ensures unchanged { OnErr result (self.new ≡ self.old) }
        ensures refused { MatchOption (write_refusal (K.identity keyspace.now, key, RemoveWeak) self.old.items) (IsOkUnless result OutOfMemory) (λ e. result ≡ Err e) }
    {
        self.push((keyspace.id(), key, Op::RemoveWeak))
    }

    /// How many items it has.
    pub fn len(&self) -> usize
        ensures { result ≡ length self.now.items }
    {
        self.items.len()
    }

    /// Whether it has no item.
    pub fn is_empty(&self) -> bool
        ensures { result ≡ (length self.now.items == 0) }
    {
        self.items.is_empty()
    }

    /// With this mode, or with none: how far what the batch writes is to be brought before its commit returns.
    pub fn durability(mut self, mode: Option<PersistMode>) -> OwnedWriteBatch<H>
        ensures { result ≡ record self { mode = mode } }
    {
        self.mode = mode;
        self
    }

    /// Its mode, where it has one.
    pub fn mode(&self) -> Option<PersistMode>
        ensures { result ≡ self.now.mode }
    {
        self.mode
    }
}

impl<H: Drop> OwnedWriteBatch<H> {
    /// Its items, in the order in which they were written.
    pub fn into_items(self) -> Vec<BatchItem>
        ensures items { result.items ≡ self.items }
        // An engine refuses none of them for its length, nor all of them for their number.
        ensures writable { items_refusal result.items ≡ None }
    {
        self.items
    }
}
