//! Changes of one key and of many, and transactions.

ghost use Rattle.std.specs.Prelude.{IfOk, None, OnErr, OnOk, Some, [], ◌≡◌};
ghost use Rattle.fjall.specs.Changes.{KeepsChange};

use crate::indexed::IndexedKeyspace;
use crate::indexed_tx::IndexedWriteTx;
use fjall_base::check_item;
use fjall_handles::{Conflict, Disk, KvPair, Readable, Slice, UserKey, UserValue};
use fjall_index_entries::{Extract, Result, index_key, put_items};
use std::result;
use std::sync::Wait;

impl<E: Extract, D: Disk + Drop> IndexedKeyspace<E, D> {
    /// Gives a key a value, as one transaction, which is made anew until it doesn't conflict.
    ///
    /// Refusals, after which nothing is written: those of [`begin`](IndexedKeyspace::begin), [`put_in`](IndexedKeyspace::put_in) and
    /// [`commit`](IndexedWriteTx::commit).
    pub fn put<R: Wait>(&self, rt: &R, key: &[u8], value: &[u8]) -> Result<()> {
        for _ in rt.forever() {
            let mut tx = self.begin(rt)?;
            self.put_in(rt, &mut tx, key, value)?;
            if tx.commit(rt)?.is_ok() {
                return Ok(());
            }
        }
        unreachable!()
    }

    /// Takes a key and its value away, as one transaction, which is made anew until it doesn't conflict. It is refused as
    /// [`put`](IndexedKeyspace::put) is.
    pub fn del<R: Wait>(&self, rt: &R, key: &[u8]) -> Result<()> {
        for _ in rt.forever() {
            let mut tx = self.begin(rt)?;
            self.del_in(rt, &mut tx, key)?;
            if tx.commit(rt)?.is_ok() {
                return Ok(());
            }
        }
        unreachable!()
    }

    /// Gives each of these keys its value, all in one transaction; where one key comes several times, its last value counts. Where it
    /// conflicts nothing is written.
    ///
    /// Refusals, after which nothing is written: those of [`put`](IndexedKeyspace::put).
    pub fn load<R: Wait>(&self, rt: &R, pairs: &[KvPair]) -> Result<result::Result<(), Conflict>> {
        let mut tx = self.begin(rt)?;
        for (key, value) in pairs {
            self.put_in(rt, &mut tx, key.as_slice(), value.as_slice())?;
        }
        tx.commit(rt)
    }
}

impl<E: Extract, D: Disk + Drop> IndexedKeyspace<E, D> {
    /// Begins a transaction, which reads at the visible number. It is optimistic.
    ///
    /// Refusals: `Poisoned` once the database is closed, `NumbersUsedUp`, `OutOfMemory`.
    pub fn begin<R: Wait>(&self, rt: &R) -> Result<IndexedWriteTx<D>>
        ensures none { IfOk result (λ tx. tx.changes.entries ≡ []) }
    {
        let transaction = self.database.write_tx(rt)?;
        Ok(IndexedWriteTx::new(self.alloc, transaction))
    }

    // Keeps what a key's new value, or none, writes to both keyspaces, where it has had the one that the transaction sees. The read marks
    // the key.
    fn keep_in<R: Wait>(
        &self,
        rt: &R,
        tx: &mut IndexedWriteTx<D>,
        key: UserKey,
        new: Option<UserValue>,
    ) -> Result<()>
        ensures kept { OnOk result (KeepsChange (E.field_of self.now.extract) self.now.main self.now.index key new
            tx.old.changes.entries tx.new.changes.entries) }
        ensures unchanged { OnErr result (tx.new.changes.entries ≡ tx.old.changes.entries) }
    {
        let old = tx.transaction.at(rt).get(&self.main, key.as_slice())?;
        let written = key.clone()?;
        let items = put_items(
            self.alloc,
            &self.extract,
            self.main,
            self.index,
            written,
            &old,
            new,
        )?;
        tx.keep(key, items)?;
        Ok(())
    }

    // Refuses a pair that is too long, or whose entry is, before its key is read.
    fn check_pair(&self, key: &[u8], value: &[u8]) -> Result<()> {
        check_item(key, value)?;
        if let Some(field) = self.extract.field(self.alloc, key, value)? {
            index_key(self.alloc, &field, key)?;
        }
        Ok(())
    }

    /// Gives a key a value within a transaction.
    ///
    /// Refusals, after which the transaction keeps what it kept: `KeyEmpty`, `KeyTooLong` where the key or an entry that goes or comes has
    /// more than 65,535 bytes, `ValueTooLong`, those of a read of the main keyspace, and `OutOfMemory`, after which the key may count as
    /// read.
    pub fn put_in<R: Wait>(
        &self,
        rt: &R,
        tx: &mut IndexedWriteTx<D>,
        key: &[u8],
        value: &[u8],
    ) -> Result<()>
        ensures kept { OnOk result (KeepsChange (E.field_of self.now.extract) self.now.main self.now.index key.now (Some value.now)
            tx.old.changes.entries tx.new.changes.entries) }
        ensures unchanged { OnErr result (tx.new.changes.entries ≡ tx.old.changes.entries) }
    {
        self.check_pair(key, value)?;
        let (key, value) = (Slice::new(self.alloc, key)?, Slice::new(self.alloc, value)?);
        self.keep_in(rt, tx, key, Some(value))
    }

    /// Takes a key and its value away within a transaction. It is refused as [`put_in`](IndexedKeyspace::put_in) is.
    pub fn del_in<R: Wait>(&self, rt: &R, tx: &mut IndexedWriteTx<D>, key: &[u8]) -> Result<()>
        ensures kept { OnOk result (KeepsChange (E.field_of self.now.extract) self.now.main self.now.index key.now None
            tx.old.changes.entries tx.new.changes.entries) }
        ensures unchanged { OnErr result (tx.new.changes.entries ≡ tx.old.changes.entries) }
    {
        check_item(key, &[])?;
        let key = Slice::new(self.alloc, key)?;
        self.keep_in(rt, tx, key, None)
    }
}
