//! A transaction of an index, which keeps what it writes until it commits.

ghost use Rattle.std.specs.Prelude.{◌≡◌, [], IsOkUnless, OnErr, OnOk};
ghost use Rattle.std.specs.BTreeMap.{insert_entry};
ghost use Rattle.fjall_base.specs.Pairs.{byte_order};
ghost use Rattle.fjall_base.specs.declared.error.Error.TheVariants.{OutOfMemory};

use crate::OptimisticWriteTx;
use fjall_handles::{Conflict, Disk, Error, FolderDisk, Result, UserKey};
use fjall_journal::{BatchItem, Op};
use std::alloc::Global;
use std::collections::BTreeMap;
use std::result;
use std::sync::Wait;

/// A transaction of an index that is open: it reads at the instant at which it began, and keeps for each key of the main keyspace that it
/// changed what that writes to both keyspaces.
///
/// Its drop takes no lock, and nothing of what it changed is written.
pub struct IndexedWriteTx<D: Disk + Drop = FolderDisk> {
    pub(crate) transaction: OptimisticWriteTx<D>,
    pub(crate) changes: BTreeMap<UserKey, Vec<BatchItem>>,
}

// Written out, so that no crate above proves the drop of what it owns anew.
impl<D: Disk + Drop> Drop for IndexedWriteTx<D> {
    fn drop(self) {
        let IndexedWriteTx {
            transaction: _,
            changes: _,
        } = self;
    }
}

impl<D: Disk + Drop> IndexedWriteTx<D> {
    // One that changes nothing yet.
    pub(crate) fn new(alloc: Global, transaction: OptimisticWriteTx<D>) -> IndexedWriteTx<D>
        ensures none { result.changes.entries ≡ [] }
    {
        IndexedWriteTx {
            transaction,
            changes: BTreeMap::new(alloc),
        }
    }

    /// Keeps what a key of the main keyspace now writes, in place of what it wrote before. It is refused for want of memory alone.
    pub(crate) fn keep(&mut self, key: UserKey, items: Vec<BatchItem>) -> Result<()>
        ensures kept { OnOk result (self.new.changes.entries ≡ insert_entry byte_order self.old.changes.entries key items) }
        ensures unchanged { OnErr result (self.new.changes.entries ≡ self.old.changes.entries) }
        ensures only { IsOkUnless result OutOfMemory }
    {
        if self.changes.insert(key, items).is_err() {
            return Err(Error::OutOfMemory);
        }
        Ok(())
    }

    // Writes all that was kept within the transaction, key after key.
    fn write_kept(self) -> Result<OptimisticWriteTx<D>> {
        let IndexedWriteTx {
            mut transaction,
            changes,
        } = self;
        for (_, items) in changes {
            write_items(&mut transaction, items)?;
        }
        Ok(transaction)
    }

    /// Commits it, which ends it whatever it answers: all that it changed is written as one command or, where another one that committed since
    /// it began wrote what it had read, nothing.
    ///
    /// Refusals, after which nothing is written: those of [`WriteTransaction::commit`](fjall_handles::WriteTransaction::commit).
    pub fn commit<R: Wait>(
        self,
        rt: &R,
    ) -> fjall_index_entries::Result<result::Result<(), Conflict>> {
        Ok(self.write_kept()?.commit(rt)?)
    }

    /// Ends it, and nothing of what it changed is written.
    ///
    /// Refuses with `Poisoned` once the database is closed.
    pub fn rollback<R: Wait>(self, rt: &R) -> fjall_index_entries::Result<()> {
        let IndexedWriteTx {
            transaction,
            changes: _,
        } = self;
        Ok(transaction.rollback(rt)?)
    }
}

/// Writes items within a transaction, one after another.
pub(crate) fn write_items<D: Disk + Drop>(
    transaction: &mut OptimisticWriteTx<D>,
    items: Vec<BatchItem>,
) -> Result<()> {
    for (id, key, op) in items {
        match op {
            Op::Put(value) => transaction.insert(&id, key.as_slice(), value.as_slice())?,
            Op::Remove => transaction.remove(&id, key.as_slice())?,
            Op::RemoveWeak => transaction.remove_weak(&id, key.as_slice())?,
        }
    }
    Ok(())
}
