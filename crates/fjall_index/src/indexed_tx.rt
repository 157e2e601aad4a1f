//! A transaction of an index, which keeps what it writes until it commits.

ghost use Rattle.std.specs.Prelude.{◌≡◌, ◌⊎◌, [], IfErr, IsOkUnless, OnErr, OnOk, Some};
ghost use Rattle.std.specs.BTreeMap.{IsOrdered, insert_entry};
ghost use Rattle.fjall_base.specs.Pairs.{byte_order};
ghost use Rattle.fjall_base.specs.declared.error.Error.TheVariants.{OutOfMemory};
ghost use Rattle.fjall_journal.specs.Ops.{items_refusal};
ghost use Rattle.fjall_tx.specs.Marks.{OfKey};
ghost use Rattle.fjall_core.specs.Transactions.{having_read, with_own_items};
ghost use Rattle.fjall_index.specs.Changes.{IsSameTx, batch_of};

use fjall_base::{Error, Result, UserKey};
use fjall_core::Transaction;
use fjall_journal::BatchItem;
use std::alloc::Global;
use std::collections::BTreeMap;

/// A transaction of an index that is open: it reads at the instant at which it began, and keeps for each key of the main
/// keyspace that it changed what that writes to both keyspaces.
#[derive(Drop)]
pub struct IndexedTx {
    pub(crate) transaction: Transaction,
    pub(crate) changes: BTreeMap<UserKey, Vec<BatchItem>>,
}

impl IndexedTx {
    // One that changes nothing yet.
    pub(crate) fn new(alloc: Global, transaction: Transaction) -> IndexedTx
        ensures transaction { result.transaction ≡ transaction }
        ensures none { result.changes.entries ≡ [] }
    {
        IndexedTx {
            transaction,
            changes: BTreeMap::new(alloc),
        }
    }

    /// Keeps what a key of the main keyspace now writes, in place of what it wrote before, and marks it as read. It is refused for
    /// want of memory alone.
    pub(crate) fn keep(&mut self, main: u64, key: UserKey, items: Vec<BatchItem>) -> Result<()>
        ensures marked { OnOk result (self.new.transaction ≡ having_read self.old.transaction (OfKey main key)) }
        ensures kept { OnOk result (self.new.changes.entries ≡ insert_entry byte_order self.old.changes.entries key items) }
        ensures unchanged { OnErr result (IsSameTx self.old self.new) }
        ensures only { IsOkUnless result OutOfMemory }
    {
        self.transaction.mark_read(main, key.as_slice())?;
        if self.changes.insert(key, items).is_err() {
            self.transaction.take_back_read();
            return Err(Error::OutOfMemory);
        }
        Ok(())
    }
}

/// Writes all that was kept, key after key.
pub(crate) fn write_kept(
    alloc: Global,
    transaction: &mut Transaction,
    changes: BTreeMap<UserKey, Vec<BatchItem>>,
) -> Result<()>
    ensures ok { OnOk result (transaction.new ≡ with_own_items transaction.old (batch_of changes.entries)) }
    ensures ordered { OnOk result (IsOrdered byte_order changes) }
    ensures cause { IfErr result (λ e. (e ≡ OutOfMemory) ⊎ (items_refusal (batch_of changes.entries) ≡ Some e)) }
    ensures ticket { transaction.new.ticket ≡ transaction.old.ticket }
{
    let mut batch = Vec::new(alloc);
    for (_, mut items) in changes {
        batch.append(&mut items)?;
    }
    transaction.write_all(batch)
}
