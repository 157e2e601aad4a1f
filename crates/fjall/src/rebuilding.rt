//! A stale index made right.

ghost use Rattle.std.specs.Prelude.{Err, IfOk, ◌≡◌};
ghost use Rattle.fjall_index_entries.specs.declared.error.IndexError.TheVariants.{SameKeyspace};

use crate::OptimisticWriteTx;
use crate::indexed::IndexedKeyspace;
use crate::indexed_tx::write_items;
use crate::tx_database::OptimisticTxDatabase;
use fjall_handles::{Conflict, Disk, Readable};
use fjall_index_entries::{Extract, Result, repairs};
use std::alloc::Global;
use std::result;
use std::sync::Wait;

impl<E: Extract, D: Disk + Drop> IndexedKeyspace<E, D> {
    // Writes within a transaction what the index keyspace lacks and has too much. Both keyspaces are marked as read whole: pages of them
    // aren't by themselves.
    fn repair_in<R: Wait>(&self, rt: &R, transaction: &mut OptimisticWriteTx<D>) -> Result<()> {
        transaction.at(rt).is_empty(&self.main)?;
        transaction.at(rt).is_empty(&self.index)?;
        let items = repairs(
            &mut transaction.at(rt),
            &self.extract,
            self.main,
            self.index,
        )?;
        write_items(transaction, items)?;
        Ok(())
    }

    /// Makes the index keyspace's map the index of the main one's, whatever it is, as one transaction. Where that conflicts, since another
    /// one wrote one of the two meanwhile, nothing is written.
    ///
    /// Refusals, after which nothing is written: `KeyTooLong` where an entry that is missing has more than 65,535 bytes, those of
    /// [`begin`](IndexedKeyspace::begin), of reads of the two keyspaces and of a commit. It holds a page and all items that it writes.
    pub fn rebuild<R: Wait>(&self, rt: &R) -> Result<result::Result<(), Conflict>> {
        let mut transaction = self.database.write_tx(rt)?;
        self.repair_in(rt, &mut transaction)?;
        Ok(transaction.commit(rt)?)
    }
}

impl<E: Extract + Drop, D: Disk + Drop> IndexedKeyspace<E, D> {
    /// As [`open`](IndexedKeyspace::open), but an index that is stale is made right, as [`rebuild`](IndexedKeyspace::rebuild) does.
    pub fn rebuilt<R: Wait>(
        rt: &R,
        alloc: Global,
        database: &OptimisticTxDatabase<D>,
        main: &str,
        index: &str,
        extract: E,
    ) -> Result<result::Result<IndexedKeyspace<E, D>, Conflict>>
        ensures one { main.now ≡ index.now → result ≡ Err SameKeyspace }
    {
        let indexed = IndexedKeyspace::over(rt, alloc, database, main, index, extract)?;
        match indexed.rebuild(rt)? {
            Ok(()) => Ok(Ok(indexed)),
            Err(conflict) => Ok(Err(conflict)),
        }
    }
}
