//! A main keyspace with its index: how it is opened.

ghost use Rattle.std.specs.Prelude.{Err, IfOk, ◌≡◌};
ghost use Rattle.fjall_index_entries.specs.declared.error.IndexError.TheVariants.{SameKeyspace};

use crate::tx_database::OptimisticTxDatabase;
use crate::tx_keyspace::OptimisticTxKeyspace;
use fjall_handles::{Disk, FolderDisk, Identified, KeyspaceCreateOptions};
use fjall_index_entries::{Extract, IndexError, Result};
use std::alloc::Global;
use std::sync::Wait;

/// A main keyspace, whose pairs are found by a field of theirs: an index keyspace has an entry for each pair that has one. Threads share it
/// by reference, or each has one of its own.
pub struct IndexedKeyspace<E, D: Disk + Drop = FolderDisk> {
    pub(crate) alloc: Global,
    pub(crate) database: OptimisticTxDatabase<D>,
    // Handles, which keep the two keyspaces, and their ids.
    pub(crate) handles: (OptimisticTxKeyspace<D>, OptimisticTxKeyspace<D>),
    pub(crate) main: u64,
    pub(crate) index: u64,
    pub(crate) extract: E,
}

// Written out, so that no crate above proves the drop of what it owns anew.
impl<E: Drop, D: Disk + Drop> Drop for IndexedKeyspace<E, D> {
    fn drop(self) {
        let IndexedKeyspace {
            alloc: _,
            database: _,
            handles: _,
            main: _,
            index: _,
            extract: _extract,
        } = self;
    }
}

impl<E, D: Disk + Drop> IndexedKeyspace<E, D> {
    /// The main keyspace, to be read. A write through it alone leaves the index behind.
    pub fn main(&self) -> &OptimisticTxKeyspace<D> {
        &self.handles.0
    }

    /// The index keyspace, to be read.
    pub fn index(&self) -> &OptimisticTxKeyspace<D> {
        &self.handles.1
    }
}

impl<E: Extract + Drop, D: Disk + Drop> IndexedKeyspace<E, D> {
    /// The keyspaces of these two names, which are made where they are missing, whatever the second one has.
    pub(crate) fn over<R: Wait>(
        rt: &R,
        alloc: Global,
        database: &OptimisticTxDatabase<D>,
        main: &str,
        index: &str,
        extract: E,
    ) -> Result<IndexedKeyspace<E, D>>
        ensures one { main.now ≡ index.now → result ≡ Err SameKeyspace }
        ensures two { result ≡ Err SameKeyspace → main.now ≡ index.now }
        ensures made { IfOk result (λ made. made.extract ≡ extract) }
    {
        if main == index {
            return Err(IndexError::SameKeyspace);
        }
        let main = database.keyspace(rt, main, KeyspaceCreateOptions::default(alloc)?)?;
        let index = database.keyspace(rt, index, KeyspaceCreateOptions::default(alloc)?)?;
        Ok(IndexedKeyspace {
            alloc,
            database: database.clone()?,
            main: main.id(),
            index: index.id(),
            handles: (main, index),
            extract,
        })
    }

    /// Opens a main keyspace with its index, by the names of the two keyspaces, and makes what is missing, with the default options.
    ///
    /// Refusals: `SameKeyspace` where the two names are one, and then nothing has changed; those of [`keyspace`](crate::tx_database::TxDatabase::keyspace)
    /// and of reads of the two; and `IndexStale` where the index keyspace's map isn't the index of the main one's, as a snapshot shows both.
    pub fn open<R: Wait>(
        rt: &R,
        alloc: Global,
        database: &OptimisticTxDatabase<D>,
        main: &str,
        index: &str,
        extract: E,
    ) -> Result<IndexedKeyspace<E, D>>
        ensures one { main.now ≡ index.now → result ≡ Err SameKeyspace }
        ensures two { result ≡ Err SameKeyspace → main.now ≡ index.now }
        ensures made { IfOk result (λ made. made.extract ≡ extract) }
    {
        let indexed = IndexedKeyspace::over(rt, alloc, database, main, index, extract)?;
        indexed.check(rt)?;
        Ok(indexed)
    }
}
