//! Databases whose keyspaces are changed by transactions.

use crate::tx_keyspace::TxKeyspace;
use fjall_handles::{
    Database, DatabaseBuilder, Disk, FolderDisk, KeyspaceCreateOptions, Kind, Optimistic,
    PersistMode, Result, Single, Snapshot, WriteTransaction,
};
use std::alloc::{AllocError, Global};
use std::marker::PhantomData;
use std::result;
use std::sync::Wait;
use std::thread::Threads;

/// A database whose keyspaces are changed by transactions of one kind. Threads share it by clones of its handle.
pub struct TxDatabase<D: Disk + Drop, K: Kind> {
    inner: Database<D>,
    kind: PhantomData<K>,
}

// Written out, so that no crate above proves the drop of what it owns anew.
impl<D: Disk + Drop, K: Kind> Drop for TxDatabase<D, K> {
    fn drop(self) {
        let TxDatabase { inner: _, kind: _ } = self;
    }
}

/// Many transactions are open at a time, and one conflicts where another one that committed meanwhile wrote what it had read.
pub type OptimisticTxDatabase<D = FolderDisk> = TxDatabase<D, Optimistic>;

/// One transaction is open at a time, the single writer's.
pub type SingleWriterTxDatabase<D = FolderDisk> = TxDatabase<D, Single>;

impl<D: Disk + Drop, K: Kind> From<Database<D>> for TxDatabase<D, K> {
    /// Transactions over a database. Whoever has other handles of it may write beside them.
    fn from(database: Database<D>) -> TxDatabase<D, K> {
        TxDatabase {
            inner: database,
            kind: PhantomData,
        }
    }
}

impl<D: Disk + Drop, K: Kind> TxDatabase<D, K> {
    /// Settings of a database in this folder, with which it is opened.
    pub fn builder(alloc: Global, path: &str) -> Result<DatabaseBuilder<TxDatabase<D, K>>> {
        DatabaseBuilder::new(alloc, path)
    }

    /// The database below, whose writes are no transactions.
    pub fn inner(&self) -> &Database<D> {
        &self.inner
    }

    /// Another handle of the database.
    pub fn clone(&self) -> result::Result<TxDatabase<D, K>, AllocError> {
        Ok(TxDatabase {
            inner: self.inner.clone()?,
            kind: PhantomData,
        })
    }

    /// Closes the database, as [`Database::close`] does.
    pub fn close<R: Threads + Wait>(self, rt: &R) -> (Option<D>, Result<()>) {
        let TxDatabase { inner, kind: _ } = self;
        inner.close(rt)
    }

    /// A snapshot, at which it is read.
    pub fn read_tx<R: Wait>(&self, rt: &R) -> Result<Snapshot<D>> {
        self.inner.snapshot(rt)
    }

    /// Begins a transaction. That of a single writer is refused with `TransactionOpen` while one is open.
    pub fn write_tx<R: Wait>(&self, rt: &R) -> Result<WriteTransaction<D, K>> {
        self.inner.begin(rt)
    }

    /// Writes the journal's buffer out and, in the two sync modes, syncs the journal.
    pub fn persist<R: Wait>(&self, rt: &R, mode: PersistMode) -> Result<()> {
        self.inner.persist(rt, mode)
    }

    /// A handle of the keyspace of this name, as [`Database::keyspace`] gives one.
    pub fn keyspace<R: Wait>(
        &self,
        rt: &R,
        name: &str,
        options: KeyspaceCreateOptions,
    ) -> Result<TxKeyspace<D, K>> {
        let database = self.inner.clone()?;
        let keyspace = self.inner.keyspace(rt, name, options)?;
        Ok(TxKeyspace::new(database, keyspace))
    }

    /// How many keyspaces live.
    pub fn keyspace_count<R: Wait>(&self, rt: &R) -> Result<usize> {
        self.inner.keyspace_count(rt)
    }

    /// The names of the keyspaces that live, sorted.
    pub fn list_keyspace_names<R: Wait>(&self, rt: &R) -> Result<Vec<String>> {
        self.inner.list_keyspace_names(rt)
    }

    /// Whether a keyspace of this name lives.
    pub fn keyspace_exists<R: Wait>(&self, rt: &R, name: &str) -> Result<bool> {
        self.inner.keyspace_exists(rt, name)
    }

    /// How many bytes the memtables count for.
    pub fn write_buffer_size<R: Wait>(&self, rt: &R) -> Result<u64> {
        self.inner.write_buffer_size(rt)
    }

    /// How many journals there are, the active one among them.
    pub fn journal_count<R: Wait>(&self, rt: &R) -> Result<usize> {
        self.inner.journal_count(rt)
    }

    /// How many bytes all journals and the tables of all keyspaces that live have.
    pub fn disk_space<R: Wait>(&self, rt: &R) -> Result<u64> {
        self.inner.disk_space(rt)
    }
}
