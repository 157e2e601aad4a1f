//! Batches of writes to a database.

use crate::inner::Inner;
use fjall_base::{Disk, Result, Slice, check_item};
use fjall_disk_folder::FolderDisk;
use fjall_reading::{Identified, OwnedWriteBatch as Writes};
use fjall_shared::PersistMode;
use std::alloc::Global;
use std::ops::Deref;
use std::sync::{Arc, Wait};

/// A batch of writes to keyspaces of a database, which [`commit`](OwnedWriteBatch::commit) makes all at once, or none. Looks at it are those
/// of [`Writes`].
pub struct OwnedWriteBatch<D: Disk + Drop = FolderDisk> {
    inner: Arc<Inner<D>, Global>,
    writes: Writes<()>,
}

// Written out, so that no crate above proves the drop of what it owns anew.
impl<D: Disk + Drop> Drop for OwnedWriteBatch<D> {
    fn drop(self) {
        let OwnedWriteBatch {
            inner: _,
            writes: _,
        } = self;
    }
}

impl<D: Disk + Drop> OwnedWriteBatch<D> {
    pub(crate) fn new(
        inner: &Arc<Inner<D>, Global>,
        capacity: usize,
        mode: Option<PersistMode>,
    ) -> Result<OwnedWriteBatch<D>> {
        let writes = Writes::with_capacity(inner.alloc, (), capacity)?;
        Ok(OwnedWriteBatch {
            inner: Arc::try_clone(inner)?,
            writes: writes.durability(mode),
        })
    }

    /// Gives a key of a keyspace a value.
    ///
    /// Refusals, after which the batch is as before: `KeyEmpty`, `KeyTooLong` above 65,535 bytes, `ValueTooLong` above 4,294,967,295,
    /// `TooManyItems` where it has 4,294,967,295 items, `OutOfMemory`.
    pub fn insert<I: Identified>(&mut self, keyspace: &I, key: &[u8], value: &[u8]) -> Result<()> {
        self.writes.insert_copied(keyspace, key, value)
    }

    /// Takes a key of a keyspace and its value away. It is refused as [`insert`](OwnedWriteBatch::insert) is.
    pub fn remove<I: Identified>(&mut self, keyspace: &I, key: &[u8]) -> Result<()> {
        check_item(key, &[])?;
        let key = Slice::new(self.inner.alloc, key)?;
        self.writes.remove(keyspace, key)
    }

    /// Acts as [`remove`](OwnedWriteBatch::remove); the journal alone tells the two apart.
    pub fn remove_weak<I: Identified>(&mut self, keyspace: &I, key: &[u8]) -> Result<()> {
        check_item(key, &[])?;
        let key = Slice::new(self.inner.alloc, key)?;
        self.writes.remove_weak(keyspace, key)
    }

    /// With this mode, or with none: how far what the batch writes is brought before its commit returns.
    pub fn durability(self, mode: Option<PersistMode>) -> OwnedWriteBatch<D> {
        let OwnedWriteBatch { inner, writes } = self;
        OwnedWriteBatch {
            inner,
            writes: writes.durability(mode),
        }
    }

    /// Makes all writes of the batch, as one command. A batch without items is Ok, also once the database is poisoned.
    ///
    /// Refusals: `UnknownKeyspace`, `KeyspaceDeleted`, `Poisoned`, `NumbersUsedUp`, `OutOfMemory`, `Io`.
    pub fn commit<R: Wait>(self, rt: &R) -> Result<()> {
        let OwnedWriteBatch { inner, writes } = self;
        let mode = writes.mode();
        inner.commit_items(rt, writes.into_items(), mode)
    }
}

impl<D: Disk + Drop> Deref for OwnedWriteBatch<D> {
    type Target = Writes<()>;

    fn deref(&self) -> &Writes<()> {
        &self.writes
    }
}
