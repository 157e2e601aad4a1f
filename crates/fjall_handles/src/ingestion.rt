//! Bulk writes to a keyspace.

use crate::keyspace::Keyspace;
use fjall_base::{Disk, Error, Result, Slice, check_item};
use fjall_disk_folder::FolderDisk;
use fjall_reading::{Identified, Ingestion as Items};
use fjall_workers::WorkerMessage;
use std::ops::Deref;
use std::sync::Wait;

/// A bulk write to a keyspace, key by key, upwards. Looks at it are those of [`Items`].
pub struct Ingestion<'a, D: Disk + Drop = FolderDisk> {
    keyspace: &'a Keyspace<D>,
    items: Items<()>,
}

// Written out, so that no crate above proves the drop of what it owns anew.
impl<D: Disk + Drop> Drop for Ingestion<'_, D> {
    fn drop(self) {
        let Ingestion {
            keyspace: _,
            items: _,
        } = self;
    }
}

impl<'a, D: Disk + Drop> Ingestion<'a, D> {
    pub(crate) fn new(keyspace: &'a Keyspace<D>) -> Ingestion<'a, D> {
        Ingestion {
            keyspace,
            items: Items::new(keyspace.inner().alloc, ()),
        }
    }

    /// Gives a key, above all that it has, a value.
    ///
    /// Refusals, after which it is as before and goes on: `KeyEmpty`, `KeyTooLong` above 65,535 bytes, `ValueTooLong` above 4,294,967,295,
    /// `KeyOrder` where the key is not above the last one that was taken, `OutOfMemory`.
    pub fn write(&mut self, key: &[u8], value: &[u8]) -> Result<()> {
        check_item(key, value)?;
        let alloc = self.keyspace.inner().alloc;
        let (key, value) = (Slice::new(alloc, key)?, Slice::new(alloc, value)?);
        self.items.write(key, value)
    }

    /// Takes a key, above all that it has, and its value away. It is refused as [`write`](Ingestion::write) is.
    pub fn write_tombstone(&mut self, key: &[u8]) -> Result<()> {
        check_item(key, &[])?;
        let key = Slice::new(self.keyspace.inner().alloc, key)?;
        self.items.write_tombstone(key)
    }

    /// Acts as [`write_tombstone`](Ingestion::write_tombstone); the item alone tells the two apart.
    pub fn write_weak_tombstone(&mut self, key: &[u8]) -> Result<()> {
        check_item(key, &[])?;
        let key = Slice::new(self.keyspace.inner().alloc, key)?;
        self.items.write_weak_tombstone(key)
    }

    /// Puts all items into the keyspace, as one command and one table. One without items is Ok, also once the database is poisoned.
    ///
    /// Refusals: `UnknownKeyspace`, `KeyspaceDeleted`, `Poisoned`, `TooManyItems`, `NumbersUsedUp`, `OutOfMemory`, `Io`.
    pub fn finish<R: Wait>(self, rt: &R) -> Result<()> {
        let Ingestion { keyspace, items } = self;
        let is_empty = items.is_empty();
        let items = items.into_items();
        let inner = keyspace.inner();
        let id = keyspace.id();
        {
            let mut guard = inner.lock.lock(rt);
            let Some(shared) = &mut *guard else {
                return Err(Error::Poisoned);
            };
            shared.ingest(id, items)?
        };
        if !is_empty && inner.settings.workers > 0 {
            let _ = inner.pool.queue().send(rt, WorkerMessage::Compact(id));
        }
        Ok(())
    }
}

impl<'a, D: Disk + Drop> Deref for Ingestion<'a, D> {
    type Target = Items<()>;

    fn deref(&self) -> &Items<()> {
        &self.items
    }
}
