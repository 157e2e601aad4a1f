//! Databases.

ghost use Rattle.std.specs.Prelude.{◌≡◌};

use crate::batch::OwnedWriteBatch;
use crate::builder::DatabaseBuilder;
use crate::inner::Inner;
use crate::keyspace::{Keyspace, Owner};
use crate::snapshot::{Snapshot, open_snapshot};
use crate::temporary::remove_all;
use crate::transaction::{Kind, WriteTransaction, begin};
use fjall_base::{Disk, Error, Result, Slice};
use fjall_disk_folder::FolderDisk;
use fjall_options::KeyspaceCreateOptions;
use fjall_reading::Identified;
use fjall_shared::{Flag, PersistMode, Shared};
use std::alloc::{AllocError, Global};
use std::sync::{Arc, Wait};
use std::thread::Threads;
use std::{mem, result};

/// A database, which threads share by clones of its handle: many keyspaces over one journal.
///
/// Its workers run until it is closed. Once it is, each call that takes the lock answers `Poisoned`.
pub struct Database<D: Disk + Drop = FolderDisk> {
    pub(crate) inner: Arc<Inner<D>, Global>,
}

// Written out, so that no crate above proves the drop of what it owns anew.
impl<D: Disk + Drop> Drop for Database<D> {
    fn drop(self) {
        let Database { inner: _ } = self;
    }
}

impl<D: Disk + Drop> Database<D> {
    /// Settings of a database in this folder, with which it is opened.
    pub fn builder(alloc: Global, path: &str) -> Result<DatabaseBuilder<Database<D>>> {
        DatabaseBuilder::new(alloc, path)
    }

    /// Another handle of the database.
    pub fn clone(&self) -> result::Result<Database<D>, AllocError> {
        Ok(Database {
            inner: Arc::try_clone(&self.inner)?,
        })
    }

    /// Ends the workers, writes the journal out, syncs it, and gives the disk back. A temporary database then removes all that it has.
    ///
    /// Refusals: `Poisoned` and `Io`, with the disk; without it `Poisoned`, where it was closed by another handle.
    pub fn close<R: Threads + Wait>(self, rt: &R) -> (Option<D>, Result<()>) {
        self.inner.pool.join(rt);
        let taken = mem::take(&mut *self.inner.lock.lock(rt));
        self.inner.moves.tell(rt);
        let Some(shared) = taken else {
            return (None, Err(Error::Poisoned));
        };
        let mut shared = shared;
        shared.collect();
        let (mut disk, closed) = Box::into_inner(shared).into_core().close();
        if !self.inner.settings.temporary {
            return (Some(disk), closed);
        }
        let removed = remove_all(self.inner.alloc, &mut disk);
        (Some(disk), removed)
    }

    /// Opens a snapshot.
    pub fn snapshot<R: Wait>(&self, rt: &R) -> Result<Snapshot<D>> {
        open_snapshot(rt, &self.inner, None)
    }

    /// A batch of no writes yet, persisted as the database is.
    pub fn batch(&self) -> Result<OwnedWriteBatch<D>> {
        let mode = if self.inner.settings.manual_journal_persist {
            None
        } else {
            Some(PersistMode::Buffer)
        };
        OwnedWriteBatch::new(&self.inner, 0, mode)
    }

    /// A batch of no writes yet, with memory for so many and without a mode.
    pub fn batch_with_capacity(&self, capacity: usize) -> Result<OwnedWriteBatch<D>> {
        OwnedWriteBatch::new(&self.inner, capacity, None)
    }

    /// Begins a transaction. Refusals: `TransactionOpen`, where another one of the single writer's is open, `NumbersUsedUp`, `OutOfMemory`.
    pub fn begin<R: Wait, K: Kind>(&self, rt: &R) -> Result<WriteTransaction<D, K>> {
        begin(rt, &self.inner)
    }

    /// Writes the journal's buffer out and, in the two sync modes, syncs the journal: what was accepted before is safe then.
    pub fn persist<R: Wait>(&self, rt: &R, mode: PersistMode) -> Result<()> {
        let mut guard = self.inner.lock.lock(rt);
        let Some(shared) = &mut *guard else {
            return Err(Error::Poisoned);
        };
        shared.persist(mode)
    }

    /// A handle of the keyspace of this name, which is made with these options where none has it.
    ///
    /// Refusals: `InvalidName` unless the name has 1 to 255 bytes; and where it is made `Poisoned`, `NumbersUsedUp`, `OutOfMemory`, `Io`.
    pub fn keyspace<R: Wait>(
        &self,
        rt: &R,
        name: &str,
        options: KeyspaceCreateOptions,
    ) -> Result<Keyspace<D>> {
        let alloc = self.inner.alloc;
        let inner = Arc::try_clone(&self.inner)?;
        let (flag, raiser) = Flag::new(alloc)?;
        let text = String::from_str(alloc, name)?;
        let own_name = Slice::new(alloc, name.as_bytes())?;
        let id = {
            let mut guard = self.inner.lock.lock(rt);
            let Some(shared) = &mut *guard else {
                return Err(Error::Poisoned);
            };
            shared.collect();
            let id = shared.keyspace(name.as_bytes(), options)?;
            hold(shared, id, flag)?;
            id
        };
        let owner = Owner {
            inner,
            id,
            name: text,
            path: format!(in alloc; "keyspaces/{id}")?,
            raiser,
        };
        Ok(Keyspace::new(own_name, Arc::new(alloc, owner)?))
    }

    /// Deletes a keyspace. Other handles of it read what it held last; its folder is removed with the last of them, at once where there is no
    /// other.
    pub fn delete_keyspace<R: Wait>(&self, rt: &R, keyspace: Keyspace<D>) -> Result<()> {
        let id = keyspace.id();
        let mut guard = self.inner.lock.lock(rt);
        let Some(shared) = &mut *guard else {
            return Err(Error::Poisoned);
        };
        let deleted = shared.delete_keyspace(id);
        drop(keyspace);
        shared.collect();
        deleted
    }
}

// Counts a handle of a keyspace, which is released once the flag is raised.
fn hold<D: Disk>(shared: &mut Shared<D>, id: u64, flag: Flag) -> Result<()> {
    shared.retain(id)?;
    if shared.watch_handle(id, flag).is_err() {
        let _ = shared.release(id);
        return Err(Error::OutOfMemory);
    }
    Ok(())
}

/// Counts.
impl<D: Disk + Drop> Database<D> {
    /// How many keyspaces live.
    pub fn keyspace_count<R: Wait>(&self, rt: &R) -> Result<usize> {
        let mut guard = self.inner.lock.lock(rt);
        let Some(shared) = &mut *guard else {
            return Err(Error::Poisoned);
        };
        Ok(shared.keyspace_count())
    }

    /// The names of the keyspaces that live, sorted.
    pub fn list_keyspace_names<R: Wait>(&self, rt: &R) -> Result<Vec<String>> {
        let alloc = self.inner.alloc;
        let listed = {
            let mut guard = self.inner.lock.lock(rt);
            let Some(shared) = &mut *guard else {
                return Err(Error::Poisoned);
            };
            shared.list_keyspace_names()?
        };
        let mut names = Vec::with_capacity(alloc, listed.len())?;
        for name in listed {
            let text = str::from_utf8(name.as_slice()).unwrap_or("");
            names.push(String::from_str(alloc, text)?)?;
        }
        Ok(names)
    }

    /// Whether a keyspace of this name lives.
    pub fn keyspace_exists<R: Wait>(&self, rt: &R, name: &str) -> Result<bool> {
        let mut guard = self.inner.lock.lock(rt);
        let Some(shared) = &mut *guard else {
            return Err(Error::Poisoned);
        };
        Ok(shared.keyspace_exists(name.as_bytes()))
    }

    /// How many journals there are, the active one among them.
    pub fn journal_count<R: Wait>(&self, rt: &R) -> Result<usize> {
        let mut guard = self.inner.lock.lock(rt);
        let Some(shared) = &mut *guard else {
            return Err(Error::Poisoned);
        };
        Ok(shared.journal_count())
    }

    /// How many bytes the journals' files have.
    pub fn journal_disk_space<R: Wait>(&self, rt: &R) -> Result<u64> {
        let mut guard = self.inner.lock.lock(rt);
        let Some(shared) = &mut *guard else {
            return Err(Error::Poisoned);
        };
        Ok(shared.journal_disk_space())
    }

    /// How many bytes all journals and the tables of all keyspaces that live have.
    pub fn disk_space<R: Wait>(&self, rt: &R) -> Result<u64> {
        let mut guard = self.inner.lock.lock(rt);
        let Some(shared) = &mut *guard else {
            return Err(Error::Poisoned);
        };
        Ok(shared.disk_space(None))
    }

    /// How many bytes the memtables count for.
    pub fn write_buffer_size<R: Wait>(&self, rt: &R) -> Result<u64> {
        let mut guard = self.inner.lock.lock(rt);
        let Some(shared) = &mut *guard else {
            return Err(Error::Poisoned);
        };
        Ok(shared.write_buffer_size())
    }

    /// How many keyspaces have a sealed memtable that no flush that is out takes.
    pub fn outstanding_flushes<R: Wait>(&self, rt: &R) -> Result<usize> {
        let mut guard = self.inner.lock.lock(rt);
        let Some(shared) = &mut *guard else {
            return Err(Error::Poisoned);
        };
        Ok(shared.outstanding_flushes())
    }

    /// How many merges are out.
    pub fn active_compactions<R: Wait>(&self, rt: &R) -> Result<usize> {
        let mut guard = self.inner.lock.lock(rt);
        let Some(shared) = &mut *guard else {
            return Err(Error::Poisoned);
        };
        Ok(shared.active_compactions())
    }

    /// How many merges took effect since the database was opened.
    pub fn compactions_completed<R: Wait>(&self, rt: &R) -> Result<u64> {
        let mut guard = self.inner.lock.lock(rt);
        let Some(shared) = &mut *guard else {
            return Err(Error::Poisoned);
        };
        Ok(shared.compactions_completed())
    }

    /// The number of the next command.
    pub fn seqno<R: Wait>(&self, rt: &R) -> Result<u64> {
        let mut guard = self.inner.lock.lock(rt);
        let Some(shared) = &mut *guard else {
            return Err(Error::Poisoned);
        };
        Ok(shared.seqno())
    }

    /// The visible number: snapshots show what was accepted under numbers below it.
    pub fn visible_seqno<R: Wait>(&self, rt: &R) -> Result<u64> {
        let mut guard = self.inner.lock.lock(rt);
        let Some(shared) = &mut *guard else {
            return Err(Error::Poisoned);
        };
        Ok(shared.visible_seqno())
    }

    /// How many snapshots and transactions are open. Those whose handles are gone are closed first.
    pub fn open_snapshots<R: Wait>(&self, rt: &R) -> Result<u64> {
        let mut guard = self.inner.lock.lock(rt);
        let Some(shared) = &mut *guard else {
            return Err(Error::Poisoned);
        };
        shared.collect_tickets();
        Ok(shared.open_snapshots())
    }
}
