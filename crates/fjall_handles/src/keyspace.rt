//! Handles of keyspaces.

ghost use Rattle.std.specs.Prelude.{◌≡◌};
ghost use Rattle.std.specs.Arc.{arc_value};

use crate::ingestion::Ingestion;
use crate::inner::Inner;
use crate::iter::Iter;
use crate::needs::Needs;
use crate::reader::Reader;
use crate::snapshot::open_snapshot;
use fjall_base::{Disk, Error, KeyBounds, Result, Slice, UserValue, check_item};
use fjall_disk_folder::FolderDisk;
use fjall_reading::{Guard, Identified, KeyRange, Readable, prefix_to_range, range_of};
use fjall_shared::{Raiser, View};
use fjall_workers::{Bench, OpenGate, WorkerMessage, serve};
use std::alloc::{AllocError, Global};
use std::ops::Bound;
use std::result;
use std::sync::{Arc, Wait};

// What the clones of a handle share. With the last of them it is dropped, and raises its flag: the next who collects releases the keyspace.
pub(crate) struct Owner<D: Disk + Drop> {
    pub inner: Arc<Inner<D>, Global>,
    pub id: u64,
    pub name: String,
    pub path: String,
    pub raiser: Raiser,
}

// Written out, so that no crate above proves the drop of what it owns anew.
impl<D: Disk + Drop> Drop for Owner<D> {
    fn drop(self) {
        let Owner {
            inner: _,
            id: _,
            name: _,
            path: _,
            raiser: _,
        } = self;
    }
}

/// A handle of a keyspace, which threads share by its clones. It reaches the keyspace that it was made for alone, also where that is deleted and
/// another one has its name.
///
/// Refusals of each write: `KeyEmpty`, `KeyTooLong` above 65,535 bytes, `ValueTooLong` above 4,294,967,295, `KeyspaceDeleted`, `Poisoned`,
/// `NumbersUsedUp`, `OutOfMemory`, `Io` after which the database is poisoned.
///
/// Handles are equal, and have one hash, where their names are equal.
#[derive_where(PartialEq, Eq, Hash, Debug)]
pub struct Keyspace<D: Disk + Drop = FolderDisk> {
    name: Slice,
    #[derive_where(skip)]
    owner: Arc<Owner<D>, Global>,
}

// Written out, so that no crate above proves the drop of what it owns anew.
impl<D: Disk + Drop> Drop for Keyspace<D> {
    fn drop(self) {
        let Keyspace { name: _, owner: _ } = self;
    }
}

impl<D: Disk + Drop> Identified for Keyspace<D> {
    ghost identity = { λ keyspace. (arc_value keyspace.owner).id };

    fn id(&self) -> u64 {
        self.owner.id
    }
}

impl<D: Disk + Drop> Keyspace<D> {
    /// A handle of a keyspace of this name.
    pub(crate) fn new(name: Slice, owner: Arc<Owner<D>, Global>) -> Keyspace<D> {
        Keyspace { name, owner }
    }

    pub(crate) fn inner(&self) -> &Inner<D> {
        &*self.owner.inner
    }

    /// Another handle of the keyspace.
    pub fn clone(&self) -> result::Result<Keyspace<D>, AllocError> {
        Ok(Keyspace {
            name: self.name.clone()?,
            owner: Arc::try_clone(&self.owner)?,
        })
    }

    /// The keyspace's name.
    pub fn name(&self) -> &str {
        self.owner.name.as_str()
    }

    /// The keyspace's folder, below that of the database: `keyspaces/ID`.
    pub fn path(&self) -> &str {
        self.owner.path.as_str()
    }

    /// What it holds, to be read; each read by itself shows what is accepted then.
    pub fn at<'a, R: Wait>(&'a self, rt: &'a R) -> Reader<'a, R, D> {
        Reader::new(rt, self.inner(), View::Present)
    }
}

/// Writes.
impl<D: Disk + Drop> Keyspace<D> {
    /// Gives a key a value. Where workers lag behind, it waits for them once it has written.
    pub fn insert<R: Wait>(&self, rt: &R, key: &[u8], value: &[u8]) -> Result<()> {
        check_item(key, value)?;
        let id = self.owner.id;
        let most = self.inner().settings.max_journaling_size;
        let needs = {
            let mut guard = self.inner().lock.lock(rt);
            let Some(shared) = &mut *guard else {
                return Err(Error::Poisoned);
            };
            let done = shared.insert(id, key, value);
            Needs::behind(done, shared, id, most)?
        };
        self.inner().settle(rt, id, needs);
        Ok(())
    }

    /// Takes a key and its value away.
    pub fn remove<R: Wait>(&self, rt: &R, key: &[u8]) -> Result<()> {
        check_item(key, &[])?;
        let id = self.owner.id;
        let most = self.inner().settings.max_journaling_size;
        let needs = {
            let mut guard = self.inner().lock.lock(rt);
            let Some(shared) = &mut *guard else {
                return Err(Error::Poisoned);
            };
            let done = shared.remove(id, key);
            Needs::behind(done, shared, id, most)?
        };
        self.inner().settle(rt, id, needs);
        Ok(())
    }

    /// Acts as [`remove`](Keyspace::remove); the journal alone tells the two apart.
    pub fn remove_weak<R: Wait>(&self, rt: &R, key: &[u8]) -> Result<()> {
        check_item(key, &[])?;
        let id = self.owner.id;
        let most = self.inner().settings.max_journaling_size;
        let needs = {
            let mut guard = self.inner().lock.lock(rt);
            let Some(shared) = &mut *guard else {
                return Err(Error::Poisoned);
            };
            let done = shared.remove_weak(id, key);
            Needs::behind(done, shared, id, most)?
        };
        self.inner().settle(rt, id, needs);
        Ok(())
    }

    /// Takes all keys away.
    pub fn clear<R: Wait>(&self, rt: &R) -> Result<()> {
        let id = self.owner.id;
        let most = self.inner().settings.max_journaling_size;
        let needs = {
            let mut guard = self.inner().lock.lock(rt);
            let Some(shared) = &mut *guard else {
                return Err(Error::Poisoned);
            };
            let done = shared.clear(id);
            Needs::behind(done, shared, id, most)?
        };
        self.inner().settle(rt, id, needs);
        Ok(())
    }

    /// A bulk write, whose keys ascend: nothing of it is there before [`finish`](Ingestion::finish), and then all of it.
    pub fn start_ingestion(&self) -> Ingestion<'_, D> {
        Ingestion::new(self)
    }
}

/// Reads, each as that of a [`Reader`].
impl<D: Disk + Drop> Keyspace<D> {
    /// The value of a key, where it has one.
    pub fn get<R: Wait>(&self, rt: &R, key: &[u8]) -> Result<Option<UserValue>> {
        self.at(rt).get(self, key)
    }

    /// Whether a key has a value.
    pub fn contains_key<R: Wait>(&self, rt: &R, key: &[u8]) -> Result<bool> {
        self.at(rt).contains_key(self, key)
    }

    /// How many bytes the value of a key has, where it has one.
    pub fn size_of<R: Wait>(&self, rt: &R, key: &[u8]) -> Result<Option<u32>> {
        self.at(rt).size_of(self, key)
    }

    /// The pair with the first key, or the fault that the read met.
    pub fn first_key_value<R: Wait>(&self, rt: &R) -> Option<Guard> {
        self.at(rt).first_key_value(self)
    }

    /// The pair with the last key, or the fault that the read met.
    pub fn last_key_value<R: Wait>(&self, rt: &R) -> Option<Guard> {
        self.at(rt).last_key_value(self)
    }

    /// How many pairs it has, counted in a snapshot.
    pub fn len<R: Wait>(&self, rt: &R) -> Result<usize> {
        open_snapshot(rt, &self.owner.inner, None)?.at(rt).len(self)
    }

    /// Whether it has no pair.
    pub fn is_empty<R: Wait>(&self, rt: &R) -> Result<bool> {
        self.at(rt).is_empty(self)
    }

    // The pairs of a range, or of what refused to make it.
    fn pairs<'a, R: Wait>(&self, rt: &'a R, range: Result<KeyRange>) -> Iter<'a, R, D> {
        let snapshot = open_snapshot(rt, &self.owner.inner, None);
        Iter::new(rt, self.inner().alloc, self.owner.id, snapshot, range)
    }

    /// All pairs, in the order of their keys, in a snapshot of their own.
    pub fn iter<'a, R: Wait>(&self, rt: &'a R) -> Iter<'a, R, D> {
        self.pairs(rt, Ok((Bound::Unbounded, Bound::Unbounded)))
    }

    /// The pairs whose keys lie between the bounds, in a snapshot of their own. Between reversed bounds lies none.
    pub fn range<'a, R: Wait>(&self, rt: &'a R, range: KeyBounds<'_>) -> Iter<'a, R, D> {
        self.pairs(rt, range_of(self.inner().alloc, range))
    }

    /// The pairs whose keys begin with the prefix, in a snapshot of their own.
    pub fn prefix<'a, R: Wait>(&self, rt: &'a R, prefix: &[u8]) -> Iter<'a, R, D> {
        self.pairs(rt, prefix_to_range(self.inner().alloc, prefix))
    }
}

/// Memtables and tables.
impl<D: Disk + Drop> Keyspace<D> {
    /// Seals the active memtable, and has workers flush it; false where it holds nothing.
    pub fn rotate_memtable<R: Wait>(&self, rt: &R) -> Result<bool> {
        let id = self.owner.id;
        let sealed = {
            let mut guard = self.inner().lock.lock(rt);
            let Some(shared) = &mut *guard else {
                return Err(Error::Poisoned);
            };
            shared.collect();
            shared.rotate_memtable(id)?
        };
        if sealed {
            let _ = self.inner().pool.queue().send_flush(rt, id);
        }
        Ok(sealed)
    }

    /// Seals the active memtable and, where it held something, waits until no sealed memtable is left. Without workers it flushes itself.
    ///
    /// Refusals: those of [`rotate_memtable`](Keyspace::rotate_memtable), and `Poisoned` where workers can go on no more.
    pub fn rotate_memtable_and_wait<R: Wait>(&self, rt: &R) -> Result<()> {
        if !self.rotate_memtable(rt)? {
            return Ok(());
        }
        let inner = self.inner();
        let id = self.owner.id;
        for _ in rt.forever() {
            let seen = inner.moves.now(rt);
            let sealed = {
                let mut guard = inner.lock.lock(rt);
                let Some(shared) = &mut *guard else {
                    return Err(Error::Poisoned);
                };
                shared.sealed_memtable_count(id)
            };
            if sealed == 0 {
                return Ok(());
            }
            if inner.is_halted() {
                return Err(Error::Poisoned);
            }
            let _ = inner.pool.queue().send_flush(rt, id);
            if inner.settings.workers == 0 {
                serve(rt, inner, &OpenGate, WorkerMessage::Flush);
            } else {
                inner.moves.wait_past(rt, seen);
            }
        }
        unreachable!()
    }

    /// Merges all tables into one level; Ok where there is none, and where a merge is out.
    pub fn major_compact<R: Wait>(&self, rt: &R) -> Result<()> {
        self.inner().major_compact(rt, self.owner.id)
    }

    /// How many versions its memtables and tables have: never less than [`len`](Keyspace::len) counts.
    pub fn approximate_len<R: Wait>(&self, rt: &R) -> Result<u64> {
        let id = self.owner.id;
        let mut guard = self.inner().lock.lock(rt);
        let Some(shared) = &mut *guard else {
            return Err(Error::Poisoned);
        };
        Ok(shared.approximate_len(id))
    }

    /// How many tables it has.
    pub fn table_count<R: Wait>(&self, rt: &R) -> Result<usize> {
        let id = self.owner.id;
        let mut guard = self.inner().lock.lock(rt);
        let Some(shared) = &mut *guard else {
            return Err(Error::Poisoned);
        };
        Ok(shared.table_count(id))
    }

    /// How many tables stand at level 0, where flushes put them.
    pub fn l0_table_count<R: Wait>(&self, rt: &R) -> Result<usize> {
        let id = self.owner.id;
        let mut guard = self.inner().lock.lock(rt);
        let Some(shared) = &mut *guard else {
            return Err(Error::Poisoned);
        };
        Ok(shared.l0_table_count(id))
    }

    /// How many sealed memtables wait to be flushed.
    pub fn sealed_memtable_count<R: Wait>(&self, rt: &R) -> Result<usize> {
        let id = self.owner.id;
        let mut guard = self.inner().lock.lock(rt);
        let Some(shared) = &mut *guard else {
            return Err(Error::Poisoned);
        };
        Ok(shared.sealed_memtable_count(id))
    }

    /// How many bytes the files of its tables have.
    pub fn disk_space<R: Wait>(&self, rt: &R) -> Result<u64> {
        let id = self.owner.id;
        let mut guard = self.inner().lock.lock(rt);
        let Some(shared) = &mut *guard else {
            return Err(Error::Poisoned);
        };
        Ok(shared.disk_space(Some(id)))
    }
}
