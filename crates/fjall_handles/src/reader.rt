//! A database that is read, with the lock for each read.

ghost use Rattle.std.specs.Prelude.{⊤};

use crate::inner::Inner;
use fjall_base::{Disk, Error, KvPair, Result, UserValue};
use fjall_reading::{Identified, KeyRange, Pages, Readable};
use fjall_shared::View;
use std::alloc::Global;
use std::sync::Wait;

/// A database, read at its present or in a snapshot: each read takes the lock, and one of many pairs takes it for each page, of 32 pairs at first and then of up to 512.
///
/// Refusals of each read: `SnapshotClosed`, `UnknownKeyspace`, `KeyspaceDeleted`, `OutOfMemory`, `Io` where the disk fails, which poisons
/// nothing, `Storage(TableDamaged)` where it comes to a block of a table that is wrong; `Poisoned` once the database is closed.
#[derive(Drop)]
pub struct Reader<'a, R: Wait, D: Disk + Drop> {
    rt: &'a R,
    inner: &'a Inner<D>,
    view: View,
}

impl<'a, R: Wait, D: Disk + Drop> Reader<'a, R, D> {
    pub(crate) fn new(rt: &'a R, inner: &'a Inner<D>, view: View) -> Reader<'a, R, D> {
        Reader { rt, inner, view }
    }
}

impl<'a, R: Wait, D: Disk + Drop> Pages for Reader<'a, R, D> {
    // Another thread may change what it shows between two reads.
    ghost shows = { λ reader id map. ⊥ };

    ghost reads = { λ old id error new. ⊤ };

    ghost paging = { λ old id error new. ⊤ };

    fn alloc(&self) -> Global {
        self.inner.alloc
    }

    fn page(&mut self, id: u64, range: &KeyRange, back: bool, max: usize) -> Result<Vec<KvPair>> {
        let view = self.view;
        let mut guard = self.inner.lock.lock(self.rt);
        let Some(shared) = &mut *guard else {
            return Err(Error::Poisoned);
        };
        shared.page_at(view, id, range, back, max)
    }

    ghost reads_none = { λ reader id. tt };

    ghost reads_on = { λ old mid new first id error before then. tt };

    ghost reads_short = { λ old new id reads. tt };

    ghost paging_none = { λ reader id. tt };

    ghost paging_on = { λ old mid new first id error before then. tt };

    ghost paging_short = { λ old new id pages. tt };

    ghost paging_reads = { λ old new id error pages. tt };
}

impl<'a, R: Wait, D: Disk + Drop> Readable for Reader<'a, R, D> {
    fn get<K: Identified>(&mut self, keyspace: &K, key: &[u8]) -> Result<Option<UserValue>> {
        let view = self.view;
        let id = keyspace.id();
        let mut guard = self.inner.lock.lock(self.rt);
        let Some(shared) = &mut *guard else {
            return Err(Error::Poisoned);
        };
        shared.get_at(view, id, key)
    }
}
