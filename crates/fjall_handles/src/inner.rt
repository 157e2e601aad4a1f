//! What all handles of a database share.

use fjall_base::{Disk, Error, Result};
use fjall_shared::{BatchItem, PersistMode, Shared};
use fjall_workers::{Moves, WorkerPool};
use std::alloc::Global;
use std::sync::atomic::AtomicBool;
use std::sync::atomic::Ordering::SeqCst;
use std::sync::{Mutex, Wait};

/// The settings of a database that its handles look at.
#[derive(Clone, Copy, Debug)]
pub(crate) struct Settings {
    /// How many workers it has.
    pub workers: usize,
    /// How many bytes its journals may have together before writers wait for what holds them back.
    pub max_journaling_size: u64,
    /// Whether batches and transactions have no mode unless they are given one.
    pub manual_journal_persist: bool,
    /// Whether closing it removes all that it has.
    pub temporary: bool,
}

/// What all handles of a database share: its engine behind a lock, which holds nothing once the database is closed, and its workers. No
/// thread waits for anything else while it has the lock.
pub(crate) struct Inner<D: Disk + Drop> {
    pub alloc: Global,
    pub lock: Mutex<Option<Box<Shared<D>>>>,
    pub pool: WorkerPool,
    pub moves: Moves,
    pub settings: Settings,
    // A worker met a fault of the disk, or a poisoned engine: nothing is waited for any more.
    pub halted: AtomicBool,
    // The last merge was refused, as where a block of a table is wrong: merges aren't waited for.
    pub unmerged: AtomicBool,
}

// Written out, so that no crate above proves the drop of what it owns anew.
impl<D: Disk + Drop> Drop for Inner<D> {
    fn drop(self) {
        let Inner {
            alloc: _,
            lock: _,
            pool: _,
            moves: _,
            settings: _,
            halted: _,
            unmerged: _,
        } = self;
    }
}

impl<D: Disk + Drop> Inner<D> {
    /// Commits items as one command, and then has workers do what is due.
    pub fn commit_items<R: Wait>(
        &self,
        rt: &R,
        items: Vec<BatchItem>,
        mode: Option<PersistMode>,
    ) -> Result<()> {
        let written = keyspaces_of(self.alloc, &items);
        {
            let mut guard = self.lock.lock(rt);
            let Some(shared) = &mut *guard else {
                return Err(Error::Poisoned);
            };
            shared.commit_batch(items, mode)?
        };
        self.settle_all(rt, &written);
        Ok(())
    }

    /// Whether a worker could go on no more.
    pub fn is_halted(&self) -> bool {
        self.halted.load(SeqCst)
    }
}

// The keyspaces of items, each once; as many as memory was found for, since nothing but what workers are told rests on them.
fn keyspaces_of(alloc: Global, items: &[BatchItem]) -> Vec<u64> {
    let mut found = Vec::new(alloc);
    for item in items {
        if !found.contains(&item.0) && found.push(item.0).is_err() {
            break;
        }
    }
    found
}
