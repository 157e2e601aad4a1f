//! What is due behind a write, and how writers wait for it.

use crate::inner::Inner;
use fjall_base::{Disk, Error, Result};
use fjall_shared::Shared;
use fjall_workers::WorkerMessage;
use std::sync::Wait;
use std::sync::atomic::Ordering::SeqCst;

/// So many sealed memtables of a keyspace make its writers wait for a flush.
const MOST_SEALED: usize = 4;

/// So many tables of a keyspace at level 0 make its writers wait for a merge.
const MOST_TABLES: usize = 20;

/// What is due behind a write to a keyspace.
#[derive(Clone, Copy, Debug)]
pub(crate) struct Needs {
    /// Its active memtable is larger than it may be.
    rotation: bool,
    /// The journals are longer together than they may be.
    eviction: bool,
    /// It has more sealed memtables than it may.
    flush: bool,
    /// It has more tables at level 0 than it may.
    merge: bool,
}

impl Needs {
    /// What is due in a keyspace, where the journals may have so many bytes.
    pub fn of<D: Disk>(shared: &Shared<D>, id: u64, most: u64) -> Needs {
        Needs {
            rotation: shared.wants_rotation(id),
            eviction: shared.journal_disk_space() > most,
            flush: shared.sealed_memtable_count(id) >= MOST_SEALED,
            merge: shared.l0_table_count(id) >= MOST_TABLES,
        }
    }

    /// What is due behind a write that is done.
    pub fn behind<D: Disk>(
        done: Result<()>,
        shared: &Shared<D>,
        id: u64,
        most: u64,
    ) -> Result<Needs> {
        done?;
        Ok(Needs::of(shared, id, most))
    }

    fn is_any(self) -> bool {
        self.rotation || self.eviction || self.flush || self.merge
    }
}

impl<D: Disk + Drop> Inner<D> {
    /// Has workers do what is due in a keyspace, and waits where they lag behind. Without workers nothing is due.
    pub fn settle<R: Wait>(&self, rt: &R, id: u64, needs: Needs) {
        if self.settings.workers == 0 || !needs.is_any() {
            return;
        }
        let mut needs = needs;
        for _ in rt.forever() {
            let seen = self.moves.now(rt);
            self.ask(rt, id, needs);
            if !self.must_wait(needs) {
                return;
            }
            needs = match self.needs(rt, id) {
                Some(needs) => needs,
                None => return,
            };
            if !self.must_wait(needs) {
                return;
            }
            self.moves.wait_past(rt, seen);
        }
    }

    /// The same of each of these keyspaces.
    pub fn settle_all<R: Wait>(&self, rt: &R, written: &[u64]) {
        if self.settings.workers == 0 {
            return;
        }
        for id in written {
            if let Some(needs) = self.needs(rt, *id) {
                self.settle(rt, *id, needs);
            }
        }
    }

    // Whether a writer waits until workers have caught up.
    fn must_wait(&self, needs: Needs) -> bool {
        let merge = needs.merge && !self.unmerged.load(SeqCst);
        (needs.eviction || needs.flush || merge) && !self.halted.load(SeqCst)
    }

    // What is due in a keyspace now; nothing once the database is closed.
    fn needs<R: Wait>(&self, rt: &R, id: u64) -> Option<Needs> {
        let guard = self.lock.lock(rt);
        match &*guard {
            Some(shared) => Some(Needs::of(&**shared, id, self.settings.max_journaling_size)),
            None => None,
        }
    }

    // Tells workers what is due.
    fn ask<R: Wait>(&self, rt: &R, id: u64, needs: Needs) {
        let queue = self.pool.queue();
        if needs.rotation {
            let _ = queue.send(rt, WorkerMessage::RotateMemtable(id));
        }
        if needs.flush {
            let _ = queue.send_flush(rt, id);
        }
        if needs.merge {
            let _ = queue.send(rt, WorkerMessage::Compact(id));
        }
        if needs.eviction {
            self.ask_for_eviction(rt, id);
        }
    }

    // The keyspaces that hold back the oldest journal.
    fn late<R: Wait>(&self, rt: &R) -> Result<Vec<u64>> {
        let mut guard = self.lock.lock(rt);
        let Some(shared) = &mut *guard else {
            return Err(Error::Poisoned);
        };
        shared.get_keyspaces_to_flush_for_oldest_journal_eviction()
    }

    // Has the memtables sealed that hold back the oldest journal. Where no journal is sealed it is the active one that is too long, which a
    // flush of what was written last seals.
    fn ask_for_eviction<R: Wait>(&self, rt: &R, id: u64) {
        let queue = self.pool.queue();
        let Ok(late) = self.late(rt) else {
            return;
        };
        if late.is_empty() {
            let _ = queue.send(rt, WorkerMessage::RotateMemtable(id));
        }
        for one in late {
            let _ = queue.send(rt, WorkerMessage::RotateMemtable(one));
        }
    }
}
