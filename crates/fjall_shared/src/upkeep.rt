//! The journal, memtables, and what is evicted.

ghost use Rattle.fjall_machine.specs.Shapes.{OfCount, OfJournalRotation, OfMaintenance, OfPersist, OfRotation, ToFlush};
ghost use Rattle.fjall_core.specs.CoreStanding.{flag_reply, ids_reply, reply_of};
ghost use Rattle.fjall_shared.specs.Does.{Does};

use crate::shared::Shared;
use fjall_base::{Disk, Result};
use fjall_core::PersistMode;

impl<D: Disk> Shared<D> {
    /// Writes the journal's buffer out and, in the two sync modes, syncs the journal, as [`Engine::persist`](fjall_core::Engine::persist)
    /// does.
    pub fn persist(&mut self, mode: PersistMode) -> Result<()>
        ensures { Does D.honest self.old (OfPersist mode) (reply_of result) self.new }
    {
        self.core.persist(mode)
    }

    /// Seals the active memtable of a keyspace, as [`Engine::rotate_memtable`](fjall_core::Engine::rotate_memtable) does.
    pub fn rotate_memtable(&mut self, id: u64) -> Result<bool>
        ensures { Does D.honest self.old (OfRotation id) (flag_reply result) self.new }
    {
        self.core.rotate_memtable(id)
    }

    /// Seals the active journal, as [`Engine::rotate_journal`](fjall_core::Engine::rotate_journal) does.
    pub fn rotate_journal(&mut self) -> Result<()>
        ensures { Does D.honest self.old (OfJournalRotation) (reply_of result) self.new }
    {
        self.core.rotate_journal()
    }

    /// Removes sealed journals that nobody wants any more, as [`Engine::maintenance`](fjall_core::Engine::maintenance) does.
    pub fn maintenance(&mut self) -> Result<()>
        ensures { Does D.honest self.old (OfMaintenance) (reply_of result) self.new }
    {
        self.core.maintenance()
    }

    /// The ids of the keyspaces that live and haven't flushed what they have in the oldest sealed journal, ascending. Refuses for want of
    /// memory alone.
    pub fn get_keyspaces_to_flush_for_oldest_journal_eviction(&mut self) -> Result<Vec<u64>>
        ensures { Does D.honest self.old (OfCount ToFlush) (ids_reply result) self.new }
    {
        self.core
            .get_keyspaces_to_flush_for_oldest_journal_eviction()
    }
}
