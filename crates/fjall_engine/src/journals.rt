//! The rotation of the journal.

ghost use Rattle.std.specs.Prelude.{◌<◌, ◌-◌, ◌^◌, IsTrue};
ghost use Rattle.fjall_machine.specs.Shapes.{OfJournalRotation};
ghost use Rattle.fjall_engine.specs.CallParts.{Turns};
ghost use Rattle.fjall_engine.specs.Standing.{Owes, Serves, reply_of};

use crate::engine::Engine;
use fjall_base::{Disk, Result};

impl<D: Disk> Engine<D> {
    // Seals the active journal, where there is a next number. All memory is got before the first byte goes to the disk.
    fn turn_journal(&mut self) -> Result<()>
        requires numbered { self.old.memory.journals.active < 2 ^ 64 - 2 }
        ensures turns { Turns (IsTrue D.honest) self.old result self.new }
    {
        let turned = self
            .memory
            .rotate_journal(self.alloc, &mut self.journal, &mut self.disk);
        if let Err(error) = turned {
            self.poison_by(&error);
            return Err(error);
        }
        Ok(())
    }

    /// Seals the active journal and begins an empty one of the next number, into which the following commands go. All that waited
    /// in the buffer goes out before, and the journal is synced: what was accepted before then outlives a crash. Sealed journals
    /// stay until the tables of each keyspace hold what it has in them.
    ///
    /// Refusals, the first that has its cause: `Poisoned`; `NumbersUsedUp` where the next number would be the greatest `u64`;
    /// `OutOfMemory`; and `Io`, after which the core is poisoned. After each of the others nothing has changed.
    pub fn rotate_journal(&mut self) -> Result<()>
        ensures serves { IsTrue D.honest → Serves self.old OfJournalRotation (reply_of result) self.new }
        ensures owes { Owes self.old OfJournalRotation (reply_of result) self.new }
    {
        if let Some(error) = self.memory.journal_refusal() {
            return Err(error);
        }
        self.turn_journal()
    }
}
