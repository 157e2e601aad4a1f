//! The rotation of the journal.

ghost use Rattle.std.specs.Prelude.{◌≡◌, ◌⊎◌, ◌+◌, ◌-◌, ◌^◌, ◌<◌, IfErr, IsErrOf, IsTrue, OnErr, OnOk};
ghost use Rattle.fjall_base.specs.Disk.{HasCause, IsNoFolder, LeavesOnly, Took, state_in};
ghost use Rattle.fjall_files.specs.Names.{journal_name};
ghost use Rattle.fjall_files.specs.Tidy.{StaysTidy};
ghost use Rattle.fjall_journal.specs.Writer.{IsIo, written_out};
ghost use Rattle.fjall_journal.specs.Rotations.{RotationTook, empty_journal, rotating};
ghost use Rattle.fjall_changes.specs.Journaling.{IsWriting};
ghost use Rattle.fjall_changes.specs.Rotations.{ForRotating, KeepsSyncedKeyspaces, LeavesRotation, rotated};
ghost use Rattle.fjall_machine.specs.Remembered.{journal_rotated_in_memory};

use crate::engine_state::EngineState;
use fjall_base::{Disk, Result};
use fjall_changes::rotate_journal;
use fjall_files::ActiveWatermarks;
use fjall_journal::Writer;
use std::alloc::Global;

impl EngineState {
    /// Seals the active journal, with all that waits, and begins an empty one of the next number, into which the writer goes on;
    /// there is a next number. All memory is got before the first byte goes to the disk.
    ///
    /// After a refusal, for want of memory or by a fault of the disk, what is known of the journals is as before. Want of memory
    /// leaves the writer and the disk as they were too. Where the disk fails, some of it may be done, and the writer must not be
    /// used again.
    pub fn rotate_journal<D: Disk>(
        &mut self,
        alloc: Global,
        journal: &mut Writer,
        disk: &mut D,
    ) -> Result<()>
        requires numbered { self.old.journals.active < 2 ^ 64 - 2 }
        ensures ok { OnOk result (self.new ≡ journal_rotated_in_memory (written_out journal.old).len self.old) }
        ensures begun { OnOk result (journal.new ≡ empty_journal (journal_name (self.old.journals.active + 1))) }
        ensures unchanged { OnErr result (self.new ≡ self.old) }
        ensures untouched { IfErr result (λ e. (IsIo e → ⊥) → (journal.new ≡ journal.old) × (D.meaning disk.new ≡ D.meaning disk.old)) }
        ensures left { OnErr result ((journal.new ≡ journal.old) ⊎ (journal.new ≡ written_out journal.old)) }
        ensures served { IsTrue D.honest → ForRotating (D.meaning disk.old) journal.old self.old.journals.active (λ j.
            IsNoFolder (state_in (D.meaning disk.old) (journal_name (self.old.journals.active + 1))).now → (D.meaning disk.new).misuses ≡ (D.meaning disk.old).misuses) }
        ensures cause { HasCause (D.meaning disk.old) (D.meaning disk.new) result }
        ensures took { IsTrue D.honest → OnOk result (Took (D.meaning disk.old) (D.meaning disk.new)
            (rotating (D.meaning disk.old) journal.old (journal_name (self.old.journals.active + 1)))) }
        ensures part { IsTrue D.honest → OnErr result
            (RotationTook (D.meaning disk.old) (D.meaning disk.new) journal.old journal.new (journal_name (self.old.journals.active + 1))) }
        // A crash at any moment, also at the last one of a call that fails, leaves the journals before or those after.
        ensures any_moment { IsTrue D.honest → ForRotating (D.meaning disk.old) journal.old self.old.journals.active (λ j.
            LeavesOnly (D.meaning disk.old) (D.meaning disk.new) (LeavesRotation (state_in (D.meaning disk.old)) j)) }
        ensures lies { IsTrue D.honest → ForRotating (D.meaning disk.old) journal.old self.old.journals.active (λ j.
            OnOk result (IsWriting (state_in (D.meaning disk.new)) journal.new (rotated j))) }
        ensures elsewhere { IsTrue D.honest → ForRotating (D.meaning disk.old) journal.old self.old.journals.active (λ j.
            KeepsSyncedKeyspaces (D.meaning disk.old) (D.meaning disk.new)) }
        ensures kinds { IsTrue D.honest → StaysTidy (D.meaning disk.old) (D.meaning disk.new) }
    {
        let mut watermarks = self.watermarks.to_watermarks(alloc)?;
        let turned = rotate_journal(
            alloc,
            disk,
            &mut self.sealed,
            journal,
            &mut self.active,
            &mut watermarks,
        );
        if let Err(error) = turned {
            return Err(error);
        }
        self.watermarks = ActiveWatermarks::new(alloc);
        Ok(())
    }
}
