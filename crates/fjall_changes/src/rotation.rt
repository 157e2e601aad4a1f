//! The rotation of the journals: the active one is sealed, and an empty one of the next number begins.

ghost use Rattle.std.specs.Prelude.{◌≤◌, ◌≡◌, ◌⊎◌, ◌∷◌, ◌++◌, ◌+◌, ◌-◌, ◌^◌, ◌<◌, [], Err, IfErr, IsTrue, OnErr, OnOk};
ghost use Rattle.fjall_base.specs.Disk.{HasCause, IsNoFolder, LeavesOnly, Took, state_in};
ghost use Rattle.fjall_files.specs.Names.{journal_name};
ghost use Rattle.fjall_files.specs.Tidy.{StaysTidy};
ghost use Rattle.fjall_journal.specs.Writer.{IsIo, written_out};
ghost use Rattle.fjall_journal.specs.Rotations.{RotationTook, empty_journal, rotating};
ghost use Rattle.fjall_files.specs.Rotations.{sealed_of};
ghost use Rattle.fjall_recovery.specs.Places.{Journaling};
ghost use Rattle.fjall_changes.specs.Journaling.{IsWriting};
ghost use Rattle.fjall_changes.specs.Rotations.{ForRotating, KeepsSyncedKeyspaces, LeavesRotation, ListsSealed, rotated};

use fjall_base::{Disk, Error, Result};
use fjall_files::{JournalManager, Watermarks};
use fjall_journal::Writer;
use std::alloc::Global;

/// Seals the active journal, of this number, and begins an empty one of the next number, into which the writer goes on. All
/// that waits goes out before, and the old journal is synced with it. The watermarks go with the sealed journal, and leave
/// none.
///
/// A crash meanwhile loses nothing that was synced, and leaves the journals as they were, with a beginning of what waited, or
/// those after the rotation.
///
/// Refuses with `NumbersUsedUp` where the next number would be the greatest `u64`, else with `OutOfMemory`: both change
/// nothing. Where the disk fails, some of it may be done, nothing is sealed, and the writer must not be used again.
pub fn rotate_journal<D: Disk>(
    alloc: Global,
    disk: &mut D,
    journals: &mut JournalManager,
    journal: &mut Writer,
    id: &mut u64,
    watermarks: &mut Watermarks,
) -> Result<()>
    ensures sealed { OnOk result (journals.new ≡ journals.old ++ sealed_of id.old journal.old watermarks.old ∷ []) }
    ensures begun { OnOk result ((journal.new ≡ empty_journal (journal_name (id.old + 1))) × (id.new ≡ id.old + 1) × (watermarks.new ≡ [])) }
    ensures told { (j : Journaling) → j.active ≡ id.old → ListsSealed journals.old j → OnOk result (ListsSealed journals.new (rotated j)) }
    ensures unchanged { OnErr result ((journals.new ≡ journals.old) × (id.new ≡ id.old) × (watermarks.new ≡ watermarks.old)) }
    ensures used_up { 2 ^ 64 - 2 ≤ id.old → result ≡ Err Error.NumbersUsedUp }
    ensures untouched { IfErr result (λ e. (IsIo e → ⊥) → (journal.new ≡ journal.old) × (D.meaning disk.new ≡ D.meaning disk.old)) }
    ensures left { OnErr result ((journal.new ≡ journal.old) ⊎ (journal.new ≡ written_out journal.old)) }
    ensures served { IsTrue D.honest → ForRotating (D.meaning disk.old) journal.old id.old (λ j.
        IsNoFolder (state_in (D.meaning disk.old) (journal_name (id.old + 1))).now → (D.meaning disk.new).misuses ≡ (D.meaning disk.old).misuses) }
    ensures cause { id.old < 2 ^ 64 - 2 → HasCause (D.meaning disk.old) (D.meaning disk.new) result }
    ensures took { IsTrue D.honest → OnOk result (Took (D.meaning disk.old) (D.meaning disk.new)
        (rotating (D.meaning disk.old) journal.old (journal_name (id.old + 1)))) }
    ensures part { IsTrue D.honest
        → OnErr result (RotationTook (D.meaning disk.old) (D.meaning disk.new) journal.old journal.new (journal_name (id.old + 1))) }
    // A crash at any moment, also at the last one of a call that fails, leaves the journals before or those after.
    ensures any_moment { IsTrue D.honest → ForRotating (D.meaning disk.old) journal.old id.old (λ j.
        LeavesOnly (D.meaning disk.old) (D.meaning disk.new) (LeavesRotation (state_in (D.meaning disk.old)) j)) }
    ensures lies { IsTrue D.honest → ForRotating (D.meaning disk.old) journal.old id.old (λ j.
        OnOk result (IsWriting (state_in (D.meaning disk.new)) journal.new (rotated j))) }
    ensures elsewhere { IsTrue D.honest → ForRotating (D.meaning disk.old) journal.old id.old (λ j. KeepsSyncedKeyspaces (D.meaning disk.old) (D.meaning disk.new)) }
    ensures kinds { IsTrue D.honest → StaysTidy (D.meaning disk.old) (D.meaning disk.new) }
{
    journals.rotate_journal(alloc, disk, journal, id, watermarks)
}
