//! The eviction of journals: sealed ones that nobody wants any more are removed, the oldest first.

ghost use Rattle.std.specs.Prelude.{◌≡◌, IsTrue, List, OnErr, OnOk, length};
ghost use Rattle.fjall_base.specs.Disk.{LeavesOnly, OnlyFaults, Took, state_in};
ghost use Rattle.fjall_files.specs.Tidy.{StaysTidy};
ghost use Rattle.fjall_journal.specs.Writer.{Journal};
ghost use Rattle.fjall_files.specs.Evictions.{StoppedBehind, TookEvictions, evicting};
ghost use Rattle.fjall_files.specs.Journals.{Sealed, going, names_of, staying};
ghost use Rattle.fjall_recovery.specs.Places.{Journaling};
ghost use Rattle.fjall_changes.specs.Evictions.{ForEvicting, LeavesEviction, StoppedEvicting, evicted};
ghost use Rattle.fjall_changes.specs.Journaling.{IsWriting};
ghost use Rattle.fjall_changes.specs.Rotations.{KeepsSyncedKeyspaces, ListsSealed};

use fjall_base::{Disk, Result};
use fjall_files::{Flushed, JournalManager};

/// Removes sealed journals, the oldest first, up to the first that some living keyspace still wants; after each the root is
/// synced. It takes no memory.
///
/// A crash meanwhile leaves the journals without some of those that go, the oldest ones.
///
/// Where the disk fails, the journals removed so far are gone, and the next one stays among the sealed ones, though its file
/// may be removed: a later call removes what is there.
pub fn evict_journals<D: Disk, F: Flushed>(
    disk: &mut D,
    journals: &mut JournalManager,
    flushed: &F,
) -> Result<()>
    ensures ok { OnOk result (journals.new ≡ staying (F.flushed flushed.now) journals.old) }
    ensures left { OnErr result ((gone : List Sealed) × StoppedBehind (F.flushed flushed.now) journals.old journals.new gone) }
    ensures told { (j : Journaling) → ListsSealed journals.old j
        → OnOk result (ListsSealed journals.new (evicted (length (going (F.flushed flushed.now) journals.old)) j)) }
    ensures served { IsTrue D.honest → ForEvicting (D.meaning disk.old) journals.old (λ writer j. (D.meaning disk.new).misuses ≡ (D.meaning disk.old).misuses) }
    ensures cause { OnlyFaults (D.meaning disk.old) (D.meaning disk.new) result }
    ensures took { IsTrue D.honest → OnOk result (Took (D.meaning disk.old) (D.meaning disk.new)
        (evicting (state_in (D.meaning disk.old)) (names_of (going (F.flushed flushed.now) journals.old)))) }
    ensures part { IsTrue D.honest → OnErr result ((gone : List Sealed) × (stopped : StoppedBehind (F.flushed flushed.now) journals.old journals.new gone)
        × TookEvictions (D.meaning disk.old) (D.meaning disk.new) gone stopped.next) }
    // A crash at any moment, also at the last one of a call that fails, leaves all but some of the journals that go.
    ensures any_moment { IsTrue D.honest → ForEvicting (D.meaning disk.old) journals.old (λ writer j.
        LeavesOnly (D.meaning disk.old) (D.meaning disk.new)
        (LeavesEviction (state_in (D.meaning disk.old)) j (length (going (F.flushed flushed.now) journals.old)))) }
    ensures lies { IsTrue D.honest → ForEvicting (D.meaning disk.old) journals.old (λ writer j.
        OnOk result (IsWriting (state_in (D.meaning disk.new)) writer (evicted (length (going (F.flushed flushed.now) journals.old)) j))) }
    ensures some_gone { IsTrue D.honest → ForEvicting (D.meaning disk.old) journals.old (λ writer j.
        OnErr result (StoppedEvicting (state_in (D.meaning disk.new)) writer j journals.new (length (going (F.flushed flushed.now) journals.old)))) }
    ensures elsewhere { IsTrue D.honest → ForEvicting (D.meaning disk.old) journals.old (λ writer j. KeepsSyncedKeyspaces (D.meaning disk.old) (D.meaning disk.new)) }
    ensures kinds { IsTrue D.honest → StaysTidy (D.meaning disk.old) (D.meaning disk.new) }
{
    journals.maintenance(disk, flushed)
}
