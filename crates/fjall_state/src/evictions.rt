//! The eviction of sealed journals: the last records of keyspaces tell which changes stand in tables.

ghost use Rattle.std.specs.Prelude.{◌≡◌, ℕ, List, length, IfOk, IsOkUnless, IsTrue, OnErr, OnOk};
ghost use Rattle.std.specs.List.Sorted.{IsStrictlyIncreasing};
ghost use Rattle.fjall_base.specs.Disk.{LeavesOnly, OnlyFaults, Took, state_in};
ghost use Rattle.fjall_meta.specs.Contents.{is_beyond};
ghost use Rattle.fjall_files.specs.Tidy.{StaysTidy};
ghost use Rattle.fjall_files.specs.Evictions.{StoppedBehind, TookEvictions, evicting};
ghost use Rattle.fjall_files.specs.Journals.{Sealed, names_of, staying, waited_for};
ghost use Rattle.fjall_recovery.specs.Places.{Journaling};
ghost use Rattle.fjall_changes.specs.Evictions.{ForEvicting, LeavesEviction, StoppedEvicting, evicted};
ghost use Rattle.fjall_changes.specs.Journaling.{IsWriting};
ghost use Rattle.fjall_changes.specs.Rotations.{KeepsSyncedKeyspaces, ListsSealed};
ghost use Rattle.fjall_machine.specs.Evicting.{going_in};
ghost use Rattle.fjall_machine.specs.Remembered.{flushed_by, with_sealed_in_memory};

use crate::engine_state::EngineState;
use fjall_base::{Disk, Error, Result};
use fjall_changes::evict_journals;
use fjall_files::Flushed;
use fjall_meta::MetaKeyspace;
use fjall_replay::LastRecords;
use std::alloc::Global;

/// Whether a number is beyond the persisted one; where there is none, each is.
fn is_beyond(persisted: Option<u64>, number: u64) -> bool
    ensures { result ≡ is_beyond persisted number }
{
    match persisted {
        Some(persisted) => persisted < number,
        None => true,
    }
}

/// How far keyspaces have been flushed, as the last records of those that live tell.
#[derive(Drop)]
pub struct FlushedBy<'a> {
    /// The keyspaces that live.
    pub keyspaces: &'a MetaKeyspace,
    /// Their last records.
    pub records: &'a LastRecords,
}

impl Flushed for FlushedBy<'_> {
    ghost flushed = { λ f. flushed_by f.keyspaces.now f.records.now };

    fn has_flushed(&self, keyspace_id: u64, lsn: u64) -> bool {
        if self.keyspaces.get(keyspace_id).is_none() {
            return true;
        }
        match self.records.get(keyspace_id) {
            Some(last) => !is_beyond(last.persisted, lsn),
            None => false,
        }
    }
}

impl EngineState {
    /// Removes sealed journals, the oldest first, up to the first that some keyspace that lives still wants, as its last record
    /// tells. It takes no memory.
    ///
    /// Where the disk fails, the journals removed so far are gone, and the next one stays among the sealed ones, though its
    /// file may be removed: a later call removes what is there.
    pub fn evict<D: Disk>(&mut self, disk: &mut D) -> Result<()>
        ensures ok { OnOk result (self.new ≡ with_sealed_in_memory (staying (flushed_by self.old.keyspaces self.old.records) self.old.journals.sealed) self.old) }
        ensures left { OnErr result ((gone left : List Sealed)
            × StoppedBehind (flushed_by self.old.keyspaces self.old.records) self.old.journals.sealed left gone × (self.new ≡ with_sealed_in_memory left self.old)) }
        ensures told { (j : Journaling) → ListsSealed self.old.journals.sealed j
            → OnOk result (ListsSealed self.new.journals.sealed (evicted (length (going_in self.old)) j)) }
        ensures served { IsTrue D.honest → ForEvicting (D.meaning disk.old) self.old.journals.sealed (λ writer j. (D.meaning disk.new).misuses ≡ (D.meaning disk.old).misuses) }
        ensures cause { OnlyFaults (D.meaning disk.old) (D.meaning disk.new) result }
        ensures took { IsTrue D.honest → OnOk result (Took (D.meaning disk.old) (D.meaning disk.new)
            (evicting (state_in (D.meaning disk.old)) (names_of (going_in self.old)))) }
        ensures part { IsTrue D.honest → OnErr result ((gone : List Sealed)
            × (stopped : StoppedBehind (flushed_by self.old.keyspaces self.old.records) self.old.journals.sealed self.new.journals.sealed gone)
            × TookEvictions (D.meaning disk.old) (D.meaning disk.new) gone stopped.next) }
        // A crash at any moment, also at the last one of a call that fails, leaves all but some of the journals that go.
        ensures any_moment { IsTrue D.honest → ForEvicting (D.meaning disk.old) self.old.journals.sealed (λ writer j.
            LeavesOnly (D.meaning disk.old) (D.meaning disk.new)
            (LeavesEviction (state_in (D.meaning disk.old)) j (length (going_in self.old)))) }
        ensures lies { IsTrue D.honest → ForEvicting (D.meaning disk.old) self.old.journals.sealed (λ writer j.
            OnOk result (IsWriting (state_in (D.meaning disk.new)) writer (evicted (length (going_in self.old)) j))) }
        ensures some_gone { IsTrue D.honest → ForEvicting (D.meaning disk.old) self.old.journals.sealed (λ writer j.
            OnErr result (StoppedEvicting (state_in (D.meaning disk.new)) writer j self.new.journals.sealed (length (going_in self.old)))) }
        ensures elsewhere { IsTrue D.honest → ForEvicting (D.meaning disk.old) self.old.journals.sealed (λ writer j. KeepsSyncedKeyspaces (D.meaning disk.old) (D.meaning disk.new)) }
        ensures kinds { IsTrue D.honest → StaysTidy (D.meaning disk.old) (D.meaning disk.new) }
    {
        let flushed = FlushedBy {
            keyspaces: &self.keyspaces,
            records: &self.records,
        };
        evict_journals(disk, &mut self.sealed, &flushed)
    }

    /// The ids of the keyspaces that are to be flushed before the oldest sealed journal may go, ascending; none where no
    /// journal is sealed. Refuses for want of memory alone.
    pub fn keyspaces_to_flush(&self, alloc: Global) -> Result<Vec<u64>>
        ensures ok { IfOk result (λ ids. ids.items ≡ waited_for (flushed_by self.now.keyspaces self.now.records) self.now.journals.sealed) }
        ensures ascending { IfOk result (λ ids. IsStrictlyIncreasing ids.items) }
        ensures only { IsOkUnless result Error.OutOfMemory }
    {
        let flushed = FlushedBy {
            keyspaces: &self.keyspaces,
            records: &self.records,
        };
        self.sealed
            .get_keyspaces_to_flush_for_oldest_journal_eviction(alloc, &flushed)
    }
}
