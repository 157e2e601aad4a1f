//! The sealed journals of a database, from the oldest to the newest.

ghost use Rattle.std.specs.Prelude.{◌≤◌, ◌≡◌, ◌⊎◌, ◌∷◌, ◌++◌, ◌+◌, ◌-◌, ◌^◌, ◌<◌, List, [], length, Err, IfErr, IfOk, IsOkUnless, IsTrue, OnErr, OnOk};
ghost use Rattle.std.specs.List.Sorted.{IsStrictlyIncreasing};
ghost use Rattle.fjall_base.specs.Disk.{HasCause, IsFile, IsNoFolder, OnlyFaults, Took, state_in};
ghost use Rattle.fjall_files.specs.Names.{journal_name};
ghost use Rattle.fjall_journal.specs.Writer.{IsIo, written_out};
ghost use Rattle.fjall_files.specs.Evictions.{HasNoFolders, StoppedBehind, TookEvictions, evicting};
ghost use Rattle.fjall_files.specs.Journals.{Sealed, bytes_of, going, names_of, staying, waited_for};
ghost use Rattle.fjall_journal.specs.Rotations.{RotationTook, empty_journal, rotating};
ghost use Rattle.fjall_files.specs.Rotations.{sealed_of};

use crate::eviction::evict;
use crate::flushed::Flushed;
use crate::names::journal_name;
use crate::sealed_journal::SealedJournal;
use crate::watermarks::Watermarks;
use fjall_base::{Disk, Error, Result};
use fjall_journal::Writer;
use std::alloc::Global;
use std::marker::Model;
use std::mem;

/// The sealed journals, the oldest first. They are removed in that order, each once every living keyspace has brought its
/// changes in it to tables.
#[derive(Drop)]
pub struct JournalManager {
    journals: Vec<SealedJournal>,
}

impl Model for JournalManager {
    ghost use Rattle.std.specs.Prelude.{List};
    ghost use Rattle.fjall_files.specs.Journals.{Sealed};

    ghost Value = { List Sealed };

    ghost view = { λ m. m.journals.items };
}

impl JournalManager {
    /// No journal is sealed.
    pub fn new(alloc: Global) -> JournalManager
        ensures { result ≡ [] }
    {
        JournalManager {
            journals: Vec::new(alloc),
        }
    }

    /// Takes a sealed journal in as the newest.
    pub fn enqueue(&mut self, journal: SealedJournal) -> Result<()>
        ensures ok { OnOk result (self.new ≡ self.old ++ journal ∷ []) }
        ensures unchanged { OnErr result (self.new ≡ self.old) }
        ensures only { IsOkUnless result Error.OutOfMemory }
    {
        self.journals.push(journal)?;
        Ok(())
    }

    /// Forgets all sealed journals. Their files stay.
    pub fn clear(&mut self)
        ensures { self.new ≡ [] }
    {
        self.journals.clear();
    }

    /// The sealed journals, the oldest first.
    pub fn journals(&self) -> &[SealedJournal]
        ensures { result.now ≡ self.now }
    {
        &self.journals
    }

    /// How many journals there are: the sealed ones and the active one.
    pub fn journal_count(&self) -> usize
        ensures { result ≡ length self.now + 1 }
    {
        self.journals.len() + 1
    }

    /// How many journals are sealed.
    pub fn sealed_journal_count(&self) -> usize
        ensures { result ≡ length self.now }
    {
        self.journals.len()
    }

    /// How many bytes the files of the sealed journals have, at most the greatest `u64`.
    pub fn disk_space_used(&self) -> u64
        ensures { result ≡ bytes_of self.now }
    {
        let mut total: u64 = 0;
        for journal in &self.journals {
            total = total.saturating_add(journal.len());
        }
        total
    }

    /// The ids of the keyspaces that are to be flushed before the oldest sealed journal may go, ascending; none where no
    /// journal is sealed.
    pub fn get_keyspaces_to_flush_for_oldest_journal_eviction<F: Flushed>(
        &self,
        alloc: Global,
        flushed: &F,
    ) -> Result<Vec<u64>>
        ensures ok { IfOk result (λ ids. ids.items ≡ waited_for (F.flushed flushed.now) self.now) }
        ensures ascending { IfOk result (λ ids. IsStrictlyIncreasing ids.items) }
        ensures only { IsOkUnless result Error.OutOfMemory }
    {
        let Some(oldest) = self.journals.first() else {
            return Ok(Vec::new(alloc));
        };
        oldest.watermarks().unflushed(alloc, flushed)
    }

    /// Removes sealed journals, the oldest first, up to the first that some living keyspace still wants; after each the root
    /// is synced. It takes no memory.
    ///
    /// Where the disk fails, the journals removed so far are gone, and the next one stays among the sealed ones, though its
    /// file may be removed: a later call removes what is there.
    pub fn maintenance<D: Disk, F: Flushed>(&mut self, disk: &mut D, flushed: &F) -> Result<()>
        ensures ok { OnOk result (self.new ≡ staying (F.flushed flushed.now) self.old) }
        ensures left { OnErr result ((gone : List Sealed) × StoppedBehind (F.flushed flushed.now) self.old self.new gone) }
        ensures took { IsTrue D.honest → OnOk result (Took (D.meaning disk.old) (D.meaning disk.new)
            (evicting (state_in (D.meaning disk.old)) (names_of (going (F.flushed flushed.now) self.old)))) }
        ensures part { IsTrue D.honest → OnErr result ((gone : List Sealed) × (stopped : StoppedBehind (F.flushed flushed.now) self.old self.new gone)
            × TookEvictions (D.meaning disk.old) (D.meaning disk.new) gone stopped.next) }
        ensures served { IsTrue D.honest → HasNoFolders (state_in (D.meaning disk.old)) (names_of self.old)
            → (D.meaning disk.new).misuses ≡ (D.meaning disk.old).misuses }
        ensures cause { OnlyFaults (D.meaning disk.old) (D.meaning disk.new) result }
    {
        loop {
            let Some(oldest) = self.journals.first() else {
                return Ok(());
            };
            if !oldest.may_go(flushed) {
                return Ok(());
            }
            evict(disk, oldest.name())?;
            self.journals.remove(0);
        }
    }

    /// Seals the active journal, and begins an empty one of the next number, into which `writer` goes on. Whatever stands in
    /// the writer's buffer is appended before, and the old journal is synced with it. The watermarks go with the sealed
    /// journal, and leave none.
    ///
    /// Refuses with `NumbersUsedUp` where the next number would be the greatest `u64`, else with `OutOfMemory`: both change
    /// nothing, here or on the disk. Where the disk fails, some of it may be done, nothing is sealed, and the writer must not
    /// be used again.
    pub fn rotate_journal<D: Disk>(
        &mut self,
        alloc: Global,
        disk: &mut D,
        writer: &mut Writer,
        id: &mut u64,
        watermarks: &mut Watermarks,
    ) -> Result<()>
        ensures sealed { OnOk result (self.new ≡ self.old ++ sealed_of id.old writer.old watermarks.old ∷ []) }
        ensures begun { OnOk result ((writer.new ≡ empty_journal (journal_name (id.old + 1))) × (id.new ≡ id.old + 1) × (watermarks.new ≡ [])) }
        ensures unchanged { OnErr result ((self.new ≡ self.old) × (id.new ≡ id.old) × (watermarks.new ≡ watermarks.old)) }
        ensures used_up { 2 ^ 64 - 2 ≤ id.old → result ≡ Err Error.NumbersUsedUp }
        ensures untouched { IfErr result (λ e. (IsIo e → ⊥) → (writer.new ≡ writer.old) × (D.meaning disk.new ≡ D.meaning disk.old)) }
        ensures took { IsTrue D.honest → OnOk result (Took (D.meaning disk.old) (D.meaning disk.new)
            (rotating (D.meaning disk.old) writer.old (journal_name (id.old + 1)))) }
        ensures left { OnErr result ((writer.new ≡ writer.old) ⊎ (writer.new ≡ written_out writer.old)) }
        ensures part { IsTrue D.honest → OnErr result (RotationTook (D.meaning disk.old) (D.meaning disk.new) writer.old writer.new (journal_name (id.old + 1))) }
        // Where it is done no folder stood in the place of the next journal.
        ensures free { IsTrue D.honest → OnOk result (IsNoFolder (state_in (D.meaning disk.old) (journal_name (id.old + 1))).now) }
        ensures served { IsTrue D.honest → IsFile (state_in (D.meaning disk.old) writer.old.name).now
            → IsNoFolder (state_in (D.meaning disk.old) (journal_name (id.old + 1))).now → (D.meaning disk.new).misuses ≡ (D.meaning disk.old).misuses }
        ensures cause { id.old < 2 ^ 64 - 2 → HasCause (D.meaning disk.old) (D.meaning disk.new) result }
    {
        if *id >= u64::MAX - 1 {
            return Err(Error::NumbersUsedUp);
        }
        let next = *id + 1;
        let old_name = journal_name(alloc, *id)?;
        let next_name = journal_name(alloc, next)?;
        let begun = Writer::from_file(alloc, &next_name, 0)?;
        self.journals.reserve(1)?;
        let len = writer.pos();
        writer.rotate(disk, &next_name)?;
        let watermarks = mem::replace(watermarks, Watermarks::new(alloc));
        self.journals
            .push_reserved(SealedJournal::with_name(old_name, *id, len, watermarks));
        *writer = begun;
        *id = next;
        Ok(())
    }
}
