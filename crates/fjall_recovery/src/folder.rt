//! A folder, read whole.

ghost use Rattle.std.specs.Prelude.{◌≡◌, ◌<◌, ◌≤◌, ◌↔◌, [], ◌^◌, true, false, map, All, IsTrue, IfErr, IfOk, IfSome, OnOk, List, Option, Ok, Err};
ghost use Rattle.std.specs.List.Sorted.{IsStrictlyIncreasing};
ghost use Rattle.fjall_base.specs.Disk.{Folder, Image, Took};
ghost use Rattle.fjall_base.specs.Store.{Store};
ghost use Rattle.fjall_base.specs.declared.error.JournalRecoveryError.TheVariants.{TornTail};
ghost use Rattle.fjall_journal.specs.declared.recovery_mode.RecoveryMode.TheVariants.{RefuseTornTail};
ghost use Rattle.fjall_files.specs.Calls.{seen, AllServed};
ghost use Rattle.fjall_files.specs.Marker.{marker_tells};
ghost use Rattle.fjall_files.specs.Names.{keyspace_folder};
ghost use Rattle.fjall_manifest.specs.Records.{Fields, view};
ghost use Rattle.fjall_meta.specs.Keyspaces.{Keyspaces};
ghost use Rattle.fjall_manifest.specs.declared.catalog.Catalog.{Catalog};
ghost use Rattle.fjall_manifest.specs.Catalog.{HasEnd, Says, fields};
ghost use Rattle.fjall_recovery.specs.Folders.{AreMade, Contents, ImageStandsFor, IsFinished, IsNumbered, IsOpenable, ReadsFolder, ShowsContents, marker_bytes, number_of_contents, past, past_record, past_records};
ghost use Rattle.fjall_recovery.specs.Held.{IsOpenFolder};
ghost use Rattle.fjall_recovery.specs.Journals.{AreJournalIds};
ghost use Rattle.fjall_recovery.specs.Naming.{AreFolderIds};
ghost use Rattle.fjall_recovery.specs.Refusals.{FinishedRefusesIn, FolderRefusesIn, HasRisen, HasTornEnd, HasTornTail, IsDue, IsOpeningRefusal, IsTornTail, TreeRefuses};

use crate::homes::read_homes;
use crate::journals::{RecoveredJournals, read_journals};
use crate::listing::{list_journals, list_keyspaces};
use crate::unfinished::check_unfinished;
use fjall_base::{Disk, Error, JournalRecoveryError, Result, StorageError};
use fjall_files::{MARKER_FILE, Marker, read_marker};
use fjall_journal::RecoveryMode;
use fjall_manifest::{Catalog, LoadedCatalog, LoadedHome, read_catalog};
use fjall_meta::LivingKeyspace;
use std::alloc::Global;

/// What a folder holds that was made to its end.
#[derive(Drop)]
pub struct RecoveredFolder {
    /// The ids of the journals, ascending.
    pub journal_ids: Vec<u64>,
    pub journals: RecoveredJournals,
    /// The ids of the keyspaces that have a folder, ascending; 0 is that of tree 0.
    pub folder_ids: Vec<u64>,
    /// What tree 0 says.
    pub catalog: LoadedCatalog,
    /// The homes of the keyspaces that live, by id ascending: their last records, and the ends of their tables.
    pub homes: Vec<LoadedHome>,
}

/// One past the number, and 0 where there is none.
pub fn past(number: Option<u64>) -> u64
    ensures value { past number < 2 ^ 64 → result ≡ past number }
    ensures small { IfSome number (λ n. n < 2 ^ 63) → result ≡ past number }
{
    match number {
        Some(number) => number.saturating_add(1),
        None => 0,
    }
}

/// The greatest number that these records tell.
fn greatest(homes: &[LoadedHome]) -> Option<u64>
    ensures { past result ≡ past_records (map (λ home. view home.record) homes.now) }
{
    let mut greatest = None;
    for home in homes {
        greatest = greatest.max(home.record.persisted).max(home.record.highest);
    }
    greatest
}

impl RecoveredFolder {
    /// The least number that a next change may have: one past the greatest one that stands in the folder, and 0 where
    /// none does. In a sound folder it is 2^63 at most.
    pub fn number(&self) -> u64
        ensures number { (c : Contents) → ShowsContents self.now c → number_of_contents c < 2 ^ 64 → result ≡ number_of_contents c }
        ensures sound { (image : Image) (c : Contents) → IsOpenable image c → ShowsContents self.now c → (result ≡ number_of_contents c) × (result ≤ 2 ^ 63) }
    {
        let last = self.catalog.catalog;
        let known = greatest(&self.homes).max(last.persisted).max(last.highest);
        self.journals.least.max(past(known))
    }
}

/// Whether these keyspaces were made under numbers that the record knows.
fn are_made(last: &Catalog, living: &[LivingKeyspace]) -> bool
    ensures { IsTrue result ↔ All (λ k. k.number < past_record (fields last.now)) living.now }
{
    let greatest = last.persisted.max(last.highest);
    living
        .iter()
        .all(|keyspace| Some(keyspace.number) <= greatest)
}

/// Reads tree 0, where it has its folder. Each keyspace must be made under a number that its last record knows.
fn read_tree<D: Disk>(alloc: Global, disk: &mut D, folder_ids: &[u64]) -> Result<LoadedCatalog>
    ensures says { IsTrue D.honest → IfOk result (λ found. (records : List Fields) × Says (seen (D.meaning disk.old)) records found.catalog found.keyspaces) }
    ensures end { IsTrue D.honest → IfOk result (λ found. HasEnd (seen (D.meaning disk.old)) found.end found.is_torn) }
    ensures made { IfOk result (λ found. AreMade found.catalog found.keyspaces) }
    ensures folder { IsTrue D.honest → AreFolderIds (seen (D.meaning disk.old)) folder_ids.now
        → OnOk result (seen (D.meaning disk.old) (keyspace_folder 0) ≡ Folder) }
    ensures same { IsTrue D.honest → Took (D.meaning disk.old) (D.meaning disk.new) [] }
    ensures served { IsTrue D.honest → AllServed (D.meaning disk.old) (D.meaning disk.new) }
    ensures later { (D.meaning disk.old).faults ≤ (D.meaning disk.new).faults }
    ensures risen { IfErr result (HasRisen (D.meaning disk.old).faults (D.meaning disk.new).faults) }
    ensures cause { IsTrue D.honest → AreFolderIds (seen (D.meaning disk.old)) folder_ids.now → IfErr result (IsDue (TreeRefuses (seen (D.meaning disk.old)))) }
    // Where the folder is there, and what it says is made, it is read.
    ensures sound { IsTrue D.honest → AreFolderIds (seen (D.meaning disk.old)) folder_ids.now
        → (records : List Fields) (last : Catalog) (s : Keyspaces) → Says (seen (D.meaning disk.old)) records last s
        → AreMade last s → seen (D.meaning disk.old) (keyspace_folder 0) ≡ Folder → IfErr result (IsDue (λ error. ⊥)) }
    ensures listed { IfErr result IsOpeningRefusal }
{
    if !folder_ids.contains(&0) {
        return Err(Error::Unrecoverable);
    }
    let found = read_catalog(alloc, disk)?;
    if !are_made(&found.catalog, found.keyspaces.living()) {
        return Err(Error::Storage(StorageError::TableDamaged));
    }
    Ok(found)
}

/// Refuses a torn tail of the active journal, where the mode does.
fn check_end(mode: RecoveryMode, is_torn: bool) -> Result<()>
    ensures ok { OnOk result (mode ≡ RefuseTornTail → is_torn ≡ false) }
    ensures cause { IfErr result (λ error. (mode ≡ RefuseTornTail) × (is_torn ≡ true) × (error ≡ Error.JournalRecovery TornTail)) }
{
    match (mode, is_torn) {
        (RecoveryMode::RefuseTornTail, true) => {
            Err(Error::JournalRecovery(JournalRecoveryError::TornTail))
        }
        _ => Ok(()),
    }
}

/// Reads a folder that was made to its end: the journals of these ids, and then tree 0 and the keyspaces that it names.
fn read_finished<D: Disk>(
    alloc: Global,
    disk: &mut D,
    journal_ids: Vec<u64>,
    mode: RecoveryMode,
) -> Result<RecoveredFolder>
    ensures found { IsTrue D.honest → AreJournalIds (seen (D.meaning disk.old)) journal_ids.items → IfOk result (IsFinished (seen (D.meaning disk.old))) }
    ensures numbered { IsStrictlyIncreasing journal_ids.items → IfOk result IsNumbered }
    ensures same { IsTrue D.honest → Took (D.meaning disk.old) (D.meaning disk.new) [] }
    ensures served { IsTrue D.honest → AllServed (D.meaning disk.old) (D.meaning disk.new) }
    ensures later { (D.meaning disk.old).faults ≤ (D.meaning disk.new).faults }
    ensures risen { IfErr result (HasRisen (D.meaning disk.old).faults (D.meaning disk.new).faults) }
    ensures cause { IsTrue D.honest → AreJournalIds (seen (D.meaning disk.old)) journal_ids.items
        → IfErr result (IsDue (FinishedRefusesIn mode (seen (D.meaning disk.old)))) }
    ensures untorn { IsTrue D.honest → AreJournalIds (seen (D.meaning disk.old)) journal_ids.items
        → OnOk result (mode ≡ RefuseTornTail → HasTornEnd (seen (D.meaning disk.old)) → ⊥) }
    // A folder in which nothing is wrong is read.
    ensures openable { IsTrue D.honest → AreJournalIds (seen (D.meaning disk.old)) journal_ids.items → (c : Contents)
        → IsOpenable (seen (D.meaning disk.old)) c → IfErr result (IsDue (IsTornTail mode (HasTornEnd (seen (D.meaning disk.old))))) }
    ensures listed { IfErr result IsOpeningRefusal }
{
    let journals = read_journals(alloc, disk, &journal_ids)?;
    check_end(mode, journals.torn)?;
    let folder_ids = list_keyspaces(alloc, disk)?;
    let catalog = read_tree(alloc, disk, &folder_ids)?;
    let homes = read_homes(alloc, disk, &folder_ids, catalog.keyspaces.living())?;
    Ok(RecoveredFolder {
        journal_ids,
        journals,
        folder_ids,
        catalog,
        homes,
    })
}

/// What the marker of the folder tells.
fn read_version<D: Disk>(alloc: Global, disk: &mut D) -> Result<Marker>
    ensures tells { IsTrue D.honest → IfOk result (λ marker. marker_tells (marker_bytes (seen (D.meaning disk.old))) ≡ Ok marker) }
    ensures same { IsTrue D.honest → Took (D.meaning disk.old) (D.meaning disk.new) [] }
    ensures served { IsTrue D.honest → AllServed (D.meaning disk.old) (D.meaning disk.new) }
    ensures later { (D.meaning disk.old).faults ≤ (D.meaning disk.new).faults }
    ensures risen { IfErr result (HasRisen (D.meaning disk.old).faults (D.meaning disk.new).faults) }
    ensures cause { IsTrue D.honest → IfErr result (IsDue (λ error. marker_tells (marker_bytes (seen (D.meaning disk.old))) ≡ Err error)) }
    ensures listed { IfErr result IsOpeningRefusal }
{
    match disk.read(alloc, MARKER_FILE)? {
        Some(bytes) => read_marker(Some(bytes.as_slice())),
        None => read_marker(None),
    }
}

/// Reads a folder whole, and answers what it holds, or `None` where its making was cut short, so that it stands for no
/// keyspaces. Nothing of the disk changes.
///
/// The first fault in the order of reading refuses, as the formats page says: the marker (`InvalidVersion`), the names of
/// journals (`InvalidFileName`), the journals one after another, a torn tail of the active one (`TornTail`) where the mode
/// refuses it, the names in `keyspaces` (`Unrecoverable`), tree 0 with the names and options that it stores, and each keyspace
/// by its id, its records before its tables. No block of a keyspace's table is read. A folder without its marker into which
/// something was written is `Unrecoverable`, in each mode. `OutOfMemory` and `Io` come as ever.
pub fn read_folder<D: Disk>(
    alloc: Global,
    disk: &mut D,
    mode: RecoveryMode,
) -> Result<Option<RecoveredFolder>>
    ensures found { IsTrue D.honest → IfOk result (λ folder. ReadsFolder (seen (D.meaning disk.old)) folder) }
    ensures numbered { IfOk result (λ folder. IfSome folder IsNumbered) }
    ensures same { IsTrue D.honest → Took (D.meaning disk.old) (D.meaning disk.new) [] }
    ensures served { IsTrue D.honest → AllServed (D.meaning disk.old) (D.meaning disk.new) }
    ensures later { (D.meaning disk.old).faults ≤ (D.meaning disk.new).faults }
    ensures risen { IfErr result (HasRisen (D.meaning disk.old).faults (D.meaning disk.new).faults) }
    ensures cause { IsTrue D.honest → IfErr result (IsDue (FolderRefusesIn mode (seen (D.meaning disk.old)))) }
    ensures untorn { IsTrue D.honest → OnOk result (mode ≡ RefuseTornTail → HasTornTail (seen (D.meaning disk.old)) → ⊥) }
    // A folder in which nothing is wrong is read, unless memory runs out, the disk fails, or the mode refuses its torn tail: so
    // is each that stands for a store.
    ensures openable { IsTrue D.honest → (folder : Option Contents) → IsOpenFolder (seen (D.meaning disk.old)) folder → IfErr result (IsDue (IsTornTail mode (HasTornTail (seen (D.meaning disk.old))))) }
    ensures sound { IsTrue D.honest → (store : Store) → ImageStandsFor (seen (D.meaning disk.old)) store → IfErr result (IsDue (IsTornTail mode (HasTornTail (seen (D.meaning disk.old))))) }
    ensures listed { IfErr result IsOpeningRefusal }
{
    let marker = read_version(alloc, disk)?;
    let journal_ids = list_journals(alloc, disk)?;
    match marker {
        Marker::Whole => Ok(Some(read_finished(alloc, disk, journal_ids, mode)?)),
        Marker::Unfinished => {
            check_unfinished(alloc, disk, &journal_ids)?;
            Ok(None)
        }
    }
}
