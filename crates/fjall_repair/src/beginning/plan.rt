//! What is to be done, found out before anything is changed: from then on no memory is asked for.

ghost use Rattle.std.specs.Prelude.{◌≡◌, ◌≢◌, ◌≤◌, ◌∷◌, ◌++◌, ℕ, [], IfErr, IfOk, IsOkUnless, IsTrue, List, map, string_bytes};
ghost use Rattle.std.specs.List.Sorted.{IsStrictlyIncreasing};
ghost use Rattle.fjall_base.specs.Disk.{HasCause, Took};
ghost use Rattle.fjall_base.specs.declared.error.FormatVersion.TheVariants.{V3};
ghost use Rattle.fjall_files.specs.Texts.{text_in};
ghost use Rattle.fjall_files.specs.Calls.{seen, AllServed};
ghost use Rattle.fjall_files.specs.Marker.{header as header_of};
ghost use Rattle.fjall_files.specs.Names.{journal_name as name_of_journal};
ghost use Rattle.fjall_recovery.specs.Journals.{AreJournalIds};
ghost use Rattle.fjall_recovery.specs.Naming.{JournalsAreNamed};
ghost use Rattle.fjall_recovery.specs.Refusals.{HasRisen, IsDue, IsOpeningRefusal};
ghost use Rattle.fjall_repair.specs.Begun.{IsActive};
ghost use Rattle.fjall_repair.specs.Plans.{AreToBe, IsBeginPlan, IsFound};

use fjall_base::{Disk, Error, Result};
use fjall_files::{MARKER_FILE, TREE_RECORDS, journal_name, journals, write_file_header};
use fjall_manifest::first_record;
use std::alloc::Global;

/// What a file has of the bytes that it is to hold.
#[derive(Clone, Copy, Debug, PartialEq, Eq)]
pub enum FileState {
    /// Not a byte, or there is no file.
    Nothing,
    /// Some other bytes.
    Other,
    /// Just these bytes.
    Whole,
}

/// What a database's making comes to.
#[derive(Drop)]
pub struct BeginPlan {
    /// The names of the journals, by id ascending.
    pub journals: Vec<String>,
    /// The ids of all but the last one.
    pub sealed: Vec<u64>,
    /// The id of the last one, which is active.
    pub active: u64,
    /// The text of tree 0's first record.
    pub first: Vec<u8>,
    /// What tree 0's file has of it.
    pub records: FileState,
    /// The bytes of the marker.
    pub header: Vec<u8>,
    /// What the marker's file has of them.
    pub marker: FileState,
}

/// What these bytes are, where those are wanted.
fn compare(bytes: &[u8], wanted: &[u8]) -> FileState
    ensures { IsFound result wanted.now bytes.now }
{
    if bytes == wanted {
        FileState::Whole
    } else if bytes.len() == 0 {
        FileState::Nothing
    } else {
        FileState::Other
    }
}

/// What the file of this name has of these bytes.
fn find<D: Disk>(alloc: Global, disk: &mut D, name: &str, wanted: &[u8]) -> Result<FileState>
    ensures found { IsTrue D.honest → IfOk result (λ found. IsFound found wanted.now (text_in (seen (D.meaning disk.old) name.now))) }
    ensures same { IsTrue D.honest → Took (D.meaning disk.old) (D.meaning disk.new) [] }
    ensures served { IsTrue D.honest → AllServed (D.meaning disk.old) (D.meaning disk.new) }
    ensures cause { HasCause (D.meaning disk.old) (D.meaning disk.new) result }
{
    match disk.read(alloc, name)? {
        Some(bytes) => Ok(compare(&bytes, wanted)),
        None => Ok(FileState::Nothing),
    }
}

/// The ids of the journals that are there, ascending.
fn list_ids<D: Disk>(alloc: Global, disk: &mut D) -> Result<Vec<u64>>
    ensures ids { IsTrue D.honest → IfOk result (λ ids. AreJournalIds (seen (D.meaning disk.old)) ids.items) }
    ensures ascending { IfOk result (λ ids. IsStrictlyIncreasing ids.items) }
    ensures same { IsTrue D.honest → Took (D.meaning disk.old) (D.meaning disk.new) [] }
    ensures served { IsTrue D.honest → AllServed (D.meaning disk.old) (D.meaning disk.new) }
    ensures later { (D.meaning disk.old).faults ≤ (D.meaning disk.new).faults }
    ensures risen { IfErr result (HasRisen (D.meaning disk.old).faults (D.meaning disk.new).faults) }
    ensures cause { IsTrue D.honest → JournalsAreNamed (seen (D.meaning disk.old)) → IfErr result (IsDue (λ error. ⊥)) }
    ensures listed { IfErr result IsOpeningRefusal }
{
    let listed = disk.list(alloc, "")?;
    journals(alloc, &listed)
}

/// The ids of the journals that are to be, ascending: those that are there, or 0 alone.
fn journal_ids<D: Disk>(alloc: Global, disk: &mut D) -> Result<Vec<u64>>
    ensures ids { IsTrue D.honest → IfOk result (λ ids. AreToBe (seen (D.meaning disk.old)) ids.items) }
    ensures some { IfOk result (λ ids. ids.items ≢ []) }
    ensures ascending { IfOk result (λ ids. IsStrictlyIncreasing ids.items) }
    ensures same { IsTrue D.honest → Took (D.meaning disk.old) (D.meaning disk.new) [] }
    ensures served { IsTrue D.honest → AllServed (D.meaning disk.old) (D.meaning disk.new) }
    ensures later { (D.meaning disk.old).faults ≤ (D.meaning disk.new).faults }
    ensures risen { IfErr result (HasRisen (D.meaning disk.old).faults (D.meaning disk.new).faults) }
    ensures cause { IsTrue D.honest → JournalsAreNamed (seen (D.meaning disk.old)) → IfErr result (IsDue (λ error. ⊥)) }
    ensures listed { IfErr result IsOpeningRefusal }
{
    let mut ids = list_ids(alloc, disk)?;
    if ids.len() == 0 {
        ids.push(0)?;
    }
    Ok(ids)
}

/// The names of the journals of these ids.
fn journal_names(alloc: Global, ids: &[u64]) -> Result<Vec<String>>
    ensures names { IfOk result (λ names. map string_bytes names.items ≡ map name_of_journal ids.now) }
    ensures only { IsOkUnless result Error.OutOfMemory }
{
    let mut names = Vec::new(alloc);
    for id in ids {
        names.push(journal_name(alloc, *id)?)?;
    }
    Ok(names)
}

/// All but the last of these ids, of which there is one, and the last one.
fn apart(ids: Vec<u64>) -> (Vec<u64>, u64)
    requires { ids.items ≢ [] }
    ensures { ids.items ≡ result.0.items ++ result.1 ∷ [] }
{
    let mut front = ids;
    match front.pop() {
        Some(last) => (front, last),
        None => unreachable!(),
    }
}

/// The bytes of a whole marker.
fn header(alloc: Global) -> Result<Vec<u8>>
    ensures header { IfOk result (λ bytes. bytes.items ≡ header_of V3) }
    ensures only { IsOkUnless result Error.OutOfMemory }
{
    let mut bytes = Vec::new(alloc);
    write_file_header(&mut bytes)?;
    Ok(bytes)
}

/// Finds out what is to be done to begin a database, or to go on with one whose making was cut short, and gets all memory
/// for it. Such a folder is what `read_folder` answers `None` for. Nothing of the disk changes.
///
/// Refusals: `OutOfMemory`; `Io` for a fault of the disk; and for a file that is named nearly like a journal
/// `InvalidFileName`, which `read_folder` answers first.
pub fn plan_beginning<D: Disk>(alloc: Global, disk: &mut D) -> Result<BeginPlan>
    ensures plan { IsTrue D.honest → IfOk result (IsBeginPlan (seen (D.meaning disk.old))) }
    ensures active { IsTrue D.honest → IfOk result (λ plan. IsActive (seen (D.meaning disk.old)) plan.active) }
    // Of whatever disk the numbers of the journals ascend.
    ensures numbered { IfOk result (λ plan. IsStrictlyIncreasing (plan.sealed.items ++ plan.active ∷ [])) }
    ensures same { IsTrue D.honest → Took (D.meaning disk.old) (D.meaning disk.new) [] }
    ensures served { IsTrue D.honest → AllServed (D.meaning disk.old) (D.meaning disk.new) }
    ensures later { (D.meaning disk.old).faults ≤ (D.meaning disk.new).faults }
    ensures risen { IfErr result (HasRisen (D.meaning disk.old).faults (D.meaning disk.new).faults) }
    ensures cause { IsTrue D.honest → JournalsAreNamed (seen (D.meaning disk.old)) → IfErr result (IsDue (λ error. ⊥)) }
    ensures listed { IfErr result IsOpeningRefusal }
{
    let ids = journal_ids(alloc, disk)?;
    let journals = journal_names(alloc, &ids)?;
    let first = first_record(alloc)?;
    let records = find(alloc, disk, TREE_RECORDS, &first)?;
    let header = header(alloc)?;
    let marker = find(alloc, disk, MARKER_FILE, &header)?;
    let (sealed, active) = apart(ids);
    Ok(BeginPlan {
        journals,
        sealed,
        active,
        first,
        records,
        header,
        marker,
    })
}
