//! The journals of a folder, read one after another.

ghost use Rattle.std.specs.Prelude.{◌≡◌, ◌≤◌, ◌++◌, ◌∷◌, ◌-◌, [], false, true, IsTrue, IfOk, IfErr, OnOk, ℕ, List, length, map, take, None};
ghost use Rattle.fjall_base.specs.Disk.{Took};
ghost use Rattle.fjall_base.specs.declared.error.Error.{Error};
ghost use Rattle.fjall_journal.specs.Batches.{Shown};
ghost use Rattle.fjall_journal.specs.declared.batch.Tail.TheVariants.{Clean};
ghost use Rattle.fjall_meta.specs.Replays.{first_fault, least_after, NamesFault};
ghost use Rattle.fjall_recovery.specs.Journals.{AreFound, AreSealed, journal_text, tail_of};
ghost use Rattle.fjall_recovery.specs.Looks.{AreChecked, IsLook};
ghost use Rattle.fjall_recovery.specs.Told.{AreSealedAs, AreTold};
ghost use Rattle.fjall_recovery.specs.Refusals.{HasRisen, IsDue, IsOpeningRefusal, JournalsRefuse, TailRefuses};
ghost use Rattle.fjall_files.specs.Calls.{seen, AllServed};

use crate::file::read_text;
use crate::look::{Look, look_through};
use bytes::Bytes;
use fjall_base::{Disk, Error, Result};
use fjall_files::{JournalManager, SealedJournal, Watermarks, journal_name};
use fjall_journal::Tail;
use std::alloc::Global;

/// What the journals of a folder hold.
#[derive(Drop)]
pub struct RecoveredJournals {
    /// The least number that a next batch may have.
    pub least: u64,
    /// Where the whole batches of the active journal end, which is the last one; 0 where there is no journal.
    pub end: usize,
    /// Whether behind them stands what an append left that was cut short.
    pub torn: bool,
    /// The journals but the active one, by id ascending: how long their files are, and their watermarks.
    pub sealed: JournalManager,
    /// The watermarks of the active one.
    pub watermarks: Watermarks,
}

/// Refuses what may not stand behind a sealed journal.
fn check_sealed(tail: Tail) -> Result<()>
    ensures ok { OnOk result (tail ≡ Clean) }
    ensures cause { IfErr result (TailRefuses false tail) }
{
    match tail {
        Tail::Clean => Ok(()),
        Tail::Torn => Err(Error::Unrecoverable),
        Tail::Damaged(damage) => Err(Error::JournalRecovery(damage)),
    }
}

/// Whether the active journal is torn. Refuses what may not stand behind it.
fn check_active(tail: Tail) -> Result<bool>
    ensures ok { IfOk result (λ torn. tail ≡ tail_of torn) }
    ensures cause { IfErr result (TailRefuses true tail) }
{
    match tail {
        Tail::Clean => Ok(false),
        Tail::Torn => Ok(true),
        Tail::Damaged(damage) => Err(Error::JournalRecovery(damage)),
    }
}

/// Looks through the journal of this id, whose first batch may have that number or a greater one.
pub(crate) fn read_one<D: Disk>(alloc: Global, disk: &mut D, id: u64, least: u64) -> Result<Look>
    ensures looks { IfOk result (λ look. (text : List ℕ) × IsLook text least look) }
    ensures found { IsTrue D.honest → IfOk result (IsLook (journal_text (seen (D.meaning disk.old)) id) least) }
    ensures same { IsTrue D.honest → Took (D.meaning disk.old) (D.meaning disk.new) [] }
    ensures served { IsTrue D.honest → AllServed (D.meaning disk.old) (D.meaning disk.new) }
    ensures later { (D.meaning disk.old).faults ≤ (D.meaning disk.new).faults }
    ensures risen { IfErr result (HasRisen (D.meaning disk.old).faults (D.meaning disk.new).faults) }
    ensures only { IfErr result (IsDue (λ error. ⊥)) }
{
    let name = journal_name(alloc, id)?;
    let text = Bytes::from_vec(read_text(alloc, disk, &name)?)?;
    look_through(alloc, &text, least)
}

impl RecoveredJournals {
    /// No journal yet.
    fn new(alloc: Global) -> RecoveredJournals
        ensures least { result.least ≡ 0 }
        ensures end { result.end ≡ 0 }
        ensures torn { result.torn ≡ false }
        ensures sealed { result.sealed ≡ [] }
        ensures watermarks { result.watermarks ≡ [] }
    {
        RecoveredJournals {
            least: 0,
            end: 0,
            torn: false,
            sealed: JournalManager::new(alloc),
            watermarks: Watermarks::new(alloc),
        }
    }

    /// Goes on behind a journal that was looked through, where none of its batches has a fault.
    fn take(&mut self, look: Look) -> Result<(Tail, Watermarks)>
        ensures sound { (least : ℕ) (batches : List Shown) → AreChecked least batches look.checked
            → OnOk result ((first_fault least batches ≡ None) × (self.new.least ≡ least_after least batches)) }
        ensures end { OnOk result (self.new.end ≡ look.end) }
        ensures torn { OnOk result (self.new.torn ≡ self.old.torn) }
        ensures sealed { OnOk result (self.new.sealed ≡ self.old.sealed) }
        ensures tail { IfOk result (λ taken. taken.0 ≡ look.tail) }
        ensures marks { IfOk result (λ taken. taken.1 ≡ look.watermarks) }
        ensures cause { (least : ℕ) (batches : List Shown) → AreChecked least batches look.checked → IfErr result (NamesFault (first_fault least batches)) }
    {
        let Look {
            checked,
            watermarks,
            end,
            tail,
        } = look;
        self.least = checked?;
        self.end = end;
        Ok((tail, watermarks))
    }
}

/// Reads sealed journals, one after another.
fn read_sealed<D: Disk>(alloc: Global, disk: &mut D, ids: &[u64]) -> Result<RecoveredJournals>
    ensures found { IsTrue D.honest → IfOk result (λ found. AreSealed (seen (D.meaning disk.old)) ids.now found.least) }
    ensures torn { IfOk result (λ found. found.torn ≡ false) }
    ensures told { IsTrue D.honest → IfOk result (λ found. AreSealedAs (seen (D.meaning disk.old)) ids.now found.sealed) }
    ensures ids { IfOk result (λ found. map (λ s. s.id) found.sealed ≡ ids.now) }
    ensures behind { IsTrue D.honest → (active : ℕ) (error : Error)
        → IfOk result (λ found. JournalsRefuse (seen (D.meaning disk.old)) found.least (active ∷ []) error
        → JournalsRefuse (seen (D.meaning disk.old)) 0 (ids.now ++ active ∷ []) error) }
    ensures same { IsTrue D.honest → Took (D.meaning disk.old) (D.meaning disk.new) [] }
    ensures served { IsTrue D.honest → AllServed (D.meaning disk.old) (D.meaning disk.new) }
    ensures later { (D.meaning disk.old).faults ≤ (D.meaning disk.new).faults }
    ensures risen { IfErr result (HasRisen (D.meaning disk.old).faults (D.meaning disk.new).faults) }
    ensures cause { IsTrue D.honest → (active : ℕ) → IfErr result (IsDue (JournalsRefuse (seen (D.meaning disk.old)) 0 (ids.now ++ active ∷ []))) }
    ensures listed { IfErr result IsOpeningRefusal }
{
    let mut journals = RecoveredJournals::new(alloc);
    for id in ids {
        let look = read_one(alloc, disk, *id, journals.least)?;
        let (tail, watermarks) = journals.take(look)?;
        check_sealed(tail)?;
        let sealed = SealedJournal::new(alloc, *id, journals.end as u64, watermarks)?;
        journals.sealed.enqueue(sealed)?;
    }
    Ok(journals)
}

/// Reads the journals of these ids, one after another: the last one is active, and the others are sealed.
///
/// By the formats page numbers ascend over all their batches and lie below 2^63, and a sealed journal is whole to its
/// end (`Unrecoverable`); no item has the value type 4 (`InvalidTag`); and a damaged tail has its name
/// (`JournalRecovery`). The first of these in the order of the bytes refuses. Nothing of the disk changes.
///
/// One journal's text at a time is in memory, and one of its batches.
pub fn read_journals<D: Disk>(alloc: Global, disk: &mut D, ids: &[u64]) -> Result<RecoveredJournals>
    ensures found { IsTrue D.honest
        → IfOk result (λ found. AreFound (seen (D.meaning disk.old)) ids.now found.least found.end found.torn) }
    ensures told { IsTrue D.honest → IfOk result (λ found. AreTold (seen (D.meaning disk.old)) ids.now found.sealed found.watermarks) }
    // Of whatever disk, the sealed ones are those of all ids but the last.
    ensures ids { IfOk result (λ found. map (λ s. s.id) found.sealed ≡ take (length ids.now - 1) ids.now) }
    ensures same { IsTrue D.honest → Took (D.meaning disk.old) (D.meaning disk.new) [] }
    ensures served { IsTrue D.honest → AllServed (D.meaning disk.old) (D.meaning disk.new) }
    ensures later { (D.meaning disk.old).faults ≤ (D.meaning disk.new).faults }
    ensures risen { IfErr result (HasRisen (D.meaning disk.old).faults (D.meaning disk.new).faults) }
    ensures cause { IsTrue D.honest → IfErr result (IsDue (JournalsRefuse (seen (D.meaning disk.old)) 0 ids.now)) }
    ensures listed { IfErr result IsOpeningRefusal }
{
    let [sealed @ .., active] = ids else {
        return Ok(RecoveredJournals::new(alloc));
    };
    let mut journals = read_sealed(alloc, disk, sealed)?;
    let look = read_one(alloc, disk, *active, journals.least)?;
    let (tail, watermarks) = journals.take(look)?;
    journals.torn = check_active(tail)?;
    journals.watermarks = watermarks;
    Ok(journals)
}
