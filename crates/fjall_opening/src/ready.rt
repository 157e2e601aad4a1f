//! All that opening a folder takes, in memory before the disk is changed.

ghost use Rattle.std.specs.Prelude.{◌≡◌, ◌≤◌, [], ◌∷◌, ◌++◌, ℕ, List, All, IfErr, IfOk, IsOkUnless, IsTrue, map, max, string_bytes};
ghost use Rattle.std.specs.List.{AllZip};
ghost use Rattle.std.specs.List.Sorted.{IsStrictlyIncreasing};
ghost use Rattle.fjall_base.specs.Disk.{Image, Meaning, Took, state_in};
ghost use Rattle.fjall_meta.specs.Keyspaces.{no_keyspaces};
ghost use Rattle.fjall_manifest.specs.Catalog.{first_catalog, listed};
ghost use Rattle.fjall_files.specs.Calls.{seen, AllServed};
ghost use Rattle.fjall_files.specs.Names.{journal_name};
ghost use Rattle.fjall_recovery.specs.Folders.{IsFinished, IsNumbered, IsUnfinished, past_records};
ghost use Rattle.fjall_recovery.specs.Places.{journals_with};
ghost use Rattle.fjall_files.specs.Places.{told};
ghost use Rattle.fjall_recovery.specs.Told.{TellOf, TellsOf};
ghost use Rattle.fjall_recovery.specs.Naming.{AreFolderIds};
ghost use Rattle.fjall_recovery.specs.Refusals.{HasRisen, IsDue, IsOpeningRefusal};
ghost use Rattle.fjall_opening.specs.Readings.{IsSweepOf, FindsUnnamed, TakesRead};
ghost use Rattle.fjall_repair.specs.Plans.{IsBeginPlan as IsMakingOf, empty_journal, empty_journals, journals_begun};
ghost use Rattle.fjall_repair.specs.Mended.{IsMendingOf};
ghost use Rattle.fjall_opening.specs.Opened.{HasNumbers, IsLawfulOpening, TakesOver, records_of};
ghost use Rattle.fjall_repair.specs.Sweeps.{FindsAll, IsSweepPlan, no_names};

use crate::mending::plan_mending;
use crate::numbers::checked_number;
use crate::opened::Opened;
use crate::replaying::Replay;
use fjall_base::{Disk, Error, Result};
use fjall_files::{ActiveWatermarks, JournalManager, SealedJournal, Watermarks, journal_name};
use fjall_journal::Writer;
use fjall_manifest::Catalog;
use fjall_meta::MetaKeyspace;
use fjall_recovery::{RecoveredFolder, list_keyspaces};
use fjall_repair::{BeginPlan, MendPlan, SweepPlan, active_id, plan_beginning, plan_sweep};
use fjall_replay::{LastRecords, OpenedHomes, open_homes};
use fjall_table::TableInfo;
use fjall_trees::Trees;
use std::alloc::Global;

/// What is opened once a database is begun.
#[derive(Drop)]
pub(crate) struct ToBegin {
    /// What is opened then.
    pub opened: Opened,
    /// How the database is begun.
    pub making: BeginPlan,
    /// What is removed.
    pub sweep: SweepPlan,
}

/// What is opened once a folder is mended.
#[derive(Drop)]
pub(crate) struct ToMend {
    /// What is opened then.
    pub opened: Opened,
    /// How the folder is mended.
    pub mending: MendPlan,
    /// What is removed.
    pub sweep: SweepPlan,
}

/// What is told of these sealed journals, which hold nothing.
fn empty_journals(alloc: Global, ids: &[u64]) -> Result<JournalManager>
    ensures tell { IfOk result (λ sealed. AllZip TellsOf (map empty_journal ids.now) sealed) }
    ensures ids { IfOk result (λ sealed. map (λ journal. journal.id) sealed ≡ ids.now) }
    ensures only { IsOkUnless result Error.OutOfMemory }
{
    let mut sealed = JournalManager::new(alloc);
    for id in ids {
        let journal = SealedJournal::new(alloc, *id, 0, Watermarks::new(alloc))?;
        sealed.enqueue(journal)?;
    }
    Ok(sealed)
}

/// What a database without keyspaces opens as, whose journals have these numbers.
fn new_database(alloc: Global, sealed: &[u64], active: u64) -> Result<Opened>
    requires { IsStrictlyIncreasing (sealed.now ++ active ∷ []) }
    ensures opened { IfOk result (λ o. TakesOver o (journal_name active) 0 first_catalog no_keyspaces []) }
    ensures journals { IfOk result (λ o. TellOf (journals_with (empty_journals sealed.now active) []) o.sealed (told o.watermarks)) }
    ensures active { IfOk result (λ o. o.active ≡ active) }
    ensures number { IfOk result (λ o. o.number ≡ 0) }
    ensures lawful { IfOk result IsLawfulOpening }
    ensures only { IsOkUnless result Error.OutOfMemory }
{
    let name = journal_name(alloc, active)?;
    Ok(Opened {
        trees: Trees::new(alloc),
        records: LastRecords::new(alloc),
        journal: Writer::from_file(alloc, name.as_str(), 0)?,
        sealed: empty_journals(alloc, sealed)?,
        active,
        watermarks: ActiveWatermarks::new(alloc),
        catalog: Catalog::new(),
        keyspaces: MetaKeyspace::new(alloc),
        number: 0,
    })
}

/// Gets ready to begin a database, or to go on with one whose making was cut short.
pub(crate) fn ready_to_begin<D: Disk>(alloc: Global, disk: &mut D) -> Result<ToBegin>
    ensures making { IsTrue D.honest → IfOk result (λ r. IsMakingOf (seen (D.meaning disk.old)) r.making) }
    ensures sweep { IsTrue D.honest → IfOk result (λ r. IsSweepPlan no_names [] r.sweep) }
    ensures finds { IsTrue D.honest
        → IfOk result (λ r. (ids : List ℕ) × AreFolderIds (seen (D.meaning disk.old)) ids × FindsAll (state_in (D.meaning disk.old)) no_names [] ids r.sweep) }
    ensures opened { IfOk result (λ r. TakesOver r.opened (journal_name r.making.active) 0 first_catalog no_keyspaces []) }
    ensures journals { IfOk result (λ r. TellOf (journals_begun r.making) r.opened.sealed (told r.opened.watermarks)) }
    ensures active { IfOk result (λ r. r.opened.active ≡ r.making.active) }
    ensures number { IfOk result (λ r. r.opened.number ≡ 0) }
    ensures lawful { IfOk result (λ r. IsLawfulOpening r.opened) }
    ensures same { IsTrue D.honest → Took (D.meaning disk.old) (D.meaning disk.new) [] }
    ensures served { IsTrue D.honest → AllServed (D.meaning disk.old) (D.meaning disk.new) }
    ensures later { (D.meaning disk.old).faults ≤ (D.meaning disk.new).faults }
    ensures risen { IfErr result (HasRisen (D.meaning disk.old).faults (D.meaning disk.new).faults) }
    ensures due { IsTrue D.honest → IsUnfinished (seen (D.meaning disk.old)) → IfErr result (IsDue (λ error. ⊥)) }
    ensures listed { IfErr result IsOpeningRefusal }
{
    let ids = list_keyspaces(alloc, disk)?;
    let sweep = plan_sweep(alloc, disk, &[], &[], &[], &ids)?;
    let making = plan_beginning(alloc, disk)?;
    Ok(ToBegin {
        opened: new_database(alloc, &making.sealed, making.active)?,
        making,
        sweep,
    })
}

/// The table that tree 0's last record names, where it names one.
fn tables_of(alloc: Global, catalog: &Catalog) -> Result<Vec<TableInfo>>
    ensures ok { IfOk result (λ tables. tables.items ≡ listed catalog.now.table) }
    ensures only { IsOkUnless result Error.OutOfMemory }
{
    let mut tables = Vec::new(alloc);
    if let Some(table) = catalog.table {
        tables.push(table)?;
    }
    Ok(tables)
}

/// What a folder opens as that was read, and whose journal goes on at the end of this file: trees over the tables of its homes,
/// into whose memory its journals are replayed, which is sealed behind each but the active one, and the homes' last records.
/// Each journal is read once more.
fn database_of<D: Disk>(
    alloc: Global,
    disk: &mut D,
    found: RecoveredFolder,
    active: &str,
) -> Result<Opened>
    requires numbered { IsNumbered found }
    ensures opened { IsTrue D.honest → (old : Meaning) → seen old ≡ seen (D.meaning disk.old) → IsFinished (seen old) found → IfOk result (λ o. TakesRead old o active.now found) }
    ensures number { All HasNumbers (records_of found) → IfOk result (λ o. o.number ≡ max found.journals.least (past_records (records_of found))) }
    ensures lawful { IfOk result IsLawfulOpening }
    ensures same { IsTrue D.honest → Took (D.meaning disk.old) (D.meaning disk.new) [] }
    ensures served { IsTrue D.honest → AllServed (D.meaning disk.old) (D.meaning disk.new) }
    ensures later { (D.meaning disk.old).faults ≤ (D.meaning disk.new).faults }
    ensures risen { IfErr result (HasRisen (D.meaning disk.old).faults (D.meaning disk.new).faults) }
    ensures due { IsTrue D.honest → IsFinished (seen (D.meaning disk.old)) found → IfErr result (IsDue (λ error. ⊥)) }
    ensures listed { IfErr result IsOpeningRefusal }
{
    let number = checked_number(&found)?;
    let journal = Writer::from_file(alloc, active, found.journals.end as u64)?;
    let id = active_id(&found.journal_ids);
    let watermarks = ActiveWatermarks::from_watermarks(alloc, &found.journals.watermarks)?;
    let RecoveredFolder {
        journal_ids,
        journals,
        catalog,
        homes,
        ..
    } = found;
    prove!(0 < catalog.keyspaces.next_id());
    let loaded = open_homes(alloc, &catalog.keyspaces, homes)?;
    let OpenedHomes {
        trees: planted,
        records,
        persisted,
    } = loaded;
    let replay = Replay {
        keyspaces: &catalog.keyspaces,
        persisted: &persisted,
        sealed: &journals.sealed,
        bound: number,
    };
    let trees = replay.replay_journals(alloc, disk, &journal_ids, journals.end, planted)?;
    Ok(Opened {
        trees,
        records,
        journal,
        sealed: journals.sealed,
        active: id,
        watermarks,
        catalog: catalog.catalog,
        keyspaces: catalog.keyspaces,
        number,
    })
}

/// Gets ready to mend the folder that was read.
pub(crate) fn ready_to_mend<D: Disk>(
    alloc: Global,
    disk: &mut D,
    found: RecoveredFolder,
) -> Result<ToMend>
    requires { IsNumbered found }
    ensures mending { (image : Image) → IsFinished image found → IfOk result (λ r. IsMendingOf image found r.mending) }
    ensures sweep { IsTrue D.honest → (image : Image) → IsFinished image found → IfOk result (λ r. IsSweepOf found r.sweep) }
    ensures finds { IsTrue D.honest → (image : Image) → IsFinished image found
        → IfOk result (λ r. FindsUnnamed (state_in (D.meaning disk.old)) found r.sweep) }
    ensures opened { IsTrue D.honest → IsFinished (seen (D.meaning disk.old)) found
        → IfOk result (λ r. TakesRead (D.meaning disk.old) r.opened (string_bytes r.mending.active) found) }
    ensures number { All HasNumbers (records_of found) → IfOk result (λ r. r.opened.number ≡ max found.journals.least (past_records (records_of found))) }
    ensures lawful { IfOk result (λ r. IsLawfulOpening r.opened) }
    ensures same { IsTrue D.honest → Took (D.meaning disk.old) (D.meaning disk.new) [] }
    ensures served { IsTrue D.honest → AllServed (D.meaning disk.old) (D.meaning disk.new) }
    ensures later { (D.meaning disk.old).faults ≤ (D.meaning disk.new).faults }
    ensures risen { IfErr result (HasRisen (D.meaning disk.old).faults (D.meaning disk.new).faults) }
    ensures due { IsTrue D.honest → IsFinished (seen (D.meaning disk.old)) found → IfErr result (IsDue (λ error. ⊥)) }
    ensures listed { IfErr result IsOpeningRefusal }
{
    let tree = tables_of(alloc, &found.catalog.catalog)?;
    let keyspaces = &found.catalog.keyspaces;
    let sweep = plan_sweep(
        alloc,
        disk,
        &tree,
        &found.homes,
        keyspaces.living(),
        &found.folder_ids,
    )?;
    let mending = plan_mending(alloc, &found)?;
    Ok(ToMend {
        opened: database_of(alloc, disk, found, mending.active.as_str())?,
        mending,
        sweep,
    })
}
