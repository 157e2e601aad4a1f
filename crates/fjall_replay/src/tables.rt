//! Trees over the tables of the keyspaces that live, which stay on the disk.

ghost use Rattle.std.specs.Prelude.{◌≡◌, ◌⊎◌, ◌↔◌, ◌++◌, ◌∷◌, ℕ, ◌<◌, ◌≤◌, ◌^◌, [], All, List, IfErr, IfOk, IfSome, IsTrue, None, OnOk, IsOkUnless, is_some, map, true};
ghost use Rattle.std.specs.FinMap.{get, insert};
ghost use Rattle.std.specs.List.Sorted.{IsStrictlyIncreasing};
ghost use Rattle.fjall_base.specs.declared.error.Error.TheVariants.{Storage};
ghost use Rattle.fjall_base.specs.declared.error.StorageError.TheVariants.{RecordDamaged};
ghost use Rattle.fjall_base.specs.Disk.{Image, Meaning};
ghost use Rattle.fjall_files.specs.Calls.{seen};
ghost use Rattle.fjall_replay.specs.Known.{AreAtHome};
ghost use Rattle.fjall_replay.specs.Opening.{HaveEntries, IsOpenedOn, KnowsStored, MayOpen, MayOpenAll, ShowsEntries, opened, reader_of, record_read, told_by};
ghost use Rattle.fjall_recovery.specs.Folders.{Contents, IsOpenable};
ghost use Rattle.fjall_recovery.specs.Homes.{AreHomesRead, HaveVersions, Versions};
ghost use Rattle.fjall_replay.specs.Beside.{AreEndedBy};
ghost use Rattle.fjall_replay.specs.Replayed.{ids_of};
ghost use Rattle.fjall_table.specs.Blocks.{Entry};
ghost use Rattle.fjall_manifest.specs.Records.{view};
ghost use Rattle.fjall_trees.specs.Forests.{AreBefore};
ghost use Rattle.fjall_trees.specs.Views.{forest_of};

use crate::records::LastRecords;
use fjall_base::{Error, Result, StorageError};
use fjall_manifest::LoadedHome;
use fjall_meta::{MetaKeyspace, Persisted, PersistedNumbers};
use fjall_recovery::{clears_are_within, past};
use fjall_table_reader::{TableFile, TableReader};
use fjall_tree::Tree;
use fjall_trees::Trees;
use std::alloc::Global;

/// What is answered for a home that tells of no tree.
const DAMAGED: Error = Error::Storage(StorageError::RecordDamaged);

/// Numbers of changes lie below this one.
const NUMBER_LIMIT: u64 = 1 << 63;

/// Whether there is no persisted number, or one of a change.
fn is_number(persisted: Option<u64>) -> bool
    ensures { IsTrue result ↔ IfSome persisted (λ n. n < 2 ^ 63) }
{
    match persisted {
        Some(number) => number < NUMBER_LIMIT,
        None => true,
    }
}

/// Whether each number is below the next one.
fn ascend(numbers: &[u64]) -> bool
    ensures { IsTrue result ↔ IsStrictlyIncreasing numbers.now }
{
    for place in 1..numbers.len() {
        if numbers[place - 1] >= numbers[place] {
            return false;
        }
    }
    true
}

/// Whether a home is that of this id, and its record tells of a tree.
fn may_open(id: u64, home: &LoadedHome) -> bool
    ensures { IsTrue result ↔ MayOpen id home.now }
{
    let last = &home.record;
    home.id == id && is_number(last.persisted) && clears_are_within(last) && ascend(&last.clears)
}

/// Readers of these tables, which keep no block yet.
fn readers_of(alloc: Global, files: Vec<TableFile>) -> Result<Vec<TableReader>>
    ensures ok { IfOk result (λ readers. readers.items ≡ map reader_of files.items) }
    ensures only { IsOkUnless result Error.OutOfMemory }
{
    let mut readers = Vec::new(alloc);
    for file in files {
        readers.push(TableReader::new(alloc, file)?)?;
    }
    Ok(readers)
}

/// Plants the tree of a home behind all others, keeps the home's record, and tells up to which number it is persisted. The
/// keyspace has this id.
fn open_home(
    alloc: Global,
    id: u64,
    home: LoadedHome,
    trees: &mut Trees,
    records: &mut LastRecords,
    persisted: &mut PersistedNumbers,
) -> Result<()>
    requires planted { All (λ k. k.id < id) (forest_of trees.old) }
    requires above { All (λ k. k.id < id) persisted.old }
    ensures ok { OnOk result (forest_of trees.new ≡ forest_of trees.old ++ opened home ∷ []) }
    ensures kept { OnOk result (records.new ≡ insert records.old id (view home.record)) }
    ensures told { OnOk result (persisted.new ≡ persisted.old ++ told_by home ∷ []) }
    ensures may { OnOk result (MayOpen id home) }
    ensures cause { IfErr result (λ e. (e ≡ Error.OutOfMemory) ⊎ ((e ≡ Storage RecordDamaged) × (MayOpen id home → ⊥))) }
{
    if !may_open(id, &home) {
        return Err(DAMAGED);
    }
    let LoadedHome { record, tables, .. } = home;
    let readers = readers_of(alloc, tables)?;
    let mut clears = Vec::new(alloc);
    clears.extend_from_slice(&record.clears)?;
    let tree = Tree::new(alloc, readers, clears, past(record.persisted));
    trees.add(id, tree)?;
    persisted.push(Persisted {
        id,
        number: record.persisted,
    })?;
    records.insert(id, record)
}

/// The keyspaces that live, as an opening plants them.
#[derive(Drop)]
pub struct OpenedHomes {
    /// A tree of each, over its tables, which stay on the disk.
    pub trees: Trees,
    /// The last record of each.
    pub records: LastRecords,
    /// Up to which number each of them is persisted.
    pub persisted: PersistedNumbers,
}

/// Plants a tree of each keyspace that lives, over the tables that its home's last record names, and keeps that record. They have
/// these homes, one by one. The trees' clears are those of the records, nothing is in memory, and memory begins one past the
/// persisted number. No block is read, and the disk isn't asked.
///
/// Refuses for want of memory; and with `Storage(RecordDamaged)` where the homes aren't those of the keyspaces, or a record
/// tells of no tree, which no home is that was read of a disk.
pub fn open_homes(
    alloc: Global,
    keyspaces: &MetaKeyspace,
    homes: Vec<LoadedHome>,
) -> Result<OpenedHomes>
    ensures trees { IfOk result (λ o. forest_of o.trees ≡ map opened homes.items) }
    ensures live { IfOk result (λ o. ids_of (forest_of o.trees) ≡ map (λ k. k.id) keyspaces.now.living) }
    ensures theirs { OnOk result (MayOpenAll (map (λ k. k.id) keyspaces.now.living) homes.items) }
    ensures before { (bound : ℕ) → All (λ home. IfSome home.record.persisted (λ n. n < bound)) homes.items → IfOk result (λ o. AreBefore bound (forest_of o.trees)) }
    // The first journal's batches go on behind what is persisted.
    ensures ended { IfOk result (λ o. AreEndedBy (map told_by homes.items) 0 (forest_of o.trees)) }
    // What is persisted is what each home's record tells.
    ensures persisted { IfOk result (λ o. o.persisted ≡ map told_by homes.items) }
    // The records are those of the homes: of each keyspace that lives one, and none of an id that isn't given out.
    ensures records { IfOk result (λ o. (id : ℕ) → get o.records id ≡ record_read homes.items id) }
    ensures recorded { IfOk result (λ o. All (λ k. is_some (get o.records k.id) ≡ true) keyspaces.now.living) }
    ensures kept { IfOk result (λ o. (id : ℕ) → keyspaces.now.next ≤ id → get o.records id ≡ None) }
    // Over a disk from which the homes were read, each tree is over the tables there, also where a block of them is wrong.
    ensures opened { (disk : Meaning) (c : Contents) → IsOpenable (seen disk) c → c.keyspaces ≡ keyspaces.now → AreHomesRead (seen disk) keyspaces.now.living homes.items
        → IfOk result (λ o. All (IsOpenedOn disk c) (forest_of o.trees)) }
    // Each table is the one of its own id in its keyspace's folder, and its id was given out, to no other table of the keyspace.
    ensures named { (image : Image) → AreHomesRead image keyspaces.now.living homes.items → IfOk result (λ o. AreAtHome o.records (forest_of o.trees)) }
    // Where the tables have some entries, but for wrong blocks, they are read there as tables of these.
    ensures reads { (disk : Meaning) (c : Contents) → IsOpenable (seen disk) c → c.keyspaces ≡ keyspaces.now → AreHomesRead (seen disk) keyspaces.now.living homes.items
        → (entries : ℕ → List (List Entry)) → HaveEntries disk c entries → IfOk result (λ o. ShowsEntries disk c entries (forest_of o.trees)) }
    // Where the folder is sound, the tables are read there as what they are, the trees show what is stored, and each home is known.
    ensures sound { (disk : Meaning) (c : Contents) → IsOpenable (seen disk) c → c.keyspaces ≡ keyspaces.now → AreHomesRead (seen disk) keyspaces.now.living homes.items
        → (versions : Versions) → HaveVersions c.homes versions → IfOk result (λ o. KnowsStored disk c versions o.records (forest_of o.trees)) }
    ensures cause { IfErr result (λ e. (e ≡ Error.OutOfMemory) ⊎ ((e ≡ Storage RecordDamaged) × (MayOpenAll (map (λ k. k.id) keyspaces.now.living) homes.items → ⊥))) }
    ensures only { (image : Image) → AreHomesRead image keyspaces.now.living homes.items → IsOkUnless result Error.OutOfMemory }
{
    prove!(0 < keyspaces.next_id());
    let living = keyspaces.living();
    if homes.len() != living.len() {
        return Err(DAMAGED);
    }
    let mut trees = Trees::new(alloc);
    let mut records = LastRecords::new(alloc);
    let mut persisted = PersistedNumbers::new(alloc);
    let mut place = 0;
    for home in homes {
        let id = living[place].id;
        open_home(alloc, id, home, &mut trees, &mut records, &mut persisted)?;
        place += 1;
    }
    Ok(OpenedHomes {
        trees,
        records,
        persisted,
    })
}
