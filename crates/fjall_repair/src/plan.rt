//! What no record names: found before anything is removed.

ghost use Rattle.std.specs.List.{list_any};
ghost use Rattle.std.specs.Prelude.{◌≡◌, ◌==◌, ◌↔◌, ◌⊎◌, ◌≤◌, ◌<◌, ◌^◌, [], List, All, IfErr, IfOk, IsOkUnless, IsTrue, map, string_bytes};
ghost use Rattle.fjall_base.specs.Disk.{Took, state_in};
ghost use Rattle.fjall_recovery.specs.Refusals.{HasRisen, IsDue};
ghost use Rattle.fjall_files.specs.Calls.{AllServed};
ghost use Rattle.fjall_meta.specs.declared.living.LivingKeyspace.{LivingKeyspace};
ghost use Rattle.fjall_repair.specs.Listing.{AreTables, as_file, other_tables};
ghost use Rattle.fjall_repair.specs.Sweeps.{AreHomesOf, FindsAll, FindsHomes, FindsTables, FindsTablesOf, HasAll, IsOwnHome, IsSweepPlan, IsUnnamedHome, IsUnnamedTable, KeyspaceLives, names_of};

use fjall_base::{DirEntry, Disk, Error, Result};
use fjall_files::{OwnFiles, list_folder, list_own_files, table_name, tables};
use fjall_manifest::LoadedHome;
use fjall_meta::LivingKeyspace;
use fjall_table::TableInfo;
use std::alloc::Global;

/// What no record names, and is to be removed.
#[derive(Drop)]
pub struct SweepPlan {
    /// The names of tables, as `keyspaces/0/3.table`.
    pub tables: Vec<String>,
    /// The folders of keyspaces that don't live.
    pub homes: Vec<OwnFiles>,
}

/// Whether one of these tables has this id.
fn names_table(named: &[TableInfo], id: u64) -> bool
    ensures { result ≡ list_any (λ table. table.id == id) named.now }
{
    named.iter().any(|table| table.id == id)
}

/// The names of the tables of these ids in the folder of a keyspace, but those of the ones that are named.
fn other_names(alloc: Global, id: u64, named: &[TableInfo], ids: &[u64]) -> Result<Vec<String>>
    ensures names { IfOk result (λ names. map string_bytes names.items ≡ other_tables id named.now ids.now) }
    ensures only { IsOkUnless result Error.OutOfMemory }
{
    let mut names = Vec::new(alloc);
    for table in ids {
        if !names_table(named, *table) {
            names.push(table_name(alloc, id, *table)?)?;
        }
    }
    Ok(names)
}

/// The same entries, each told as a file: a folder that has a table's name counts as a table.
fn as_files(alloc: Global, listed: Vec<DirEntry>) -> Result<Vec<DirEntry>>
    ensures files { IfOk result (λ files. files.items ≡ map as_file listed.items) }
    ensures only { IsOkUnless result Error.OutOfMemory }
{
    let files = listed.into_iter().map(|entry| DirEntry {
        name: entry.name,
        is_folder: false,
    });
    Ok(files.collect(alloc)?)
}

/// The names of the tables that stand in the folder of this id, but those of the ones that are named.
fn list_tables<D: Disk>(
    alloc: Global,
    disk: &mut D,
    id: u64,
    named: &[TableInfo],
) -> Result<Vec<String>>
    ensures found { IsTrue D.honest → IfOk result (λ names. AreTables (state_in (D.meaning disk.old)) id named.now (map string_bytes names.items)) }
    ensures fits { id < 2 ^ 64 }
    ensures same { IsTrue D.honest → Took (D.meaning disk.old) (D.meaning disk.new) [] }
    ensures served { IsTrue D.honest → AllServed (D.meaning disk.old) (D.meaning disk.new) }
    ensures later { (D.meaning disk.old).faults ≤ (D.meaning disk.new).faults }
    ensures risen { IfErr result (HasRisen (D.meaning disk.old).faults (D.meaning disk.new).faults) }
    ensures only { IfErr result (IsDue (λ error. ⊥)) }
{
    let folder = list_folder(alloc, disk, id)?;
    let files = as_files(alloc, folder.entries)?;
    let ids = tables(alloc, id, &files)?;
    other_names(alloc, id, named, &ids)
}

/// The names of the tables that no record names: in tree 0's folder, whose record names these, and in those of the keyspaces
/// that live, which have these homes.
fn list_all_tables<D: Disk>(
    alloc: Global,
    disk: &mut D,
    tree: &[TableInfo],
    homes: &[LoadedHome],
) -> Result<Vec<String>>
    ensures unnamed { IsTrue D.honest → (living : List LivingKeyspace) → AreHomesOf living homes.now
        → IfOk result (λ list. All (λ name. IsUnnamedTable (names_of tree.now homes.now) living (string_bytes name)) list.items) }
    ensures tree { IsTrue D.honest
        → IfOk result (λ list. FindsTables (state_in (D.meaning disk.old)) (names_of tree.now homes.now) (map string_bytes list.items)) }
    ensures others { IsTrue D.honest → (living : List LivingKeyspace) → AreHomesOf living homes.now
        → IfOk result (λ list. FindsTablesOf (state_in (D.meaning disk.old)) (names_of tree.now homes.now) living (map string_bytes list.items)) }
    ensures same { IsTrue D.honest → Took (D.meaning disk.old) (D.meaning disk.new) [] }
    ensures served { IsTrue D.honest → AllServed (D.meaning disk.old) (D.meaning disk.new) }
    ensures later { (D.meaning disk.old).faults ≤ (D.meaning disk.new).faults }
    ensures risen { IfErr result (HasRisen (D.meaning disk.old).faults (D.meaning disk.new).faults) }
    ensures only { IfErr result (IsDue (λ error. ⊥)) }
{
    let mut names = list_tables(alloc, disk, 0, tree)?;
    for home in homes {
        let mut more = list_tables(alloc, disk, home.id, &home.record.tables)?;
        names.append(&mut more)?;
    }
    Ok(names)
}

/// Whether the keyspace of this id lives.
fn lives(living: &[LivingKeyspace], id: u64) -> bool
    ensures { result ≡ list_any (λ k. k.id == id) living.now }
{
    living.iter().any(|keyspace| keyspace.id == id)
}

/// Whether the folder of this id is tree 0's, or that of a keyspace that lives.
fn is_named(living: &[LivingKeyspace], id: u64) -> bool
    ensures { IsTrue result ↔ ((id ≡ 0) ⊎ KeyspaceLives living.now id) }
{
    id == 0 || lives(living, id)
}

/// The folders of these ids but tree 0's and those of the keyspaces that live. One in which anything but the engine's own
/// files stands is passed over.
fn list_homes<D: Disk>(
    alloc: Global,
    disk: &mut D,
    living: &[LivingKeyspace],
    ids: &[u64],
) -> Result<Vec<OwnFiles>>
    ensures unnamed { IsTrue D.honest → IfOk result (λ homes. All (IsUnnamedHome living.now) homes.items) }
    ensures found { IsTrue D.honest → IfOk result (λ homes. FindsHomes (state_in (D.meaning disk.old)) living.now ids.now homes.items) }
    ensures same { IsTrue D.honest → Took (D.meaning disk.old) (D.meaning disk.new) [] }
    ensures served { IsTrue D.honest → AllServed (D.meaning disk.old) (D.meaning disk.new) }
    ensures later { (D.meaning disk.old).faults ≤ (D.meaning disk.new).faults }
    ensures risen { IfErr result (HasRisen (D.meaning disk.old).faults (D.meaning disk.new).faults) }
    ensures only { IfErr result (IsDue (λ error. ⊥)) }
    ensures each { IsTrue D.honest → IfOk result (λ homes. All (HasAll (state_in (D.meaning disk.old))) homes.items) }
    ensures spares { IsTrue D.honest → IfOk result (λ homes. All (IsOwnHome (state_in (D.meaning disk.old))) homes.items) }
{
    let mut homes = Vec::new(alloc);
    for id in ids {
        if !is_named(living, *id) {
            if let Some(home) = list_own_files(alloc, disk, *id)? {
                homes.push(home)?;
            }
        }
    }
    Ok(homes)
}

/// What no record names, of what stands in `keyspaces`: the tables in tree 0's folder but these, the tables in the folders of
/// the keyspaces that live but those that the records of their homes name, and of the folders with these ids those of
/// keyspaces that don't live. A folder that has a table's name counts as a table there, though it can't be removed like a file.
///
/// The folder of a keyspace that doesn't live is in the plan only where all that stands in it are files with the engine's
/// own names: `current`, or a table's. One that holds anything else, as `keyspaces/7/notes`, is left wholly as it stands.
///
/// Nothing of the disk changes. `OutOfMemory` and `Io` come as ever.
pub fn plan_sweep<D: Disk>(
    alloc: Global,
    disk: &mut D,
    tree: &[TableInfo],
    homes: &[LoadedHome],
    living: &[LivingKeyspace],
    folder_ids: &[u64],
) -> Result<SweepPlan>
    ensures right { IsTrue D.honest → AreHomesOf living.now homes.now → IfOk result (IsSweepPlan (names_of tree.now homes.now) living.now) }
    ensures whole { IsTrue D.honest → AreHomesOf living.now homes.now
        → IfOk result (FindsAll (state_in (D.meaning disk.old)) (names_of tree.now homes.now) living.now folder_ids.now) }
    ensures same { IsTrue D.honest → Took (D.meaning disk.old) (D.meaning disk.new) [] }
    ensures served { IsTrue D.honest → AllServed (D.meaning disk.old) (D.meaning disk.new) }
    ensures later { (D.meaning disk.old).faults ≤ (D.meaning disk.new).faults }
    ensures risen { IfErr result (HasRisen (D.meaning disk.old).faults (D.meaning disk.new).faults) }
    ensures only { IfErr result (IsDue (λ error. ⊥)) }
{
    let tables = list_all_tables(alloc, disk, tree, homes)?;
    let homes = list_homes(alloc, disk, living, folder_ids)?;
    Ok(SweepPlan { tables, homes })
}
