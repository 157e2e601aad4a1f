//! A change of the catalog on the disk: the new table, the record that makes it count, and the removal of the old table.

ghost use Rattle.std.specs.Prelude.{◌++◌, ◌∷◌, [], ℕ, List, IfSome, OnOk, IsTrue};
ghost use Rattle.fjall_base.specs.Disk.{IsNoFolder, LeavesOnly, Name, OnlyFaults, state_in};
ghost use Rattle.fjall_files.specs.Calls.{AllServed};
ghost use Rattle.fjall_files.specs.Regions.{Within};
ghost use Rattle.fjall_manifest.specs.Records.{Fields, IsRecord};
ghost use Rattle.fjall_files.specs.Names.{keyspace_folder, table_name};
ghost use Rattle.fjall_files.specs.Tidy.{StaysTidy};
ghost use Rattle.fjall_meta.specs.Keyspaces.{AreKeyspaces, Keyspaces};
ghost use Rattle.fjall_manifest.specs.Catalog.{fields, Says, IsReady};
ghost use Rattle.fjall_manifest.specs.Updates.{IsCatalogWritten, IsTableGone, IsUpdate, SaysEither};

use crate::catalog::Catalog;
use crate::update::Update;
use crate::writing::{append_record, put_tables, remove_tables};
use fjall_base::{Disk, Result};
use fjall_files::{TREE_FOLDER, TREE_RECORDS};
use std::slice;

/// Writes the new table of a change, and syncs it and its name; nothing where no keyspace lives. The old catalog still
/// counts.
pub fn write_table<D: Disk>(disk: &mut D, update: &Update) -> Result<()>
    ensures within { IsTrue D.honest → (old : Catalog) (t : Keyspaces) (number : ℕ) → IsUpdate old t number update.now
        → Within (keyspace_folder 0) (D.meaning disk.old) (D.meaning disk.new) }
    // A crash at any moment of the call leaves what the old catalog says.
    ensures any_moment { IsTrue D.honest → (records : List Fields) (old : Catalog) (s t : Keyspaces) (number : ℕ)
        → IsReady (state_in (D.meaning disk.old)) records old s → IsUpdate old t number update.now
        → LeavesOnly (D.meaning disk.old) (D.meaning disk.new) (λ image. Says image records old s) }
    ensures ok { IsTrue D.honest → (records : List Fields) (old : Catalog) (s t : Keyspaces) (number : ℕ)
        → IsReady (state_in (D.meaning disk.old)) records old s → IsUpdate old t number update.now
        → OnOk result (IsCatalogWritten (state_in (D.meaning disk.new)) records old s update.now.catalog t) }
    ensures served { IsTrue D.honest → (records : List Fields) (old : Catalog) (s t : Keyspaces) (number : ℕ)
        → IsReady (state_in (D.meaning disk.old)) records old s → IsUpdate old t number update.now
        → AllServed (D.meaning disk.old) (D.meaning disk.new) }
    ensures cause { OnlyFaults (D.meaning disk.old) (D.meaning disk.new) result }
    ensures kinds { IsTrue D.honest → (old : Catalog) (t : Keyspaces) (number : ℕ) → IsUpdate old t number update.now
        → StaysTidy (D.meaning disk.old) (D.meaning disk.new) }
{
    let Some(table) = &update.table else {
        return Ok(());
    };
    put_tables(disk, TREE_FOLDER, slice::from_ref(table))
}

/// Appends the record of a change whose table is written, and syncs it: from then on the new catalog counts.
pub fn commit<D: Disk>(disk: &mut D, update: &Update) -> Result<()>
    ensures within { IsTrue D.honest → Within (keyspace_folder 0) (D.meaning disk.old) (D.meaning disk.new) }
    // A crash at any moment of the call leaves what the old catalog says or what the new one says.
    ensures any_moment { IsTrue D.honest → (records : List Fields) (old : Catalog) (s t : Keyspaces) (number : ℕ) → AreKeyspaces t
        → IsUpdate old t number update.now
        → IsCatalogWritten (state_in (D.meaning disk.old)) records old s update.now.catalog t
        → LeavesOnly (D.meaning disk.old) (D.meaning disk.new) (SaysEither records old s update.now.catalog t) }
    ensures ok { IsTrue D.honest → (records : List Fields) (old : Catalog) (s t : Keyspaces) (number : ℕ) → AreKeyspaces t → IsUpdate old t number update.now
        → IsCatalogWritten (state_in (D.meaning disk.old)) records old s update.now.catalog t
        → OnOk result (IsReady (state_in (D.meaning disk.new)) (records ++ fields update.now.catalog ∷ []) update.now.catalog t) }
    ensures no_folder { IsTrue D.honest → (q : Name) → IsNoFolder (state_in (D.meaning disk.old) q).now → IsNoFolder (state_in (D.meaning disk.new) q).now }
    ensures served { IsTrue D.honest → (records : List Fields) (old next : Catalog) (s t : Keyspaces)
        → IsCatalogWritten (state_in (D.meaning disk.old)) records old s next t → AllServed (D.meaning disk.old) (D.meaning disk.new) }
    ensures cause { OnlyFaults (D.meaning disk.old) (D.meaning disk.new) result }
    ensures kinds { IsTrue D.honest → StaysTidy (D.meaning disk.old) (D.meaning disk.new) }
{
    append_record(disk, TREE_RECORDS, &update.record_text)
}

/// Removes the table of the catalog before a change that counts, where it had one. A crash may bring its file back until
/// tree 0's folder is synced; it means nothing.
pub fn remove_old<D: Disk>(disk: &mut D, update: &Update) -> Result<()>
    ensures within { IsTrue D.honest → (old : Catalog) (t : Keyspaces) (number : ℕ) → IsUpdate old t number update.now
        → Within (keyspace_folder 0) (D.meaning disk.old) (D.meaning disk.new) }
    // A crash at any moment of the call leaves what the new catalog says.
    ensures any_moment { IsTrue D.honest → (records : List Fields) (old : Catalog) (t : Keyspaces) (number : ℕ) → IsUpdate old t number update.now
        → IsRecord (fields old)
        → IsReady (state_in (D.meaning disk.old)) records update.now.catalog t
        → LeavesOnly (D.meaning disk.old) (D.meaning disk.new) (λ image. Says image records update.now.catalog t) }
    // It stays ready, also where the call fails.
    ensures ready { IsTrue D.honest → (records : List Fields) (old : Catalog) (t : Keyspaces) (number : ℕ) → IsUpdate old t number update.now
        → IsRecord (fields old)
        → IsReady (state_in (D.meaning disk.old)) records update.now.catalog t → IsReady (state_in (D.meaning disk.new)) records update.now.catalog t }
    ensures served { IsTrue D.honest → (old : Catalog) (t : Keyspaces) (number : ℕ) → IsUpdate old t number update.now
        → IfSome old.table (λ table. IsNoFolder (state_in (D.meaning disk.old) (table_name 0 table.id)).now)
        → AllServed (D.meaning disk.old) (D.meaning disk.new) }
    ensures cause { OnlyFaults (D.meaning disk.old) (D.meaning disk.new) result }
    ensures gone { IsTrue D.honest → (old : Catalog) (t : Keyspaces) (number : ℕ) → IsUpdate old t number update.now
        → OnOk result (IsTableGone (state_in (D.meaning disk.new)) old) }
    ensures kinds { IsTrue D.honest → StaysTidy (D.meaning disk.old) (D.meaning disk.new) }
{
    let Some(name) = &update.old_table else {
        return Ok(());
    };
    remove_tables(disk, slice::from_ref(name))
}
