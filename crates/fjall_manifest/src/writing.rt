//! A change of a home on the disk: new tables, the record that makes them count, and the removal of tables that none names.

ghost use Rattle.std.specs.Prelude.{◌≡◌, ◌≢◌, ◌<◌, ◌^◌, ◌++◌, ◌∷◌, [], ℕ, All, List, OnOk, IsTrue, map, string_bytes, true};
ghost use Rattle.fjall_base.specs.Disk.{Append, File, IsNoFolder, LeavesOnly, LeavesOnlyBy, Name, OnlyFaults, Sync, Took, state_in};
ghost use Rattle.fjall_files.specs.Calls.{AllServed};
ghost use Rattle.fjall_files.specs.Names.{IsNameOf, current_name, keyspace_folder, table_name};
ghost use Rattle.fjall_files.specs.Regions.{Within, is_under};
ghost use Rattle.fjall_files.specs.Tidy.{FitsAt, StaysTidy};
ghost use Rattle.fjall_table.specs.declared.table_info.TableInfo.{TableInfo};
ghost use Rattle.fjall_manifest.specs.Records.{Fields, IsRecord, record_text};
ghost use Rattle.fjall_manifest.specs.Homes.{HasHome, Home, IsReady, Rests, SyncedStays};
ghost use Rattle.fjall_manifest.specs.Changes.{AreGone, AreNewTables, AreUnnamed, HasEitherHome, IsHomeWritten, IsNext};

use fjall_base::{Disk, Result};
use fjall_files::make_file;

/// The file of a table that is to be written.
#[derive(Debug, Drop)]
pub struct TableFile {
    /// Its name, from the root on.
    pub name: String,
    pub bytes: Vec<u8>,
}

/// Writes new tables into a home's folder, and syncs them and their names; nothing where there are none. The home counts
/// as it was.
pub fn put_tables<D: Disk>(disk: &mut D, folder: &str, files: &[TableFile]) -> Result<()>
    ensures within { IsTrue D.honest → (id next : ℕ) (infos : List TableInfo) (texts : List (List ℕ)) → IsNameOf keyspace_folder folder.now id
        → AreNewTables id next infos files.now texts → Within (keyspace_folder id) (D.meaning disk.old) (D.meaning disk.new) }
    // A crash at any moment of the call leaves the home as it was, whatever it does to what isn't synced.
    ensures any_moment { IsTrue D.honest → (id : ℕ) (records : List Fields) (h : Home) (infos : List TableInfo) (texts : List (List ℕ))
        → IsNameOf keyspace_folder folder.now id → IsReady (state_in (D.meaning disk.old)) id records h → AreNewTables id h.last.next_table_id infos files.now texts
        → LeavesOnlyBy SyncedStays (D.meaning disk.old) (D.meaning disk.new) (λ image. HasHome image id records h) }
    ensures ok { IsTrue D.honest → (id : ℕ) (records : List Fields) (h next : Home) (infos : List TableInfo) (texts : List (List ℕ))
        → IsNameOf keyspace_folder folder.now id → IsReady (state_in (D.meaning disk.old)) id records h → AreNewTables id h.last.next_table_id infos files.now texts
        → IsNext h infos texts next → OnOk result (IsHomeWritten (state_in (D.meaning disk.new)) id records h next) }
    ensures served { IsTrue D.honest → (id : ℕ) (records : List Fields) (h : Home) (infos : List TableInfo) (texts : List (List ℕ))
        → IsNameOf keyspace_folder folder.now id → IsReady (state_in (D.meaning disk.old)) id records h → AreNewTables id h.last.next_table_id infos files.now texts
        → AllServed (D.meaning disk.old) (D.meaning disk.new) }
    ensures cause { OnlyFaults (D.meaning disk.old) (D.meaning disk.new) result }
    ensures kinds { IsTrue D.honest → All (λ file. FitsAt (string_bytes file.name) (File [] [])) files.now → StaysTidy (D.meaning disk.old) (D.meaning disk.new) }
{
    if files.is_empty() {
        return Ok(());
    }
    for file in files {
        make_file(disk, file.name.as_str(), &file.bytes)?;
    }
    disk.sync_folder(folder)
}

/// Appends the record of a change whose tables are written, and syncs it: from then on the next home counts.
pub fn append_record<D: Disk>(disk: &mut D, file: &str, text: &[u8]) -> Result<()>
    ensures took { IsTrue D.honest → OnOk result (Took (D.meaning disk.old) (D.meaning disk.new) (Append file.now text.now ∷ Sync file.now ∷ [])) }
    ensures within { IsTrue D.honest → (folder : Name) → is_under folder file.now ≡ true → Within folder (D.meaning disk.old) (D.meaning disk.new) }
    // A crash at any moment of the call leaves the home as it was or the next one.
    ensures any_moment { IsTrue D.honest → (id : ℕ) (records : List Fields) (h next : Home) → IsNameOf current_name file.now id
        → IsRecord next.last → text.now ≡ record_text next.last → IsHomeWritten (state_in (D.meaning disk.old)) id records h next
        → LeavesOnly (D.meaning disk.old) (D.meaning disk.new) (HasEitherHome id records h next) }
    ensures ok { IsTrue D.honest → (id : ℕ) (records : List Fields) (h next : Home) → IsNameOf current_name file.now id
        → IsRecord next.last → text.now ≡ record_text next.last → IsHomeWritten (state_in (D.meaning disk.old)) id records h next
        → OnOk result (IsReady (state_in (D.meaning disk.new)) id (records ++ next.last ∷ []) next) }
    ensures no_folder { IsTrue D.honest → (q : Name) → IsNoFolder (state_in (D.meaning disk.old) q).now → IsNoFolder (state_in (D.meaning disk.new) q).now }
    ensures served { IsTrue D.honest → (id : ℕ) (records : List Fields) (h : Home) → IsNameOf current_name file.now id
        → Rests (state_in (D.meaning disk.old)) id records h → AllServed (D.meaning disk.old) (D.meaning disk.new) }
    ensures cause { OnlyFaults (D.meaning disk.old) (D.meaning disk.new) result }
    ensures kinds { IsTrue D.honest → StaysTidy (D.meaning disk.old) (D.meaning disk.new) }
{
    disk.append(file, text)?;
    disk.sync(file)
}

/// Removes tables that the home's last record names no more. A crash may bring each of them back until the folder is
/// synced; they mean nothing.
pub fn remove_tables<D: Disk>(disk: &mut D, names: &[String]) -> Result<()>
    ensures within { IsTrue D.honest → (id : ℕ) (ids : List ℕ) → map string_bytes names.now ≡ map (table_name id) ids
        → Within (keyspace_folder id) (D.meaning disk.old) (D.meaning disk.new) }
    // A crash at any moment of the call leaves the home as it was, whatever it does to what isn't synced.
    ensures any_moment { IsTrue D.honest → (id : ℕ) (records : List Fields) (h : Home) (ids : List ℕ) → id < 2 ^ 64
        → map string_bytes names.now ≡ map (table_name id) ids → AreUnnamed h ids → IsReady (state_in (D.meaning disk.old)) id records h
        → LeavesOnlyBy SyncedStays (D.meaning disk.old) (D.meaning disk.new) (λ image. HasHome image id records h) }
    // It stays ready, also where the call fails.
    ensures ready { IsTrue D.honest → (id : ℕ) (records : List Fields) (h : Home) (ids : List ℕ) → id < 2 ^ 64
        → map string_bytes names.now ≡ map (table_name id) ids → AreUnnamed h ids → IsReady (state_in (D.meaning disk.old)) id records h
        → IsReady (state_in (D.meaning disk.new)) id records h }
    // Where a table of a later id may stand, it is there at each moment all the same, and rests on.
    ensures rests { IsTrue D.honest → (id : ℕ) (records : List Fields) (h : Home) (ids : List ℕ) → id < 2 ^ 64
        → map string_bytes names.now ≡ map (table_name id) ids → AreUnnamed h ids → Rests (state_in (D.meaning disk.old)) id records h
        → LeavesOnlyBy SyncedStays (D.meaning disk.old) (D.meaning disk.new) (λ image. HasHome image id records h) × Rests (state_in (D.meaning disk.new)) id records h }
    ensures served { IsTrue D.honest → (id : ℕ) (ids : List ℕ) → map string_bytes names.now ≡ map (table_name id) ids
        → All (λ table. IsNoFolder (state_in (D.meaning disk.old) (table_name id table)).now) ids → AllServed (D.meaning disk.old) (D.meaning disk.new) }
    ensures cause { OnlyFaults (D.meaning disk.old) (D.meaning disk.new) result }
    // In sight nothing changes but these names.
    ensures beside { IsTrue D.honest → (q : Name) → All (λ name. q ≢ string_bytes name) names.now → (state_in (D.meaning disk.new) q).now ≡ (state_in (D.meaning disk.old) q).now }
    ensures gone { IsTrue D.honest → (id : ℕ) (ids : List ℕ) → map string_bytes names.now ≡ map (table_name id) ids
        → OnOk result (AreGone (state_in (D.meaning disk.new)) id ids) }
    ensures kinds { IsTrue D.honest → StaysTidy (D.meaning disk.old) (D.meaning disk.new) }
{
    for name in names {
        disk.remove(name.as_str())?;
    }
    Ok(())
}
