//! How a keyspace's home changes on the disk, whichever job or ingestion changes it: new tables are put into its folder, the next record
//! makes them count, and tables that this names no more are removed.

ghost use Rattle.std.specs.Prelude.{◌≡◌, ◌≢◌, ◌++◌, ◌∷◌, [], ℕ, List, All, IsTrue, OnOk, length, map, string_bytes};
ghost use Rattle.fjall_base.specs.Disk.{CanCreate, File, LeavesOnly, LeavesOnlyBy, Name, OnlyFaults, folder_of, state_in};
ghost use Rattle.fjall_files.specs.Calls.{AllServed};
ghost use Rattle.fjall_files.specs.Names.{IsNameOf, current_name, keyspace_folder, table_name};
ghost use Rattle.fjall_files.specs.Regions.{Within};
ghost use Rattle.fjall_files.specs.Tidy.{FitsAt, StaysTidy};
ghost use Rattle.fjall_manifest.specs.Records.{Fields, IsRecord, record_text};
ghost use Rattle.fjall_manifest.specs.Homes.{HasHome, Home, Rests, SyncedStays};
ghost use Rattle.fjall_manifest.specs.Changes.{AreGone, HasEitherHome};
ghost use Rattle.fjall_recovery.specs.Halves.{HasTree};
ghost use Rattle.fjall_recovery.specs.Places.{LiesInTree};
ghost use Rattle.fjall_compaction.specs.FlushPlans.{HaveFiles, IsPut};
ghost use Rattle.fjall_compaction.specs.MergePlans.{ForTaken, ForTakenOn, HasNoTableFolder};
ghost use Rattle.fjall_compaction.specs.Putting.{ArePut, ForFiles, ForFilesOn, HaveNoFolders, KeepsBesideTables};

use fjall_base::{Disk, Result};
use fjall_files::make_file;
use fjall_jobs::MadeTable;
use fjall_manifest::remove_tables;

/// Takes away what stands under a name, and makes a file of these bytes there, which is synced; its name isn't safe yet.
fn put_anew<D: Disk>(disk: &mut D, file: &str, bytes: &[u8]) -> Result<()>
    // Nothing else changes.
    ensures within { IsTrue D.honest → Within file.now (D.meaning disk.old) (D.meaning disk.new) }
    ensures made { IsTrue D.honest → OnOk result ((state_in (D.meaning disk.new) file.now).now ≡ File bytes.now []) }
    // Where a file can be made there, or stands there, each call was one that a disk can serve.
    ensures served { IsTrue D.honest → CanCreate (state_in (D.meaning disk.old)) file.now → folder_of file.now ≢ file.now → AllServed (D.meaning disk.old) (D.meaning disk.new) }
    ensures cause { OnlyFaults (D.meaning disk.old) (D.meaning disk.new) result }
    ensures kinds { IsTrue D.honest → FitsAt file.now (File [] []) → StaysTidy (D.meaning disk.old) (D.meaning disk.new) }
{
    disk.remove(file)?;
    make_file(disk, file, bytes)
}

/// Writes tables that were made, as many as a job or an ingestion made, and syncs them and their names; nothing where none was made.
/// Files that nothing names, under the new tables' ids, are taken away first. The home counts as it was.
pub(crate) fn put_tables<D: Disk>(
    disk: &mut D,
    folder: &str,
    files: &[String],
    tables: &[MadeTable],
) -> Result<()>
    ensures within { IsTrue D.honest → ForFiles folder.now files.now tables.now (λ id next. Within (keyspace_folder id) (D.meaning disk.old) (D.meaning disk.new)) }
    // A crash at any moment of the call leaves the home as it was, whatever it does to what isn't synced.
    ensures any_moment { IsTrue D.honest → ForFilesOn (D.meaning disk.old) folder.now files.now tables.now (λ id records h.
        LeavesOnlyBy SyncedStays (D.meaning disk.old) (D.meaning disk.new) (λ image. HasHome image id records h)) }
    ensures ok { IsTrue D.honest → ForFilesOn (D.meaning disk.old) folder.now files.now tables.now (λ id records h.
        OnOk result (ArePut (state_in (D.meaning disk.new)) id records h tables.now)) }
    // Where no folder has the name of a new table, each call was one that a disk can serve.
    ensures served { IsTrue D.honest → ForFilesOn (D.meaning disk.old) folder.now files.now tables.now (λ id records h.
        HaveNoFolders (D.meaning disk.old) id h.last.next_table_id (length tables.now) → AllServed (D.meaning disk.old) (D.meaning disk.new)) }
    ensures cause { OnlyFaults (D.meaning disk.old) (D.meaning disk.new) result }
    ensures kinds { IsTrue D.honest → ForFiles folder.now files.now tables.now (λ id next. StaysTidy (D.meaning disk.old) (D.meaning disk.new)) }
    // In sight nothing changes but the new tables' files, whatever lies on the disk.
    ensures beside { IsTrue D.honest → ForFiles folder.now files.now tables.now (λ id next.
        KeepsBesideTables id next (length tables.now) (D.meaning disk.old) (D.meaning disk.new)) }
    // At Ok the tables' files have their bytes.
    ensures files { IsTrue D.honest → ForFiles folder.now files.now tables.now (λ id next. OnOk result (HaveFiles (D.meaning disk.new) id next tables.now)) }
{
    if tables.is_empty() {
        return Ok(());
    }
    for at in 0..tables.len() {
        let Some(file) = files.get(at) else {
            return Ok(());
        };
        put_anew(disk, file.as_str(), &tables[at].bytes)?;
    }
    disk.sync_folder(folder)
}

/// Appends the record of a home whose tables are put there to the file of its records, and syncs it: from then on that home counts.
/// Nothing is asked of what else stands in its folder.
pub fn put_record<D: Disk>(disk: &mut D, file: &str, text: &[u8]) -> Result<()>
    ensures within { IsTrue D.honest → (id : ℕ) → IsNameOf current_name file.now id
        → Within (keyspace_folder id) (D.meaning disk.old) (D.meaning disk.new) }
    // A crash at any moment of the call leaves the home as it was or the next one.
    ensures any_moment { IsTrue D.honest → (id : ℕ) (records : List Fields) (h next : Home) → IsNameOf current_name file.now id
        → IsRecord next.last → text.now ≡ record_text next.last → IsPut (state_in (D.meaning disk.old)) id records h next
        → LeavesOnly (D.meaning disk.old) (D.meaning disk.new) (HasEitherHome id records h next) }
    ensures ok { IsTrue D.honest → (id : ℕ) (records : List Fields) (h next : Home) → IsNameOf current_name file.now id
        → IsRecord next.last → text.now ≡ record_text next.last → IsPut (state_in (D.meaning disk.old)) id records h next
        → OnOk result (Rests (state_in (D.meaning disk.new)) id (records ++ next.last ∷ []) next) }
    ensures served { IsTrue D.honest → (id : ℕ) (records : List Fields) (h : Home) → IsNameOf current_name file.now id
        → Rests (state_in (D.meaning disk.old)) id records h → AllServed (D.meaning disk.old) (D.meaning disk.new) }
    ensures cause { OnlyFaults (D.meaning disk.old) (D.meaning disk.new) result }
    ensures kinds { IsTrue D.honest → StaysTidy (D.meaning disk.old) (D.meaning disk.new) }
    // Nothing beside the file of records changes, whatever lies on the disk.
    ensures beside { IsTrue D.honest → (id : ℕ) → IsNameOf current_name file.now id
        → Within (current_name id) (D.meaning disk.old) (D.meaning disk.new) }
{
    disk.append(file, text)?;
    disk.sync(file)
}

/// Removes the tables that a merge took, which the keyspace's last record names no more. A crash may bring each of them back; they mean
/// nothing then. It takes no memory. The names are those that were planned.
pub fn remove_taken<D: Disk>(disk: &mut D, taken: &[String]) -> Result<()>
    ensures within { IsTrue D.honest → (id : ℕ) (ids : List ℕ) → map string_bytes taken.now ≡ map (table_name id) ids
        → Within (keyspace_folder id) (D.meaning disk.old) (D.meaning disk.new) }
    // A crash at any moment of the call leaves the tree after the merge, which lies there also where the call fails.
    ensures any_moment { IsTrue D.honest → ForTakenOn (D.meaning disk.old) taken.now (λ records t.
        LeavesOnly (D.meaning disk.old) (D.meaning disk.new) (λ image. HasTree image t)) }
    ensures lies { IsTrue D.honest → ForTakenOn (D.meaning disk.old) taken.now (λ records t. LiesInTree (state_in (D.meaning disk.new)) records t) }
    ensures served { IsTrue D.honest → ForTaken taken.now (λ id last m. HasNoTableFolder (D.meaning disk.old) id → AllServed (D.meaning disk.old) (D.meaning disk.new)) }
    ensures cause { OnlyFaults (D.meaning disk.old) (D.meaning disk.new) result }
    ensures kinds { IsTrue D.honest → StaysTidy (D.meaning disk.old) (D.meaning disk.new) }
    // In sight nothing changes but these names.
    ensures beside { IsTrue D.honest → (q : Name) → All (λ name. q ≢ string_bytes name) taken.now → (state_in (D.meaning disk.new) q).now ≡ (state_in (D.meaning disk.old) q).now }
    // At Ok those that it takes are gone.
    ensures gone { IsTrue D.honest → (id : ℕ) (ids : List ℕ) → map string_bytes taken.now ≡ map (table_name id) ids
        → OnOk result (AreGone (state_in (D.meaning disk.new)) id ids) }
{
    remove_tables(disk, taken)
}
