//! A folder and its files, made, filled and removed.

ghost use Rattle.std.specs.Prelude.{◌≡◌, ◌≢◌, ◌∷◌, [], true, map, All, IsTrue, OnOk, string_bytes};
ghost use Rattle.fjall_base.specs.Disk.{Name, Append, Sync, File, Folder, Missing, OnlyFaults, Took, CanCreate, CanMakeFolder, IsFile, IsNoFolder, folder_of, state_in};
ghost use Rattle.fjall_files.specs.Calls.{AllServed};
ghost use Rattle.fjall_files.specs.Tidy.{FitsAt, StaysTidy};
ghost use Rattle.fjall_files.specs.Regions.{HoldsOnly, IsMade, IsSafe, Within, is_under};

use fjall_base::{Disk, Result};

/// Adds bytes at the end of a file, and syncs it.
///
/// It is a fault where no file has the name. A call that fails may have added a beginning of the bytes, or all of them.
pub fn append_synced<D: Disk>(disk: &mut D, file: &str, bytes: &[u8]) -> Result<()>
    ensures took { IsTrue D.honest → OnOk result (Took (D.meaning disk.old) (D.meaning disk.new) (Append file.now bytes.now ∷ Sync file.now ∷ [])) }
    ensures within { IsTrue D.honest → (folder : Name) → is_under folder file.now ≡ true → Within folder (D.meaning disk.old) (D.meaning disk.new) }
    ensures served { IsTrue D.honest → IsFile (state_in (D.meaning disk.old) file.now).now → AllServed (D.meaning disk.old) (D.meaning disk.new) }
    ensures cause { OnlyFaults (D.meaning disk.old) (D.meaning disk.new) result }
    ensures kinds { IsTrue D.honest → StaysTidy (D.meaning disk.old) (D.meaning disk.new) }
{
    disk.append(file, bytes)?;
    disk.sync(file)
}

/// Makes a file of these bytes where none is, and syncs it; its name is not yet safe.
pub fn make_file<D: Disk>(disk: &mut D, file: &str, bytes: &[u8]) -> Result<()>
    ensures made { IsTrue D.honest → (state_in (D.meaning disk.old) file.now).now ≡ Missing
        → OnOk result ((state_in (D.meaning disk.new) file.now).now ≡ File bytes.now []) }
    ensures within { IsTrue D.honest → (folder : Name) → is_under folder file.now ≡ true → Within folder (D.meaning disk.old) (D.meaning disk.new) }
    ensures served { IsTrue D.honest → CanCreate (state_in (D.meaning disk.old)) file.now → AllServed (D.meaning disk.old) (D.meaning disk.new) }
    ensures cause { OnlyFaults (D.meaning disk.old) (D.meaning disk.new) result }
    ensures kinds { IsTrue D.honest → FitsAt file.now (File [] []) → StaysTidy (D.meaning disk.old) (D.meaning disk.new) }
{
    disk.create(file)?;
    append_synced(disk, file, bytes)
}

/// Makes a folder with one file of these bytes, both where none is, and syncs the file; their names are not yet safe.
///
/// What a call that fails has done lies in that folder.
pub fn make_home<D: Disk>(disk: &mut D, folder: &str, file: &str, bytes: &[u8]) -> Result<()>
    requires inside { folder_of file.now ≡ folder.now }
    ensures made { IsTrue D.honest → (state_in (D.meaning disk.old) file.now).now ≡ Missing
        → OnOk result (IsMade (state_in (D.meaning disk.new)) folder.now file.now bytes.now) }
    ensures within { IsTrue D.honest → Within folder.now (D.meaning disk.old) (D.meaning disk.new) }
    ensures served { IsTrue D.honest → CanMakeFolder (state_in (D.meaning disk.old)) folder.now
        → IsNoFolder (state_in (D.meaning disk.old) file.now).now → AllServed (D.meaning disk.old) (D.meaning disk.new) }
    ensures cause { OnlyFaults (D.meaning disk.old) (D.meaning disk.new) result }
    ensures kinds { IsTrue D.honest → FitsAt folder.now Folder → FitsAt file.now (File [] []) → StaysTidy (D.meaning disk.old) (D.meaning disk.new) }
{
    disk.make_folder(folder)?;
    make_file(disk, file, bytes)
}

/// Makes a file of these bytes in a folder, where none is, and syncs it and the folder: then it and its name are safe.
///
/// What a call that fails has done lies in that folder.
pub fn put_file<D: Disk>(disk: &mut D, folder: &str, file: &str, bytes: &[u8]) -> Result<()>
    requires inside { folder_of file.now ≡ folder.now }
    ensures safe { IsTrue D.honest → (state_in (D.meaning disk.old) file.now).now ≡ Missing
        → OnOk result (IsSafe (state_in (D.meaning disk.new)) file.now bytes.now) }
    ensures within { IsTrue D.honest → folder.now ≢ [] → Within folder.now (D.meaning disk.old) (D.meaning disk.new) }
    ensures served { IsTrue D.honest → CanCreate (state_in (D.meaning disk.old)) file.now → AllServed (D.meaning disk.old) (D.meaning disk.new) }
    ensures cause { OnlyFaults (D.meaning disk.old) (D.meaning disk.new) result }
    ensures kinds { IsTrue D.honest → FitsAt file.now (File [] []) → StaysTidy (D.meaning disk.old) (D.meaning disk.new) }
{
    make_file(disk, file, bytes)?;
    disk.sync_folder(folder)
}

/// Removes files of a folder, and then the folder, where they are there. A crash may bring each of them back until the
/// folder that it was in is synced.
///
/// It is a fault where the folder holds anything else. Where the files are right in that folder, what a call that fails has
/// done lies in it too.
pub fn remove_home<D: Disk>(disk: &mut D, folder: &str, files: &[String]) -> Result<()>
    ensures gone { IsTrue D.honest → OnOk result ((state_in (D.meaning disk.new) folder.now).now ≡ Missing) }
    ensures within { IsTrue D.honest → All (λ file. folder_of (string_bytes file) ≡ folder.now) files.now → folder.now ≢ []
        → Within folder.now (D.meaning disk.old) (D.meaning disk.new) }
    ensures served { IsTrue D.honest → HoldsOnly (state_in (D.meaning disk.old)) folder.now (map string_bytes files.now)
        → AllServed (D.meaning disk.old) (D.meaning disk.new) }
    ensures cause { OnlyFaults (D.meaning disk.old) (D.meaning disk.new) result }
    ensures kinds { IsTrue D.honest → StaysTidy (D.meaning disk.old) (D.meaning disk.new) }
{
    for file in files {
        disk.remove(file.as_str())?;
    }
    disk.remove_folder(folder)
}
