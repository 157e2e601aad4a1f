//! Tree 0, with its first record.

ghost use Rattle.std.specs.Prelude.{◌≡◌, [], codes, false, IsTrue, OnOk};
ghost use Rattle.fjall_base.specs.Disk.{File, Folder, OnlyFaults, state_in};
ghost use Rattle.fjall_files.specs.Calls.{seen, AllServed};
ghost use Rattle.fjall_files.specs.Regions.{Within};
ghost use Rattle.fjall_files.specs.Names.{current_name, keyspace_folder};
ghost use Rattle.fjall_files.specs.Tidy.{IsTidy, StaysTidy};
ghost use Rattle.fjall_manifest.specs.Catalog.{records_in};
ghost use Rattle.fjall_repair.specs.Making.{KeepsHomeRecords, MakingGoesOn};
ghost use Rattle.fjall_repair.specs.Plans.{HasFirstTree, first_text, FindsFirst};

use crate::beginning::file::complete_file;
use crate::beginning::plan::FileState;
use fjall_base::{Disk, Result};
use fjall_files::{KEYSPACES_FOLDER, TREE_FOLDER, TREE_RECORDS};

/// Makes the folder of all keyspaces, and in it that of tree 0, where they aren't there.
fn make_folders<D: Disk>(disk: &mut D) -> Result<()>
    ensures goes { IsTrue D.honest → MakingGoesOn false (D.meaning disk.old) (D.meaning disk.new) }
    ensures within { IsTrue D.honest → Within (codes "keyspaces") (D.meaning disk.old) (D.meaning disk.new) }
    ensures outer { IsTrue D.honest → OnOk result ((state_in (D.meaning disk.new) (codes "keyspaces")).now ≡ Folder) }
    ensures inner { IsTrue D.honest → OnOk result ((state_in (D.meaning disk.new) (keyspace_folder 0)).now ≡ Folder) }
    ensures records { IsTrue D.honest → records_in (seen (D.meaning disk.new)) ≡ records_in (seen (D.meaning disk.old)) }
    ensures cause { OnlyFaults (D.meaning disk.old) (D.meaning disk.new) result }
    ensures kinds { IsTrue D.honest → StaysTidy (D.meaning disk.old) (D.meaning disk.new) }
    ensures homes { IsTrue D.honest → KeepsHomeRecords (state_in (D.meaning disk.old)) (state_in (D.meaning disk.new)) }
    ensures served { IsTrue D.honest → IsTidy (state_in (D.meaning disk.old)) → AllServed (D.meaning disk.old) (D.meaning disk.new) }
{
    disk.make_folder(KEYSPACES_FOLDER)?;
    disk.make_folder(TREE_FOLDER)
}

/// Syncs the names in both folders.
fn sync_folders<D: Disk>(disk: &mut D) -> Result<()>
    ensures goes { IsTrue D.honest → MakingGoesOn false (D.meaning disk.old) (D.meaning disk.new) }
    ensures within { IsTrue D.honest → Within (codes "keyspaces") (D.meaning disk.old) (D.meaning disk.new) }
    ensures settled { IsTrue D.honest → (state_in (D.meaning disk.old) (codes "keyspaces")).now ≡ Folder
        → (state_in (D.meaning disk.old) (keyspace_folder 0)).now ≡ Folder
        → (state_in (D.meaning disk.old) (current_name 0)).now ≡ File first_text [] → OnOk result (HasFirstTree (state_in (D.meaning disk.new))) }
    ensures cause { OnlyFaults (D.meaning disk.old) (D.meaning disk.new) result }
    ensures kinds { IsTrue D.honest → StaysTidy (D.meaning disk.old) (D.meaning disk.new) }
    ensures homes { IsTrue D.honest → KeepsHomeRecords (state_in (D.meaning disk.old)) (state_in (D.meaning disk.new)) }
    ensures served { IsTrue D.honest → (state_in (D.meaning disk.old) (codes "keyspaces")).now ≡ Folder
        → (state_in (D.meaning disk.old) (keyspace_folder 0)).now ≡ Folder → AllServed (D.meaning disk.old) (D.meaning disk.new) }
{
    disk.sync_folder(TREE_FOLDER)?;
    disk.sync_folder(KEYSPACES_FOLDER)
}

/// Makes tree 0 with its first record, of which this was found: all of it is safe then, but the name of `keyspaces`.
pub(crate) fn make_tree<D: Disk>(disk: &mut D, found: FileState, text: &[u8]) -> Result<()>
    ensures goes { IsTrue D.honest → text.now ≡ first_text → FindsFirst (seen (D.meaning disk.old)) found
        → MakingGoesOn false (D.meaning disk.old) (D.meaning disk.new) }
    ensures within { IsTrue D.honest → Within (codes "keyspaces") (D.meaning disk.old) (D.meaning disk.new) }
    ensures made { IsTrue D.honest → text.now ≡ first_text → FindsFirst (seen (D.meaning disk.old)) found
        → OnOk result (HasFirstTree (state_in (D.meaning disk.new))) }
    ensures cause { OnlyFaults (D.meaning disk.old) (D.meaning disk.new) result }
    ensures kinds { IsTrue D.honest → StaysTidy (D.meaning disk.old) (D.meaning disk.new) }
    ensures homes { IsTrue D.honest → KeepsHomeRecords (state_in (D.meaning disk.old)) (state_in (D.meaning disk.new)) }
    ensures served { IsTrue D.honest → IsTidy (state_in (D.meaning disk.old)) → text.now ≡ first_text → FindsFirst (seen (D.meaning disk.old)) found
        → AllServed (D.meaning disk.old) (D.meaning disk.new) }
{
    make_folders(disk)?;
    complete_file(disk, TREE_RECORDS, found, text)?;
    sync_folders(disk)
}
