//! A keyspace that is made: its folder and its first record are safe before the catalog names it.

ghost use Rattle.std.specs.Prelude.{◌≡◌, ◌++◌, ◌∷◌, [], true, IfErr, IfOk, IsTrue, OnOk, codes};
ghost use Rattle.fjall_base.specs.Disk.{File, Folder, LeavesOnly, OnlyFaults, folder_of, state_in};
ghost use Rattle.fjall_files.specs.Regions.{IsMade, Within, is_under};
ghost use Rattle.fjall_files.specs.Tidy.{FitsAt, StaysTidy};
ghost use Rattle.fjall_manifest.specs.Homes.{only};
ghost use Rattle.fjall_manifest.specs.Catalog.{fields};
ghost use Rattle.fjall_manifest.specs.Updates.{IsPreparingRefusal, IsTableGone};
ghost use Rattle.fjall_recovery.specs.Halves.{HasTree};
ghost use Rattle.fjall_recovery.specs.Places.{HasSafeHome, LiesInTree};
ghost use Rattle.fjall_changes.specs.Journaling.{KeepsOtherHomes};
ghost use Rattle.fjall_changes.specs.Changes.{HasEither, HasRoomForKeyspace, IsCreation, ForCreation, ForCreationOn, ForHomeOn, ForNewId, ServesFirstFile, ServesHome, first_home};

use crate::change::change_tree;
use fjall_base::{Disk, Result};
use fjall_files::{KEYSPACES_FOLDER, current_name, keyspace_folder, make_file};
use fjall_manifest::{Catalog, Update, first_record_of, prepare};
use fjall_meta::MetaKeyspace;
use std::alloc::Global;

/// All that the creation of a keyspace writes.
#[derive(Drop)]
pub struct Creation {
    /// The name of its folder, from the root on.
    pub folder: String,
    /// The name of the file of its records, from the root on.
    pub current: String,
    /// The text of its first record.
    pub record_text: Vec<u8>,
    /// The change of the catalog.
    pub update: Update,
}

/// Prepares the creation of the keyspace of this id by the change of this number, from a catalog to one of these
/// keyspaces, which has it already. It changes nothing on the disk, and takes all the memory that the creation needs.
///
/// Refuses what [`prepare`] refuses.
pub fn prepare_creation(
    alloc: Global,
    catalog: &Catalog,
    keyspaces: &MetaKeyspace,
    id: u64,
    number: u64,
) -> Result<Creation>
    ensures ok { IfOk result (IsCreation catalog.now keyspaces.now id number) }
    ensures cause { IfErr result (IsPreparingRefusal catalog.now keyspaces.now number) }
{
    let update = prepare(alloc, catalog, keyspaces, number)?;
    Ok(Creation {
        folder: keyspace_folder(alloc, id)?,
        current: current_name(alloc, id)?,
        record_text: first_record_of(alloc, number)?,
        update,
    })
}

/// Makes a keyspace's folder, where none is, and in it a file of the first record alone, which it syncs. A file that an
/// earlier crash left under that name is taken away first.
fn write_home<D: Disk>(disk: &mut D, folder: &str, current: &str, record_text: &[u8]) -> Result<()>
    ensures made { IsTrue D.honest → folder_of current.now ≡ folder.now
        → OnOk result (IsMade (state_in (D.meaning disk.new)) folder.now current.now record_text.now) }
    ensures within { IsTrue D.honest → is_under folder.now current.now ≡ true → Within folder.now (D.meaning disk.old) (D.meaning disk.new) }
    ensures served { IsTrue D.honest → ServesFirstFile (D.meaning disk.old) (D.meaning disk.new) folder.now current.now }
    ensures cause { OnlyFaults (D.meaning disk.old) (D.meaning disk.new) result }
    ensures kinds { IsTrue D.honest → FitsAt folder.now Folder → FitsAt current.now (File [] []) → StaysTidy (D.meaning disk.old) (D.meaning disk.new) }
{
    disk.make_folder(folder)?;
    disk.remove(current)?;
    make_file(disk, current, record_text)
}

/// Makes the home of a keyspace that the catalog doesn't name yet, and syncs it and its name.
fn build_home<D: Disk>(disk: &mut D, creation: &Creation) -> Result<()>
    ensures within { IsTrue D.honest → ForCreation creation.now (λ old. Within (codes "keyspaces") (D.meaning disk.old) (D.meaning disk.new)) }
    // A crash at any moment of the call leaves the keyspaces that live.
    ensures any_moment { IsTrue D.honest → ForHomeOn (D.meaning disk.old) creation.now (λ records t.
        LeavesOnly (D.meaning disk.old) (D.meaning disk.new) (λ image. HasTree image t)) }
    // They lie as they did, also where the call fails.
    ensures lies { IsTrue D.honest → ForHomeOn (D.meaning disk.old) creation.now (λ records t. LiesInTree (state_in (D.meaning disk.new)) records t) }
    // Where the folder of all keyspaces is safe, so is all of the new home.
    ensures home { IsTrue D.honest → ForNewId creation.now (λ id number. OnOk result (state_in (D.meaning disk.new) (codes "keyspaces") ≡ only Folder
        → HasSafeHome (state_in (D.meaning disk.new)) id (first_home number))) }
    // All other homes stay, also where the call fails.
    ensures others { IsTrue D.honest → ForNewId creation.now (λ id number. KeepsOtherHomes id (D.meaning disk.old) (D.meaning disk.new)) }
    // A folder that is already there may be used; a file in its place, or a folder in that of its file, no disk can pass by.
    ensures served { IsTrue D.honest → ServesHome (D.meaning disk.old) (D.meaning disk.new) creation.now }
    ensures cause { OnlyFaults (D.meaning disk.old) (D.meaning disk.new) result }
    ensures kinds { IsTrue D.honest → ForNewId creation.now (λ id number. StaysTidy (D.meaning disk.old) (D.meaning disk.new)) }
{
    let folder = creation.folder.as_str();
    write_home(
        disk,
        folder,
        creation.current.as_str(),
        &creation.record_text,
    )?;
    disk.sync_folder(folder)?;
    disk.sync_folder(KEYSPACES_FOLDER)
}

/// Makes a keyspace: its folder and its first record, and then the change of the catalog that makes it count. It takes no
/// memory.
///
/// A call that fails may have done all of it.
pub fn create_keyspace<D: Disk>(disk: &mut D, creation: &Creation) -> Result<()>
    ensures within { IsTrue D.honest → ForCreation creation.now (λ old. Within (codes "keyspaces") (D.meaning disk.old) (D.meaning disk.new)) }
    // A crash at any moment of the call leaves the keyspaces before or those with the new one.
    ensures any_moment { IsTrue D.honest → ForCreationOn (D.meaning disk.old) creation.now (λ records t next.
        LeavesOnly (D.meaning disk.old) (D.meaning disk.new) (HasEither t next)) }
    // At Ok only those with the new one.
    ensures ok { IsTrue D.honest → ForCreationOn (D.meaning disk.old) creation.now (λ records t next.
        OnOk result (LiesInTree (state_in (D.meaning disk.new)) (records ++ fields creation.now.update.catalog ∷ []) next)) }
    // The homes of all other keyspaces stay, also where the call fails.
    ensures others { IsTrue D.honest → ForNewId creation.now (λ id number. KeepsOtherHomes id (D.meaning disk.old) (D.meaning disk.new)) }
    ensures served { IsTrue D.honest → ForCreationOn (D.meaning disk.old) creation.now (λ records t next.
        HasRoomForKeyspace (state_in (D.meaning disk.old)) t.keyspaces.next → (D.meaning disk.new).misuses ≡ (D.meaning disk.old).misuses) }
    ensures cause { OnlyFaults (D.meaning disk.old) (D.meaning disk.new) result }
    // The old table of tree 0 is gone.
    ensures gone { IsTrue D.honest → ForCreation creation.now (λ old. OnOk result (IsTableGone (state_in (D.meaning disk.new)) old)) }
    ensures kinds { IsTrue D.honest → ForNewId creation.now (λ id number. StaysTidy (D.meaning disk.old) (D.meaning disk.new)) }
{
    build_home(disk, creation)?;
    change_tree(disk, &creation.update)
}
