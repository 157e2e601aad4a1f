//! A deleted keyspace whose files are removed: the keyspaces that live stay as they are.

ghost use Rattle.std.specs.Prelude.{◌≡◌, [], false, Err, IsTrue, OnOk, codes};
ghost use Rattle.fjall_base.specs.Disk.{HasCause, LeavesOnly, Name, Took, state_in};
ghost use Rattle.fjall_files.specs.Regions.{Within, is_under};
ghost use Rattle.fjall_files.specs.Names.{keyspace_folder};
ghost use Rattle.fjall_files.specs.Own.{HoldsOnlyOwn};
ghost use Rattle.fjall_files.specs.Tidy.{StaysTidy};
ghost use Rattle.fjall_recovery.specs.Halves.{HasTree};
ghost use Rattle.fjall_recovery.specs.Places.{LiesInTree};
ghost use Rattle.fjall_changes.specs.Removals.{RemovesOwn, ServesRemoval, WhereUnused};

use fjall_base::{Disk, Error, Result};
use fjall_files::{KEYSPACES_FOLDER, list_own_files, remove_home};
use std::alloc::Global;

/// Removes the folder of a keyspace that isn't in the catalog, with the engine's own files in it: that of its records, and
/// tables. Where it holds anything else it is left wholly as it stands.
///
/// `OutOfMemory` comes before anything is changed. A call that fails with `Io` may have removed some of it.
pub fn remove_keyspace<D: Disk>(alloc: Global, disk: &mut D, id: u64) -> Result<()>
    ensures within { IsTrue D.honest → Within (codes "keyspaces") (D.meaning disk.old) (D.meaning disk.new) }
    // What stands anywhere else stands as it did.
    ensures others { IsTrue D.honest → (q : Name) → is_under (keyspace_folder id) q ≡ false
        → (state_in (D.meaning disk.new) q).now ≡ (state_in (D.meaning disk.old) q).now }
    // A crash at any moment of the call leaves the keyspaces that live.
    ensures any_moment { IsTrue D.honest → WhereUnused (D.meaning disk.old) id (λ records t.
        LeavesOnly (D.meaning disk.old) (D.meaning disk.new) (λ image. HasTree image t)) }
    // They lie as they did, also where the call fails.
    ensures lies { IsTrue D.honest → WhereUnused (D.meaning disk.old) id (λ records t. LiesInTree (state_in (D.meaning disk.new)) records t) }
    // Neither the folder is left nor anything in it, and no crash brings it back, unless anything else stood in it.
    ensures removed { IsTrue D.honest → OnOk result (RemovesOwn id (D.meaning disk.old) (D.meaning disk.new)) }
    // Then nothing is changed, also where the call fails.
    ensures left { IsTrue D.honest → (HoldsOnlyOwn (state_in (D.meaning disk.old)) id → ⊥) → Took (D.meaning disk.old) (D.meaning disk.new) [] }
    ensures memory { IsTrue D.honest → result ≡ Err Error.OutOfMemory → Took (D.meaning disk.old) (D.meaning disk.new) [] }
    ensures served { IsTrue D.honest → ServesRemoval (D.meaning disk.old) (D.meaning disk.new) id }
    ensures cause { HasCause (D.meaning disk.old) (D.meaning disk.new) result }
    ensures kinds { IsTrue D.honest → StaysTidy (D.meaning disk.old) (D.meaning disk.new) }
{
    let Some(own) = list_own_files(alloc, disk, id)? else {
        return Ok(());
    };
    remove_home(disk, &own.folder, &own.files)?;
    disk.sync_folder(KEYSPACES_FOLDER)
}
