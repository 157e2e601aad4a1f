//! The change of the catalog, once all that the keyspaces after it rest on is safe.

ghost use Rattle.std.specs.Prelude.{◌≡◌, ◌++◌, ◌∷◌, [], IsTrue, OnOk};
ghost use Rattle.fjall_base.specs.Disk.{LeavesOnly, OnlyFaults, state_in};
ghost use Rattle.fjall_files.specs.Regions.{Within};
ghost use Rattle.fjall_files.specs.Names.{keyspace_folder};
ghost use Rattle.fjall_files.specs.Tidy.{StaysTidy};
ghost use Rattle.fjall_manifest.specs.Catalog.{fields};
ghost use Rattle.fjall_manifest.specs.Updates.{IsTableGone};
ghost use Rattle.fjall_recovery.specs.Places.{LiesInTree};
ghost use Rattle.fjall_changes.specs.Changes.{HasEither, ForUpdate, ForUpdateOn};

use fjall_base::{Disk, Result};
use fjall_manifest::{Update, commit, remove_old, write_table};

/// Changes the catalog: its new table, the record that makes it count, and the removal of the old table.
pub(crate) fn change_tree<D: Disk>(disk: &mut D, update: &Update) -> Result<()>
    ensures within { IsTrue D.honest → ForUpdate update.now (λ old. Within (keyspace_folder 0) (D.meaning disk.old) (D.meaning disk.new)) }
    // A crash at any moment of the call leaves the keyspaces before or those after it.
    ensures any_moment { IsTrue D.honest → ForUpdateOn (D.meaning disk.old) update.now (λ records t next.
        LeavesOnly (D.meaning disk.old) (D.meaning disk.new) (HasEither t next)) }
    ensures ok { IsTrue D.honest → ForUpdateOn (D.meaning disk.old) update.now (λ records t next.
        OnOk result (LiesInTree (state_in (D.meaning disk.new)) (records ++ fields update.now.catalog ∷ []) next)) }
    ensures served { IsTrue D.honest → ForUpdateOn (D.meaning disk.old) update.now (λ records t next.
        (D.meaning disk.new).misuses ≡ (D.meaning disk.old).misuses) }
    ensures cause { OnlyFaults (D.meaning disk.old) (D.meaning disk.new) result }
    ensures gone { IsTrue D.honest → ForUpdate update.now (λ old. OnOk result (IsTableGone (state_in (D.meaning disk.new)) old)) }
    ensures kinds { IsTrue D.honest → ForUpdate update.now (λ old. StaysTidy (D.meaning disk.old) (D.meaning disk.new)) }
{
    write_table(disk, update)?;
    commit(disk, update)?;
    remove_old(disk, update)
}
