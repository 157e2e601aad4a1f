//! A keyspace that is deleted: the catalog names it no more, and its files stay until they are removed.

ghost use Rattle.std.specs.Prelude.{◌≡◌, ◌++◌, ◌∷◌, [], IsTrue, OnOk, codes};
ghost use Rattle.fjall_base.specs.Disk.{LeavesOnly, OnlyFaults, state_in};
ghost use Rattle.fjall_files.specs.Regions.{Within};
ghost use Rattle.fjall_files.specs.Tidy.{StaysTidy};
ghost use Rattle.fjall_manifest.specs.Catalog.{fields};
ghost use Rattle.fjall_manifest.specs.Updates.{IsTableGone};
ghost use Rattle.fjall_recovery.specs.Places.{LiesInTree};
ghost use Rattle.fjall_changes.specs.Journaling.{KeepsOtherHomes};
ghost use Rattle.fjall_changes.specs.Changes.{HasEither, ForUpdate, ForDeletionOn};

use crate::change::change_tree;
use fjall_base::{Disk, Result};
use fjall_manifest::Update;

/// Deletes a keyspace by a change of the catalog to one of the others. It takes no memory.
///
/// A call that fails may have done all of it.
pub fn delete_keyspace<D: Disk>(disk: &mut D, update: &Update) -> Result<()>
    ensures within { IsTrue D.honest → ForUpdate update.now (λ old. Within (codes "keyspaces") (D.meaning disk.old) (D.meaning disk.new)) }
    // A crash at any moment of the call leaves the keyspaces before or the others.
    ensures any_moment { IsTrue D.honest → ForDeletionOn (D.meaning disk.old) update.now (λ records t next.
        LeavesOnly (D.meaning disk.old) (D.meaning disk.new) (HasEither t next)) }
    // At Ok only the others.
    ensures ok { IsTrue D.honest → ForDeletionOn (D.meaning disk.old) update.now (λ records t next.
        OnOk result (LiesInTree (state_in (D.meaning disk.new)) (records ++ fields update.now.catalog ∷ []) next)) }
    // The homes of all keyspaces stay, also where the call fails.
    ensures others { IsTrue D.honest → ForUpdate update.now (λ old. KeepsOtherHomes 0 (D.meaning disk.old) (D.meaning disk.new)) }
    ensures served { IsTrue D.honest → ForDeletionOn (D.meaning disk.old) update.now (λ records t next.
        (D.meaning disk.new).misuses ≡ (D.meaning disk.old).misuses) }
    ensures cause { OnlyFaults (D.meaning disk.old) (D.meaning disk.new) result }
    // The old table of tree 0 is gone.
    ensures gone { IsTrue D.honest → ForUpdate update.now (λ old. OnOk result (IsTableGone (state_in (D.meaning disk.new)) old)) }
    ensures kinds { IsTrue D.honest → ForUpdate update.now (λ old. StaysTidy (D.meaning disk.old) (D.meaning disk.new)) }
{
    change_tree(disk, update)
}
