//! The journals and the keyspaces that a folder lists.

ghost use Rattle.std.specs.Prelude.{◌≡◌, ◌≤◌, [], IsTrue, IfErr, IfOk, OnOk};
ghost use Rattle.std.specs.List.Sorted.{IsStrictlyIncreasing};
ghost use Rattle.fjall_base.specs.declared.error.Error.{Error};
ghost use Rattle.fjall_base.specs.declared.error.JournalRecoveryError.{JournalRecoveryError};
ghost use Rattle.fjall_base.specs.Disk.{Took};
ghost use Rattle.fjall_recovery.specs.Journals.{AreJournalIds};
ghost use Rattle.fjall_recovery.specs.Naming.{AreFolderIds, JournalsAreNamed, KeyspacesAreNamed};
ghost use Rattle.fjall_recovery.specs.Refusals.{HasRisen, IsDue, IsOpeningRefusal};
ghost use Rattle.fjall_files.specs.Calls.{seen, AllServed};

use fjall_base::{Disk, Error, JournalRecoveryError, Result};
use fjall_files::{KEYSPACES_FOLDER, journals, keyspaces};
use std::alloc::Global;

/// The ids of the journals in the root, ascending. A file that is named nearly like one is `InvalidFileName`.
pub(crate) fn list_journals<D: Disk>(alloc: Global, disk: &mut D) -> Result<Vec<u64>>
    ensures ids { IsTrue D.honest → IfOk result (λ ids. AreJournalIds (seen (D.meaning disk.old)) ids.items) }
    ensures ascending { IfOk result (λ ids. IsStrictlyIncreasing ids.items) }
    ensures named { IsTrue D.honest → OnOk result (JournalsAreNamed (seen (D.meaning disk.old))) }
    ensures same { IsTrue D.honest → Took (D.meaning disk.old) (D.meaning disk.new) [] }
    ensures served { IsTrue D.honest → AllServed (D.meaning disk.old) (D.meaning disk.new) }
    ensures later { (D.meaning disk.old).faults ≤ (D.meaning disk.new).faults }
    ensures risen { IfErr result (HasRisen (D.meaning disk.old).faults (D.meaning disk.new).faults) }
    ensures cause { IsTrue D.honest
        → IfErr result (IsDue (λ error. (error ≡ Error.JournalRecovery JournalRecoveryError.InvalidFileName)
        × (JournalsAreNamed (seen (D.meaning disk.old)) → ⊥))) }
    ensures listed { IfErr result IsOpeningRefusal }
{
    let listed = disk.list(alloc, "")?;
    journals(alloc, &listed)
}

/// The ids of the keyspaces that have a folder, ascending. A folder that isn't named by an id is `Unrecoverable`.
pub fn list_keyspaces<D: Disk>(alloc: Global, disk: &mut D) -> Result<Vec<u64>>
    ensures ids { IsTrue D.honest → IfOk result (λ ids. AreFolderIds (seen (D.meaning disk.old)) ids.items) }
    ensures named { IsTrue D.honest → OnOk result (KeyspacesAreNamed (seen (D.meaning disk.old))) }
    ensures same { IsTrue D.honest → Took (D.meaning disk.old) (D.meaning disk.new) [] }
    ensures served { IsTrue D.honest → AllServed (D.meaning disk.old) (D.meaning disk.new) }
    ensures later { (D.meaning disk.old).faults ≤ (D.meaning disk.new).faults }
    ensures risen { IfErr result (HasRisen (D.meaning disk.old).faults (D.meaning disk.new).faults) }
    ensures cause { IsTrue D.honest → IfErr result (IsDue (λ error. (error ≡ Error.Unrecoverable) × (KeyspacesAreNamed (seen (D.meaning disk.old)) → ⊥))) }
    ensures listed { IfErr result IsOpeningRefusal }
{
    let listed = disk.list(alloc, KEYSPACES_FOLDER)?;
    keyspaces(alloc, &listed)
}
