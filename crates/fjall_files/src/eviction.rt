//! The removal of one sealed journal.

ghost use Rattle.std.specs.Prelude.{◌≡◌, ◌⊎◌, [], IsTrue, OnErr, OnOk};
ghost use Rattle.fjall_base.specs.Disk.{IsNoFolder, OnlyFaults, Took, removing, state_in};
ghost use Rattle.fjall_files.specs.Evictions.{evicting_one};

use fjall_base::{Disk, Result};

/// Removes a file of the root, where it is there, and syncs the root: then no crash brings it back.
///
/// A call that fails may have removed it.
pub(crate) fn evict<D: Disk>(disk: &mut D, name: &str) -> Result<()>
    ensures took { IsTrue D.honest → OnOk result (Took (D.meaning disk.old) (D.meaning disk.new) (evicting_one (state_in (D.meaning disk.old)) name.now)) }
    ensures part { IsTrue D.honest → OnErr result (Took (D.meaning disk.old) (D.meaning disk.new) []
        ⊎ Took (D.meaning disk.old) (D.meaning disk.new) (removing name.now (state_in (D.meaning disk.old) name.now).now)) }
    ensures served { IsTrue D.honest → IsNoFolder (state_in (D.meaning disk.old) name.now).now → (D.meaning disk.new).misuses ≡ (D.meaning disk.old).misuses }
    ensures cause { OnlyFaults (D.meaning disk.old) (D.meaning disk.new) result }
{
    disk.remove(name)?;
    disk.sync_folder("")
}
