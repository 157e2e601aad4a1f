//! The way from one journal to the next one on the disk.

ghost use Rattle.std.specs.Prelude.{◌≡◌, ◌≢◌, ◌⊎◌, [], OnErr, OnOk, IsTrue};
ghost use Rattle.fjall_base.specs.Disk.{CanCreate, IsFile, IsNoFolder, OnlyFaults, Took, folder_of, state_in};
ghost use Rattle.fjall_journal.specs.Writer.{MakingTook, written_out};
ghost use Rattle.fjall_journal.specs.Rotations.{RotationTook, making_safe, rotating};

use crate::persist_mode::PersistMode;
use crate::writer::Writer;
use fjall_base::{Disk, Result};

/// Makes an empty file in the root, where none is there, and syncs it and the root: then it and its name are safe.
///
/// A call that fails may have made the file, and may have synced it.
fn make_safe<D: Disk>(disk: &mut D, name: &str) -> Result<()>
    ensures took { IsTrue D.honest → OnOk result (Took (D.meaning disk.old) (D.meaning disk.new) (making_safe (D.meaning disk.old) name.now)) }
    ensures part { IsTrue D.honest → OnErr result (MakingTook (D.meaning disk.old) (D.meaning disk.new) name.now) }
    ensures free { IsTrue D.honest → OnOk result (IsNoFolder (state_in (D.meaning disk.old) name.now).now) }
    ensures served { IsTrue D.honest → CanCreate (state_in (D.meaning disk.old)) name.now → (D.meaning disk.new).misuses ≡ (D.meaning disk.old).misuses }
    ensures cause { OnlyFaults (D.meaning disk.old) (D.meaning disk.new) result }
{
    disk.create(name)?;
    disk.sync(name)?;
    disk.sync_folder("")
}

impl Writer {
    /// Appends the buffer to the file and syncs that; then makes the next journal's file and syncs it and the root. The
    /// writer stays with its own file: who calls it goes on with a writer of the next one, which it had before.
    pub fn rotate<D: Disk>(&mut self, disk: &mut D, next: &str) -> Result<()>
        ensures ok { OnOk result (self.new ≡ written_out self.old) }
        ensures left { OnErr result ((self.new ≡ self.old) ⊎ (self.new ≡ written_out self.old)) }
        ensures took { IsTrue D.honest → OnOk result (Took (D.meaning disk.old) (D.meaning disk.new) (rotating (D.meaning disk.old) self.old next.now)) }
        ensures part { IsTrue D.honest → OnErr result (RotationTook (D.meaning disk.old) (D.meaning disk.new) self.old self.new next.now) }
        ensures free { IsTrue D.honest → OnOk result (IsNoFolder (state_in (D.meaning disk.old) next.now).now) }
        ensures served { IsTrue D.honest → folder_of next.now ≡ [] → next.now ≢ [] → IsFile (state_in (D.meaning disk.old) self.old.name).now
            → IsNoFolder (state_in (D.meaning disk.old) next.now).now → (D.meaning disk.new).misuses ≡ (D.meaning disk.old).misuses }
        ensures cause { OnlyFaults (D.meaning disk.old) (D.meaning disk.new) result }
    {
        self.persist(disk, PersistMode::SyncAll)?;
        make_safe(disk, next)
    }
}
