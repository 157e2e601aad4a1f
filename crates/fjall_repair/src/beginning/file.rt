//! Files that are made whole, whatever a crash left of them.

ghost use Rattle.std.specs.Prelude.{◌≡◌, ◌≢◌, [], Bool, IsTrue, OnOk, ◌⊎◌, ◌∷◌, ◌++◌};
ghost use Rattle.fjall_base.specs.Disk.{CanCreate, File, IsFile, OnlyFaults, state_in};
ghost use Rattle.fjall_files.specs.Texts.{text_in};
ghost use Rattle.fjall_files.specs.Calls.{seen, AllServed};
ghost use Rattle.fjall_files.specs.Tidy.{FitsAt, StaysTidy};
ghost use Rattle.fjall_repair.specs.Plans.{FindsAt, IsFilled};
ghost use Rattle.fjall_repair.specs.Making.{CanHold, MakingGoesOn, StaysAt};

use crate::beginning::plan::FileState;
use fjall_base::{Disk, Result};

/// Adds bytes to an empty file, and syncs it.
fn fill<D: Disk>(disk: &mut D, name: &str, bytes: &[u8]) -> Result<()>
    ensures goes { IsTrue D.honest → (marking : Bool) → CanHold marking name.now bytes.now → text_in (seen (D.meaning disk.old) name.now) ≡ []
        → MakingGoesOn marking (D.meaning disk.old) (D.meaning disk.new) }
    ensures stays { IsTrue D.honest → StaysAt name.now (D.meaning disk.old) (D.meaning disk.new) }
    ensures filled { IsTrue D.honest → text_in (seen (D.meaning disk.old) name.now) ≡ []
        → OnOk result (IsFilled (state_in (D.meaning disk.new)) name.now bytes.now) }
    ensures cause { OnlyFaults (D.meaning disk.old) (D.meaning disk.new) result }
    ensures kinds { IsTrue D.honest → StaysTidy (D.meaning disk.old) (D.meaning disk.new) }
    ensures served { IsTrue D.honest → IsFile (state_in (D.meaning disk.old) name.now).now → AllServed (D.meaning disk.old) (D.meaning disk.new) }
    ensures older { IsTrue D.honest → (state_in (D.meaning disk.new) name.now).older ≡ (state_in (D.meaning disk.old) name.now).older }
{
    disk.append(name, bytes)?;
    disk.sync(name)
}

/// Makes a file of these bytes, of which this was found: a file that has all of them is only synced, and other bytes are
/// cut off first.
pub(crate) fn complete_file<D: Disk>(
    disk: &mut D,
    name: &str,
    found: FileState,
    bytes: &[u8],
) -> Result<()>
    ensures goes { IsTrue D.honest → (marking : Bool) → CanHold marking name.now bytes.now → FindsAt (seen (D.meaning disk.old)) name.now bytes.now found
        → MakingGoesOn marking (D.meaning disk.old) (D.meaning disk.new) }
    ensures stays { IsTrue D.honest → StaysAt name.now (D.meaning disk.old) (D.meaning disk.new) }
    ensures filled { IsTrue D.honest → FindsAt (seen (D.meaning disk.old)) name.now bytes.now found
        → OnOk result (IsFilled (state_in (D.meaning disk.new)) name.now bytes.now) }
    ensures cause { OnlyFaults (D.meaning disk.old) (D.meaning disk.new) result }
    ensures kinds { IsTrue D.honest → FitsAt name.now (File [] []) → StaysTidy (D.meaning disk.old) (D.meaning disk.new) }
    ensures served { IsTrue D.honest → CanCreate (state_in (D.meaning disk.old)) name.now → bytes.now ≢ []
        → FindsAt (seen (D.meaning disk.old)) name.now bytes.now found
        → AllServed (D.meaning disk.old) (D.meaning disk.new) }
    // What stood at the name may come back, and nothing else.
    ensures older { IsTrue D.honest → ((state_in (D.meaning disk.new) name.now).older ≡ (state_in (D.meaning disk.old) name.now).older)
        ⊎ ((state_in (D.meaning disk.new) name.now).older ≡ (state_in (D.meaning disk.old) name.now).older
        ++ (state_in (D.meaning disk.old) name.now).now ∷ []) }
{
    match found {
        FileState::Whole => disk.sync(name),
        FileState::Nothing => {
            disk.create(name)?;
            fill(disk, name, bytes)
        }
        FileState::Other => {
            disk.cut_sync(name, 0)?;
            fill(disk, name, bytes)
        }
    }
}
