//! Files cut to the bytes that count.

ghost use Rattle.std.specs.Prelude.{◌≡◌, ◌≢◌, IsTrue, MatchBool, OnOk};
ghost use Rattle.fjall_base.specs.Disk.{IsFile, IsLong, LeavesOnly, Name, OnlyFaults, state_in};
ghost use Rattle.fjall_files.specs.Calls.{AllServed};
ghost use Rattle.fjall_files.specs.Tidy.{StaysTidy};
ghost use Rattle.fjall_files.specs.Trims.{IsTrimmed, ended_place};

use fjall_base::{Disk, Result};

/// Cuts a file to its first bytes, or syncs it where nothing is to be cut: then all that it has is safe.
///
/// It is a fault where no file has the name, or a file that is to be cut is shorter. A crash during the call leaves what
/// a crash before it might have left, but that of this file more than the first bytes may be gone.
pub fn end_file<D: Disk>(disk: &mut D, file: &str, cut: bool, len: usize) -> Result<()>
    ensures ended { IsTrue D.honest → OnOk result (state_in (D.meaning disk.new) file.now ≡ ended_place cut len (state_in (D.meaning disk.old) file.now)) }
    ensures elsewhere { IsTrue D.honest → (q : Name) → q ≢ file.now → state_in (D.meaning disk.new) q ≡ state_in (D.meaning disk.old) q }
    ensures any_moment { IsTrue D.honest → LeavesOnly (D.meaning disk.old) (D.meaning disk.new) (IsTrimmed (state_in (D.meaning disk.old)) file.now len) }
    ensures served { IsTrue D.honest
        → MatchBool cut (IsLong len (state_in (D.meaning disk.old) file.now).now) (IsFile (state_in (D.meaning disk.old) file.now).now)
        → AllServed (D.meaning disk.old) (D.meaning disk.new) }
    ensures cause { OnlyFaults (D.meaning disk.old) (D.meaning disk.new) result }
    ensures kinds { IsTrue D.honest → StaysTidy (D.meaning disk.old) (D.meaning disk.new) }
{
    if cut {
        disk.cut_sync(file, len)
    } else {
        disk.sync(file)
    }
}
