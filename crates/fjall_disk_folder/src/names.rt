//! Which names a disk over a folder takes.

ghost use Rattle.std.specs.Prelude.{◌≡◌, IfErr, IsOk, IsTrue, ◌↔◌};
ghost use Rattle.std.specs.IoError.{error_kind};
ghost use Rattle.fjall_disk_folder.specs.Names.{is_entry, is_usable, stays_within};

use std::io::{self, ErrorKind};

/// The file that the disk itself keeps in its folder, and whose lock it holds.
pub(crate) const LOCK: &str = "lock";

// Whether a part of a name is the name of an entry of a folder.
fn is_entry(part: &str) -> bool
    ensures { result ≡ is_entry part.now }
{
    !(part.is_empty() || part == "." || part == "..")
}

/// Whether a name leads to something below the root: each of its parts, which `/` divides, is the name
/// of an entry, so none is empty, `.` or `..`.
pub fn stays_within(name: &str) -> bool
    ensures { result ≡ stays_within name.now }
{
    name.split('/').all(is_entry)
}

/// Whether a call may use a name: it stays below the root, and isn't `lock`, which is the disk's own.
pub fn is_usable(name: &str) -> bool
    ensures { result ≡ is_usable name.now }
{
    stays_within(name) && name != LOCK
}

/// Refuses a name that no call may use.
pub(crate) fn check_name(name: &str) -> io::Result<()>
    ensures ok { IsOk result ↔ IsTrue (is_usable name.now) }
    ensures err { IfErr result (λ error. error_kind error ≡ ErrorKind.InvalidInput) }
{
    if is_usable(name) {
        Ok(())
    } else {
        Err(ErrorKind::InvalidInput.into())
    }
}
