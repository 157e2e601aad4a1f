//! The lock that keeps a folder to one owner.

ghost use Rattle.std.specs.Prelude.{◌≡◌, ◌+◌, ◌<◌, ◌≤◌, false, IfErr, IfOk};
ghost use Rattle.fjall_disk_folder.specs.Refusals.{IsFolderRefusal};

use crate::faults::refusal;
use crate::paths::{is_missing, open_file, refuse_special};
use fjall_base::{Error, Result};
use std::fs::{File, OpenOptions, TryLockError};
use std::io;
use std::path::Path;

// How often the system is asked for a lock that another owner has.
const TRIES: u32 = 3;

// A file whose lock is asked for, whether with other readers, and how often it was.
#[derive(Drop)]
struct LockRequest {
    file: File,
    is_shared: bool,
    asked: u32,
}

impl LockRequest {
    // Asks once, and says whether the lock is had.
    fn ask(&mut self) -> io::Result<bool>
        requires { self.old.asked < 3 }
        ensures { self.new.asked ≡ self.old.asked + 1 }
    {
        self.asked += 1;
        let answer = if self.is_shared {
            self.file.try_lock_shared()
        } else {
            self.file.try_lock()
        };
        match answer {
            Ok(()) => Ok(true),
            Err(TryLockError::WouldBlock) => Ok(false),
            Err(TryLockError::Error(error)) => Err(error),
        }
    }

    // Asks until the lock is had, three times at most, and says whether it is.
    fn settle(&mut self) -> io::Result<bool>
        ensures { IfOk result (λ is_had. is_had ≡ false → 3 ≤ self.new.asked) }
    {
        while self.asked < TRIES {
            if self.ask()? {
                return Ok(true);
            }
        }
        Ok(false)
    }
}

// Asks for the lock of a file three times, without a pause.
fn locked(file: File, is_shared: bool) -> Result<LockedFileGuard>
    ensures cause { IfErr result IsFolderRefusal }
{
    let mut request = LockRequest {
        file,
        is_shared,
        asked: 0,
    };
    if !request.settle().map_err(refusal)? {
        return Err(Error::Locked);
    }
    Ok(LockedFileGuard { file: request.file })
}

/// Holds the lock of a file. It is released where the guard is dropped, which closes the file.
#[derive(Drop)]
pub struct LockedFileGuard {
    file: File,
}

impl LockedFileGuard {
    /// Makes the file where it is missing, and asks for its lock three times, without a pause.
    ///
    /// It fails with `Error::Locked` where another owner has the lock, in this process or in another one,
    /// and with `Error::Io` where the system fails, or something else than a file stands there.
    pub fn lock(rt: &HostRuntime, path: Path<'_>) -> Result<LockedFileGuard>
        ensures cause { IfErr result IsFolderRefusal }
    {
        let mut options = OpenOptions::new();
        options.read(true).write(true).create(true);
        refuse_special(rt, path).map_err(refusal)?;
        let file = open_file(rt, &options, path).map_err(refusal)?;
        locked(file, false)
    }

    /// Asks three times, without a pause, for the lock that readers share of a file that is there, which is opened to be read
    /// alone; `None` where nothing has that name. It fails as `lock` does, with `Error::Locked` where an owner has the lock.
    pub fn lock_shared(rt: &HostRuntime, path: Path<'_>) -> Result<Option<LockedFileGuard>>
        ensures cause { IfErr result IsFolderRefusal }
    {
        refuse_special(rt, path).map_err(refusal)?;
        let mut options = OpenOptions::new();
        options.read(true);
        match open_file(rt, &options, path) {
            Ok(file) => Ok(Some(locked(file, true)?)),
            Err(error) if is_missing(&error) => Ok(None),
            Err(error) => Err(refusal(error)),
        }
    }
}
