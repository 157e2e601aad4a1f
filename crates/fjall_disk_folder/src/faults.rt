//! How an error of the system becomes a refusal, and is counted.

ghost use Rattle.std.specs.Prelude.{◌≡◌, ◌≤◌, Ok, Err, MatchResult};
ghost use Rattle.std.specs.IoError.{error_kind};
ghost use Rattle.fjall_base.specs.Disk.{HasCause, OnlyFaults};
ghost use Rattle.fjall_base.specs.Errors.{Rose};
ghost use Rattle.fjall_disk_folder.specs.Refusals.{count_after, count_of_read, meaning_of, refusal_of};

use fjall_base::{Error, Result};
use std::io::{self, ErrorKind};

/// The refusal that stands for an error: `OutOfMemory` where this program wanted memory, and else `Io`
/// with the error's kind.
pub(crate) fn refusal(error: io::Error) -> Error
    ensures { result ≡ refusal_of error }
{
    match (error.kind(), error.raw_os_error()) {
        (ErrorKind::OutOfMemory, None) => Error::OutOfMemory,
        (kind, _) => Error::Io(kind),
    }
}

/// How many faults a disk has met. It stays at the greatest `u64` once it is there.
#[derive(Drop)]
pub(crate) struct Faults {
    pub(crate) count: u64,
}

impl Faults {
    // Counts one more.
    fn raise(&mut self)
        ensures count { self.new.count ≡ count_after self.old.count }
        ensures later { self.old.count ≤ self.new.count }
        ensures rose { Rose self.old.count self.new.count }
    {
        self.count = self.count.saturating_add(1);
    }

    /// What a change of the disk answers: each error is a fault, want of memory too.
    pub(crate) fn of_change(&mut self, answer: io::Result<()>) -> Result<()>
        ensures cause { OnlyFaults (meaning_of self.old.count) (meaning_of self.new.count) result }
        ensures exact { MatchResult answer
            (λ done. (result ≡ Ok done) × (self.new.count ≡ self.old.count))
            (λ error. (result ≡ Err (Error.Io (error_kind error))) × (self.new.count ≡ count_after self.old.count)) }
    {
        match answer {
            Ok(()) => Ok(()),
            Err(error) => {
                self.raise();
                Err(Error::Io(error.kind()))
            }
        }
    }

    /// What a read of the disk answers: each error but the program's want of memory is a fault.
    pub(crate) fn of_read<T: Drop>(&mut self, answer: io::Result<T>) -> Result<T>
        ensures cause { HasCause (meaning_of self.old.count) (meaning_of self.new.count) result }
        ensures exact { MatchResult answer
            (λ value. (result ≡ Ok value) × (self.new.count ≡ self.old.count))
            (λ error. (result ≡ Err (refusal_of error)) × (self.new.count ≡ count_of_read (refusal_of error) self.old.count)) }
    {
        match answer {
            Ok(value) => Ok(value),
            Err(error) => {
                let refused = refusal(error);
                if refused != Error::OutOfMemory {
                    self.raise();
                }
                Err(refused)
            }
        }
    }
}
