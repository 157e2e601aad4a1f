//! The device call that is to fail, and the faults that came.

ghost use Rattle.std.specs.Prelude.{◌≡◌, ◌≤◌, ◌-◌, ◌↔◌, IsTrue};
ghost use Rattle.fjall_base.specs.Errors.{Rose};
ghost use Rattle.fjall_disk_memory.specs.Failing.{count_after};

use fjall_base::Error;
use std::io::ErrorKind;

/// Counts the faults that came, and the device calls down to the one that is to fail.
///
/// `call` is how many device calls are left up to and with that one, reads too: at 1 the next one
/// fails, at 0 none does. The count of faults stays at the greatest `u64` once it is there.
#[derive(Drop)]
pub struct Failing {
    pub count: u64,
    // how many of them were calls that no disk can serve
    pub misuses: u64,
    pub call: u64,
    // how many bytes of an append that is to fail go out first
    pub part: usize,
}

impl Failing {
    // Counts a fault more.
    fn raise(&mut self)
        ensures count { self.new.count ≡ count_after self.old.count }
        ensures rose { Rose self.old.count self.new.count }
        ensures later { self.old.count ≤ self.new.count }
        ensures misuses { self.new.misuses ≡ self.old.misuses }
        ensures call { self.new.call ≡ self.old.call }
        ensures part { self.new.part ≡ self.old.part }
    {
        self.count = self.count.saturating_add(1);
    }

    /// Counts a fault.
    pub fn fault(&mut self) -> Error
        ensures io { result ≡ Error.Io ErrorKind.Other }
        ensures count { self.new.count ≡ count_after self.old.count }
        ensures rose { Rose self.old.count self.new.count }
        ensures later { self.old.count ≤ self.new.count }
        ensures misuses { self.new.misuses ≡ self.old.misuses }
        ensures call { self.new.call ≡ self.old.call }
        ensures part { self.new.part ≡ self.old.part }
    {
        self.raise();
        Error::Io(ErrorKind::Other)
    }

    /// Counts that a change found no memory, which its trait wants to be a fault.
    pub fn out_of_memory(&mut self) -> Error
        ensures io { result ≡ Error.Io ErrorKind.OutOfMemory }
        ensures count { self.new.count ≡ count_after self.old.count }
        ensures rose { Rose self.old.count self.new.count }
        ensures later { self.old.count ≤ self.new.count }
        ensures misuses { self.new.misuses ≡ self.old.misuses }
        ensures call { self.new.call ≡ self.old.call }
        ensures part { self.new.part ≡ self.old.part }
    {
        self.raise();
        Error::Io(ErrorKind::OutOfMemory)
    }

    /// Counts a call that no disk can serve, which is a fault too.
    pub fn misuse(&mut self) -> Error
        ensures io { result ≡ Error.Io ErrorKind.Other }
        ensures count { self.new.count ≡ count_after self.old.count }
        ensures rose { Rose self.old.count self.new.count }
        ensures later { self.old.count ≤ self.new.count }
        ensures misuses { Rose self.old.misuses self.new.misuses }
        ensures call { self.new.call ≡ self.old.call }
        ensures part { self.new.part ≡ self.old.part }
    {
        self.misuses = self.misuses.saturating_add(1);
        self.fault()
    }

    /// Counts a device call, and says whether it is the one that is to fail.
    pub fn strikes(&mut self) -> bool
        ensures strikes { IsTrue result ↔ (self.old.call ≡ 1) }
        ensures call { self.new.call ≡ self.old.call - 1 }
        ensures part { self.new.part ≡ self.old.part }
        ensures count { self.new.count ≡ self.old.count }
        ensures misuses { self.new.misuses ≡ self.old.misuses }
    {
        if self.call == 0 {
            return false;
        }
        self.call -= 1;
        self.call == 0
    }
}
