//! What becomes of a disk between two lives.

ghost use Rattle.std.specs.Prelude.{◌≡◌, ◌+◌, ℕ, Bool, IfOk, IsTrue, OnOk};
ghost use Rattle.fjall_consistency.specs.Links.{IsTurned};

use fjall_base::{Disk, Result};

/// Has the power, which may go between any two lives. That it goes within one is a disk whose calls fail from some moment on.
pub trait Power {
    type Disk: Disk + Drop;

    // whether a crash may also leave any bytes behind the synced ones of a file, that forge no whole batch or record
    ghost wild: { Bool };

    // how often it was asked
    ghost turns: { Self → ℕ };

    /// The disk that the next life begins on: as the last one left it or, where the power went, as a crash left it.
    fn turn(&mut self, disk: Self::Disk) -> Result<Self::Disk>
        ensures turned { IsTrue Self.Disk.honest → IfOk result (λ after. IsTurned wild (Self.Disk.meaning disk) (Self.Disk.meaning after)) }
        ensures asked { OnOk result (turns self.new ≡ turns self.old + 1) };
}
