//! A core that gives its disk back.

ghost use Rattle.std.specs.Prelude.{IsTrue};
ghost use Rattle.fjall_engine.specs.Standing.{OwesClosing, ClosesDisk, ClosesSafely};

use crate::engine::Engine;
use fjall_base::{Disk, Result};
use fjall_journal::PersistMode;

impl<D: Disk> Engine<D> {
    /// Writes the journal out and syncs it, and gives the disk back. A poisoned core writes nothing.
    ///
    /// Refusals: `Poisoned` and `Io`.
    pub fn close(self) -> (D, Result<()>)
        ensures owes { OwesClosing self result.1 (D.meaning result.0) }
        ensures disk { IsTrue D.honest → ClosesDisk self result.1 (D.meaning result.0) }
        ensures crash { IsTrue D.honest → ClosesSafely self result.1 (D.meaning result.0) }
    {
        let mut core = self;
        let closed = core.persist(PersistMode::SyncAll);
        (core.into_disk(), closed)
    }
}
