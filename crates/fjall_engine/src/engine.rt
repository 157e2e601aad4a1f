//! The core: one machine over a disk.

ghost use Rattle.std.specs.Prelude.{◌≡◌, if◌then◌else◌, IsTrue};
ghost use Rattle.fjall_base.specs.Crash.{IsHoused};
ghost use Rattle.fjall_base.specs.Disk.{state_in};
ghost use Rattle.fjall_machine.specs.Remembered.{poisoned};
ghost use Rattle.fjall_engine.specs.Crashes.{is_io};

use fjall_base::{Disk, Error};
use fjall_journal::Writer;
use fjall_manifest::Catalog;
use fjall_state::EngineState;
use std::alloc::Global;
use std::marker::Model;

/// An engine over a disk. Each call is one step of a machine: it answers, and leaves the core in the state after it.
pub struct Engine<D: Disk> {
    pub(crate) alloc: Global,
    pub(crate) disk: D,
    pub(crate) journal: Writer,
    pub(crate) catalog: Catalog,
    pub(crate) memory: EngineState,
}

// Written out, so that no crate above proves the drop of what it owns anew.
impl<D: Disk + Drop> Drop for Engine<D> {
    fn drop(self) {
        let Engine {
            alloc: _,
            disk: _,
            journal: _,
            catalog: _,
            memory: _,
        } = self;
    }
}

impl<D: Disk> Model for Engine<D> {
    ghost use Rattle.std.specs.Coded.{codes};
    ghost use Rattle.fjall_engine.specs.Holding.{Held};
    ghost use Rattle.fjall_replay.specs.Known.{records_code};
    ghost use Rattle.fjall_machine.specs.Remembered.{handles_code};

    ghost Value = { Held };

    ghost coded = { Prim.hlevel (codes, handles_code, records_code) };

    ghost view = { λ core. record { disk = D.meaning core.disk; journal = core.journal; catalog = core.catalog; memory = core.memory } };
}

/// Whether it tells of a fault of the disk.
pub(crate) fn is_fault(error: &Error) -> bool
    ensures { result ≡ is_io error.now }
{
    matches!(error, Error::Io(_))
}

impl<D: Disk> Engine<D> {
    /// The disk as it stands, without a call of it. What waits in the journal's buffer is lost.
    pub fn into_disk(self) -> D
        ensures disk { D.meaning result ≡ self.disk }
        // The folder of each name that stands on it stands too.
        ensures housed { IsTrue D.honest → IsHoused (state_in self.disk) }
    {
        let Engine {
            alloc: _,
            disk,
            journal,
            catalog: _,
            memory,
        } = self;
        drop(journal);
        drop(memory);
        disk
    }

    /// After a fault of the disk the core is poisoned.
    pub(crate) fn poison_by(&mut self, error: &Error)
        ensures { self.new ≡ (if is_io error.now then record self.old { memory = poisoned self.old.memory } else self.old) }
    {
        if is_fault(error) {
            self.memory.poison();
        }
    }
}
