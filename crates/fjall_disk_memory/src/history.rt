//! What a disk did, for proofs: it takes no memory.

ghost use Rattle.std.specs.Prelude.{◌≡◌, List, [], ◌++◌};
ghost use Rattle.std.specs.Borrow.{ftrue};
ghost use Rattle.fjall_base.specs.Disk.{DiskStep};
ghost use Rattle.fjall_disk_memory.specs.History.{coded_steps};

use crate::node::Node;
use std::marker::Model;

/// The steps that a disk took, in order. They exist in the proofs alone: the value has no bytes.
#[derive(Drop)]
pub struct History {
    pub ghost steps: { List DiskStep } by { coded_steps },
}

impl Model for History {
    // the steps say nothing of memory
    ghost also_owns = { λ _. ftrue };
}

/// One change of a disk, with the name that it is of. A cut is two steps: it loosens first.
#[derive(Clone, Copy)]
pub enum Change<'a> {
    Put(&'a str, &'a Node),
    Append(&'a str, &'a [u8]),
    Sync(&'a str),
    Cut(&'a str, usize),
    SyncFolder(&'a str),
}

impl History {
    ghost use Rattle.fjall_disk_memory.specs.Memory.{steps_of};

    /// The history of a disk that took no step yet.
    pub fn new() -> History
        ensures { result.steps ≡ [] }
    {
        History {}
    }

    /// This history, with one change more at its end.
    pub fn then(&self, _change: &Change<'_>) -> History
        ensures { result.steps ≡ self.now.steps ++ steps_of _change.now }
    {
        History {}
    }
}
