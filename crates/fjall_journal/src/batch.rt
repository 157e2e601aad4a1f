//! Batches as they are read.

ghost use Rattle.std.specs.Prelude.{◌≡◌};
ghost use Rattle.fjall_journal.specs.declared.batch.Stop.TheVariants.{Memory};

use crate::entry::ValueType;
use fjall_base::{JournalRecoveryError, UserKey, UserValue};
use std::alloc::{AllocError, AllocFailed};

/// An item of a batch.
#[derive(Debug, Drop)]
pub struct ReadBatchItem {
    pub keyspace_id: u64,
    pub key: UserKey,
    pub value: UserValue,
    pub value_type: ValueType,
}

/// A whole batch.
#[derive(Debug, Drop)]
pub struct Batch {
    pub seqno: u64,
    pub items: Vec<ReadBatchItem>,
    pub cleared_keyspaces: Vec<u64>,
}

/// What stands behind the whole batches.
#[derive(Clone, Copy, Debug, PartialEq, Eq)]
pub enum Tail {
    /// Nothing.
    Clean,
    /// What an append that was cut short leaves.
    Torn,
    /// A batch that is spelled to its end, and is none.
    Damaged(JournalRecoveryError),
}

/// Why no batch was read: memory ran out, or this stands there.
#[derive(Drop)]
pub(crate) enum Stop {
    Memory,
    Tail(Tail),
}

impl From<AllocError> for Stop {
    ghost from_gives = { λ _ e. e ≡ Memory };

    fn from(_e: AllocError) -> Stop {
        Stop::Memory
    }
}

impl<T: Drop> From<AllocFailed<T>> for Stop {
    ghost from_gives = { λ _ e. e ≡ Memory };

    fn from(_e: AllocFailed<T>) -> Stop {
        Stop::Memory
    }
}
