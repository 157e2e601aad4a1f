//! What lies under one lock, so that threads share an engine: the engine with its transactions, the list of accepted commands that it
//! stands for, the jobs that are out, the places in which what they make is left and found, and the flags of handles that were dropped.
#![tactic(auto)]

mod begun;
mod blank;
mod changes;
mod collecting;
mod end;
mod finding;
mod flags;
mod flushes;
mod keyspaces;
mod made;
mod merges;
mod opening;
mod out;
mod placing;
mod reads;
mod shared;
mod snapshots;
mod telling;
mod transactions;
mod upkeep;

pub use begun::{Begun, Ran};
pub use blank::Blank;
pub use end::End;
pub use finding::find_made;
pub use fjall_core::{
    BatchItem, CommitOutcome, Config, Conflict, FlushMade, Made, MergeMade, PersistMode,
    RecoveryMode, Ticket, Transaction, View,
};
pub use flags::{Flag, Raiser};
pub use made::{JobOutput, Labeling};
pub use out::Out;
pub use shared::Shared;

// What stands above names these words of transactions, and lists this crate alone.
