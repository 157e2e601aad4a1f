//! A secondary index over a main keyspace, kept in an index keyspace as both change, over an engine with its transactions.
#![tactic(auto)]

mod changing;
mod indexed;
mod indexed_tx;
mod laws;
mod loading;
mod reading;
mod rebuilding;

pub use fjall_base::{Error, KvPair, Slice};
pub use fjall_core::{Call, CommitOutcome, Config, Core, JobId, PersistMode, Reply, Ticket, View};
pub use fjall_index_entries::{
    Extract, IndexError, Result, Slot, change_items, entry_of, field_of_value, find_pairs,
    index_key, put_items, range_of,
};
pub use fjall_options::KeyspaceCreateOptions;
pub use indexed::Indexed;
pub use indexed_tx::IndexedTx;
pub use laws::{
    an_open_transaction_stays, an_opening_keeps_the_index, another_call_keeps_the_index,
    views_show_the_index,
};

// What a caller names beside the index, so that who keeps one lists this crate alone.
