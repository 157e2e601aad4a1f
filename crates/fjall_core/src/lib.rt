//! A core, which is an engine with its transactions as one value, and its readers: the single writer's transactions and optimistic
//! ones, each read within its own view with its own writes applied, where each read marks what its answer rests on.
#![tactic(auto)]

mod cores;
mod laid;
mod laws;
mod reader;
mod reader_laws;
mod transaction;
mod transaction_reader;
mod transactions;
mod updates;

pub use cores::Core;
pub use fjall_engine::{
    BatchItem, Call, Config, Engine, FlushMade, Job, JobId, KeyRange, MergeMade, Op, PersistMode,
    RecoveryMode, Reply, Ticket, View, pairs_reply, reply_of, value_reply,
};
pub use fjall_tx::{CommitOutcome, Conflict, OwnWrites};
pub use laws::{
    a_call_of_the_core_stands, a_commit_stands, an_opening_stands, conflicts_are_exact,
    one_single_writer_is_open, the_kept_are_the_cores, transactions_are_serial,
    what_stays_is_not_written,
};
pub use reader::Reader;
pub use reader_laws::readers_show_the_state;
pub use transaction::Transaction;
pub use transaction_reader::TransactionReader;
pub use updates::Made;

// The core's words, so that who stands on transactions lists no core.
