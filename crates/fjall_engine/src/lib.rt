//! The engine's one machine: calls that change keyspaces, read them at any view and sync their journal.
#![tactic(auto)]

mod close;
mod config;
mod engine;
mod flushes;
mod ingestions;
mod jobs;
mod journals;
mod keyspaces;
mod laws;
mod memtables;
mod merges;
mod open;
mod plain;
mod reads;
mod replies;
mod run;
mod snapshots;
mod tables;
mod writes;

pub use config::Config;
pub use engine::Engine;
pub use fjall_history::{JobId, Reply, Ticket, View};
pub use fjall_jobs::{FlushJob, FlushMade, MergeJob, MergeMade};
pub use fjall_journal::{BatchItem, Op, PersistMode, RecoveryMode};
pub use fjall_machine::Call;
pub use fjall_reading::KeyRange;
pub use jobs::Job;
pub use laws::{a_known_job_stays_known, a_read_leaves_all, an_owed_call_steps, no_view_is_longer};
pub use replies::{pairs_reply, reply_of, value_reply};
