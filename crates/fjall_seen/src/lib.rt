//! A database that threads share behind one lock, and what each caller has seen of it.
#![tactic(auto)]

mod database;
mod handles;
mod named;
mod naming;
mod opened;
mod seen;

pub use database::Database;
pub use fjall_shared::{CommitOutcome, Config};
pub use handles::{Snapshot, WriteTransaction};
pub use naming::{Naming, Plain};
pub use opened::Opened;
pub use seen::Seen;
