//! Flushes and merges: what they are begun with, and what they make of it.
#![tactic(auto)]

mod blocks_run;
mod bound;
mod flush_job;
mod flush_made;
mod keeper;
mod laws;
mod made_table;
mod memory;
mod merge_job;
mod merge_made;
mod sequence;

pub use flush_job::FlushJob;
pub use flush_made::FlushMade;
pub use laws::{what_a_flush_made_keeps_views, what_a_merge_made_keeps_views};
pub use made_table::MadeTable;
pub use memory::flush_memory;
pub use merge_job::MergeJob;
pub use merge_made::MergeMade;
