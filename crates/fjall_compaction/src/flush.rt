//! Flushes: what one makes of sealed memtables, put into the keyspace's folder.

mod laws;
mod plan;
mod writing;

pub use laws::{
    a_crash_keeps_what_was_synced, a_finished_flush_is_known, a_flush_keeps_the_store,
    a_flush_of_memory_may_count, a_flush_that_is_out_may_count, a_flush_that_is_out_takes_parts,
    a_flushed_home_is_right,
};
pub(crate) use plan::plan_in_place;
pub use plan::{FlushPlan, plan_flush};
pub use writing::{write_flush, write_tables};
