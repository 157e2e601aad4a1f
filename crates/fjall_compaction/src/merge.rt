//! Merges: what one makes of tables, put into the keyspace's folder in their place.

mod laws;
mod plan;
mod writing;

pub use laws::{
    a_crash_keeps_the_store, a_finished_merge_is_known, a_merge_keeps_the_store,
    a_merge_that_is_out_may_count, a_merged_home_is_right,
};
pub use plan::{MergePlan, plan_merge};
pub use writing::write_merge;
