//! The tree of one keyspace: tables on a disk, and the parts in memory that are newer than all of them.
#![tactic(auto)]

mod counts;
mod ingestion;
mod input;
mod jobs;
mod laws;
mod memory;
mod out;
mod pages;
mod search;
mod tree;

pub use laws::{
    a_flushed_tree_keeps_views, a_merge_reads_what_is_sorted, a_merged_tree_keeps_views,
    a_rotated_tree_holds_the_same, a_written_tree_has_one_version_more,
    an_emptied_tree_has_one_clear_more, jobs_stay_out,
};
pub use tree::Tree;
