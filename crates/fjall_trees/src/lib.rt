//! The trees of all keyspaces of an engine, each under its keyspace's id; and what they show: the map of each keyspace at an
//! instant, the store of all of them, and what each change makes of them.
#![tactic(auto)]

mod batches;
mod counts;
mod ingestion;
mod jobs;
mod kept;
mod laws;
mod map_laws;
mod marks;
mod memory;
mod reads;
mod sealing;
mod table_laws;
mod trees;
mod writes;

pub use kept::KEPT_BLOCK_BYTES;
pub use laws::{
    an_ingestion_changes_one_keyspace, finished_jobs_change_one_keyspace,
    flushes_of_trees_stay_out, merges_of_trees_stay_out, other_trees_stay, the_tables_stay_read,
};
pub use map_laws::{
    a_batch_is_one_write, a_clear_is_the_command, a_deleted_keyspace_is_a_deletion,
    a_map_is_what_a_tree_shows, a_new_keyspace_is_a_creation, a_rotation_changes_no_map,
    the_store_is_of_the_living, versions_put_into_a_tree_are_versions_more,
};
pub use marks::Marks;
pub use table_laws::{
    a_batch_beside_tables_is_one_write, a_clear_beside_tables_is_the_command,
    a_deleted_keyspace_with_tables_is_a_deletion, a_finished_flush_changes_no_map,
    a_finished_merge_changes_no_map, a_map_with_tables_is_what_a_tree_shows,
    a_new_keyspace_beside_tables_is_a_creation, a_rotation_beside_tables_changes_no_map,
    a_store_has_the_maps_of_the_living, an_ingestion_shows_its_items, tables_are_older_than_memory,
    the_same_trees_show_the_same, what_leaves_memory_changes_no_map, without_tables_memory_is_all,
};
pub use trees::Trees;
