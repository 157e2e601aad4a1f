//! What jobs and ingestions put on the disk: a flush, a merge or an ingestion is planned with all its memory, then its tables are
//! written, one record makes them count, and tables that it took are removed; no crash meanwhile leaves another store.
#![tactic(auto)]

mod flush;
mod ingestion;
mod merge;
mod place;
mod readers;
mod writing;

pub use flush::{
    FlushPlan, a_crash_keeps_what_was_synced, a_finished_flush_is_known, a_flush_keeps_the_store,
    a_flush_of_memory_may_count, a_flush_that_is_out_may_count, a_flush_that_is_out_takes_parts,
    a_flushed_home_is_right, plan_flush, write_flush, write_tables,
};
pub use ingestion::{
    IngestPlan, MemoryPlan, PlannedIngestion, a_crash_leaves_all_or_nothing,
    a_whole_ingestion_is_one_command, all_is_persisted, an_ingested_home_is_right,
    an_ingestion_is_one_command, an_ingestion_may_follow_a_flush,
    memory_is_flushed_before_an_ingestion, plan_ingest, plan_ingestion, write_ingest,
    write_ingestion,
};
pub use merge::{
    MergePlan, a_crash_keeps_the_store, a_finished_merge_is_known, a_merge_keeps_the_store,
    a_merge_that_is_out_may_count, a_merged_home_is_right, plan_merge, write_merge,
};
pub use readers::{merged_readers, table_readers};
pub use writing::{put_record, remove_taken};
