//! Ingestions: a table of given pairs, put into the keyspace's folder.

mod laws;
mod plan;
mod table;
mod whole;

pub use laws::{
    a_crash_leaves_all_or_nothing, a_whole_ingestion_is_one_command, all_is_persisted,
    an_ingested_home_is_right, an_ingestion_is_one_command, an_ingestion_may_follow_a_flush,
    memory_is_flushed_before_an_ingestion,
};
pub use plan::{IngestPlan, plan_ingest};
pub use whole::{MemoryPlan, PlannedIngestion, plan_ingestion, write_ingest, write_ingestion};
