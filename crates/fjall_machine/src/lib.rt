//! The engine as a machine: its calls, the steps that it takes, and the laws that changes are such steps.
#![tactic(auto)]

mod call;
mod ingestion_laws;
mod laws;
mod merge_kind;
mod merge_laws;
mod places;

pub use call::Call;
pub use ingestion_laws::{an_ingestion_may_go_on, an_ingestion_stands};
pub use laws::{
    a_begun_flush_stands, a_change_stands, a_creation_stands, a_deletion_stands,
    a_dropped_flush_stands, a_fault_stands, a_finished_flush_stands, a_flush_refusal_is_a_step,
    a_journal_rotation_stands, a_known_task_stays, a_read_stands, a_refusal_is_a_step,
    a_release_stands, a_retained_stands, a_rotation_stands, a_snapshot_keeps_its_view,
    a_step_moves, an_eviction_stands, an_opening_stands, counts_agree, facts_agree, flushes_agree,
    names_agree, nothing_refused, options_agree, other_parts_stand, reads_agree, tickets_stand,
};
pub use merge_kind::MergeKind;
pub use merge_laws::{
    a_begun_merge_stands, a_counted_merge_stands, a_dropped_merge_stands, a_finished_merge_stands,
    a_known_merge_stays, a_known_task_stays_beside_merges, a_merge_refusal_is_a_step, merges_agree,
};
pub use places::job_at;
