//! The history of an engine: what was accepted since it was opened, the tickets of snapshots that read at its instants and the
//! tracker of these; that optimistic transactions act one after another; and the word at which threads see the visible number.
#![tactic(auto)]

mod instants;
mod job;
mod laws;
mod reply;
mod rule;
mod seats;
mod serial_laws;
mod snapshot_tracker;
mod ticket;
mod tickets;
mod tracker_laws;
mod word;

pub use job::JobId;
pub use laws::{
    a_snapshot_stays, moves_keep_soundness, one_more_is_applied, the_latest_is_a_view,
    the_watermark_never_falls, the_watermark_spares, views_stay,
};
pub use reply::Reply;
pub use rule::{Origin, Saying};
pub use seats::{CoreSeat, SeenSeat};
pub use serial_laws::{
    a_checked_history_grows, a_marked_query, answers_rest_on_marks,
    checked_transactions_are_serial, conflicts_rest_on_commits, each_answer_is_of_those_before,
    the_outcome_is_serial, what_meets_none_is_of_the_present,
};
pub use snapshot_tracker::{SeqNo, SnapshotTracker};
pub use ticket::{Ticket, View};
pub use tickets::Tickets;
pub use tracker_laws::{
    closings_are_counted, instants_are_counted, open_instants_are_bounded,
    the_watermark_follows_the_oldest, trackers_stay_sound,
};
pub use word::Word;
