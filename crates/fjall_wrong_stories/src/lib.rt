//! What no caller lives through: stories of engines that contradict what callers may rely on, each with the law that it is never told,
//! and lives of an engine, which tell none of them (but, where crashes may be wild, that an opening was refused).
#![tactic(auto)]

mod laws;
mod told;

pub use laws::{
    a_closed_life_lost_something, a_deleted_keyspace_comes_back, a_deleted_keyspace_takes_writes,
    a_fault_begins_what_is_refused, a_fault_shifts_the_ids, a_later_call_without_an_earlier_one,
    a_life_that_was_let_go_closed, a_refused_call_takes_effect, a_snapshot_moves,
    a_value_that_nobody_wrote, a_write_skew, a_write_without_a_key, an_acknowledged_sync_is_lost,
    an_opening_forgets, an_opening_is_refused, an_unknown_keyspace_is_read,
    an_unknown_keyspace_that_lives, half_a_batch, two_single_writers,
};
pub use told::told_truly;
