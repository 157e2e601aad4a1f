//! How an accepted command reaches the disk: batches go out into the active journal and are synced, and keyspaces are made,
//! deleted and removed; a crash at any moment leaves what stood before the change or after it.
#![tactic(auto)]

mod change;
mod creation;
mod deletion;
mod eviction;
mod journaling;
mod laws;
mod removal;
mod rotation;
mod sealed_laws;
mod synced_changes;

pub use creation::{Creation, create_keyspace, prepare_creation};
pub use deletion::delete_keyspace;
pub use eviction::evict_journals;
pub use journaling::{Change, append_change, sync_journal};
pub use laws::{
    a_persist_keeps_all, a_writer_begins, crashes_leave_some, numbers_go_on, synced_batches_stay,
};
pub use removal::remove_keyspace;
pub use rotation::rotate_journal;
pub use sealed_laws::{
    a_rotation_finds_room, a_rotation_keeps_all, crashes_keep_what_was_synced,
    stored_journals_may_go, watermarks_are_raised, watermarks_go_with_their_journals,
    watermarks_tell_what_may_go,
};
pub use synced_changes::{sync_and_create_keyspace, sync_and_delete_keyspace};
