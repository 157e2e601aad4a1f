//! What a database knows beside the data of its keyspaces: which keyspaces live, under which names, ids and options, and which id
//! comes next. And what the folder's tables, records and journals hold of them: the store that all of it stands for.
#![tactic(auto)]

mod content_laws;
mod entry;
mod laws;
mod living;
mod meta_keyspace;
mod name;
mod reading;
mod recovery;
mod replay_laws;
mod sound;

pub use content_laws::{
    a_keyspace_reads, batches_follow_one_another, creation_is_a_command, deletion_is_a_command,
    nothing_to_keep, one_more_batch, stored_batches_may_go, views_alone_matter,
    what_is_stored_has_its_number, without_tables_the_journals_tell_all,
};
pub use entry::MetaEntry;
pub use laws::one_list_of_keyspaces;
pub use living::LivingKeyspace;
pub use meta_keyspace::MetaKeyspace;
pub use name::is_valid_keyspace_name;
pub use recovery::{Persisted, PersistedNumbers};
pub use replay_laws::{
    a_batch_is_a_write, a_clear_is_a_command, a_creation_is_replayed, a_deletion_is_replayed,
    a_replay_holds_no_rest, batches_make_their_versions, names_stand_in_order, one_item_is_a_write,
    one_more_batch_replayed, replay_is_a_view, replays_follow_one_another, the_living_have_names,
    versions_change_maps_alone, what_is_kept_goes_on,
};
pub use sound::check_batches;
