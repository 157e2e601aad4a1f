//! The trees that a folder's tables and the batches of its journals make, and what is known of the homes of its keyspaces.
#![tactic(auto)]

mod counting;
mod loading_laws;
mod records;
mod replay_laws;
mod replayed_journals;
mod replaying;
mod tables;

pub use loading_laws::opened_trees_show_the_store;
pub use records::LastRecords;
pub use replay_laws::{
    a_change_is_one_batch_more, a_sealed_journal_leaves_one_memtable,
    replayed_trees_beside_tables_show_the_store, what_trees_show_stays,
};
pub use replayed_journals::{replay_journal, seal_all};
pub use tables::{OpenedHomes, open_homes};
