//! The names and the small files of a database folder: the marker, the names of journals, keyspaces and tables, and changes
//! of a disk that stay within a folder; and its sealed journals: which of them may be removed, and how the active one becomes one.
#![tactic(auto)]

mod active_watermarks;
mod eviction;
mod flushed;
mod home;
mod journal_laws;
mod journal_manager;
mod laws;
mod lists;
mod marker;
mod names;
mod number;
mod own;
mod sealed_journal;
mod trim;
mod watermarks;

pub use active_watermarks::ActiveWatermarks;
pub use flushed::Flushed;
pub use home::{append_synced, make_file, make_home, put_file, remove_home};
pub use journal_laws::{a_change_raises_its_watermarks, a_watermark_is_the_greatest_number};
pub use journal_manager::JournalManager;
pub use laws::{
    crashes_see_a_region, elsewhere_stays, journal_names_differ, kept_names_differ,
    keyspace_folders_differ, table_names_differ,
};
pub use lists::{journals, keyspaces, tables};
pub use marker::{Marker, parse_file_header, read_marker, version_of, write_file_header};
pub use names::{
    KEYSPACES_FOLDER, MARKER_FILE, TREE_FOLDER, TREE_RECORDS, current_name, journal_name,
    keyspace_folder, parse_journal_name, table_name,
};
pub use number::parse_number;
pub use own::{ListedFolder, OwnFiles, list_folder, list_own_files};
pub use sealed_journal::SealedJournal;
pub use trim::end_file;
pub use watermarks::{EvictionWatermark, Watermarks};
