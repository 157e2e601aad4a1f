//! What a database folder holds: it is read whole before anything is changed, and the first fault is the answer. How everything
//! of it lies on a disk, with what a crash leaves of that, be it a usual one or one that leaves any bytes behind the synced ones.
#![tactic(auto)]

mod file;
mod folder;
mod homes;
mod journals;
mod laws;
mod listing;
mod look;
mod unfinished;
mod wild_laws;

pub use file::read_text;
pub use folder::{RecoveredFolder, past, read_folder};
pub use homes::{clears_are_within, is_beyond};
pub use journals::{RecoveredJournals, read_journals};
pub use laws::{
    a_crash_holds, a_folder_stands, a_rest_holds, a_sound_folder_has_both_halves,
    crashes_leave_the_root, crashes_leave_the_tree, journals_are_of_the_root, one_contents,
    one_home_changes, one_list_of_journals, one_refusal, one_refusal_in_each_mode, one_store,
    openable_folders_are_read, roots_alike, sound_folders_are_read, the_catalog_changes,
    trees_alike,
};
pub use listing::list_keyspaces;
pub use wild_laws::{
    a_beginning_reads_alike, a_wild_crash_is_cut, a_wild_image_stands, a_wild_image_stays,
    kinds_of_crashes, nothing_is_forged, what_is_forged_counts, wild_crashes_leave_no_more,
    wild_crashes_within_calls,
};
