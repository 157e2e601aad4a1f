//! A secondary index over a main keyspace, kept in an index keyspace: entries, what a put writes, and the pairs that have a
//! field.
#![tactic(auto)]

mod check;
mod entry;
mod error;
mod extract;
mod find;
mod keeping_laws;
mod keys;
mod laws;
mod put;
mod repair;
mod repair_laws;

pub use check::is_index;
pub use entry::{entry_of, index_key, key_behind, range_of};
pub use error::{IndexError, Result};
pub use extract::{Extract, Slot};
pub use find::find_pairs;
pub use keeping_laws::{
    a_command_more_is_indexed, a_commit_keeps_the_index, a_crash_leaves_the_index,
    changes_keep_the_index, one_more_key_keeps_the_index, own_writes_keep_the_index,
    what_is_kept_is_indexed,
};
pub use laws::{
    a_range_finds_the_field, an_index_is_counted, entries_are_ordered, entries_lie_in_ranges,
    the_index_changes_by_two_entries, the_index_has_the_entries, the_index_stays,
};
pub use put::{change_items, field_of_value, put_items};
pub use repair::repairs;
pub use repair_laws::{
    a_key_stands_behind_its_field, a_right_index_is_left_alone, repairs_leave_the_others,
    repairs_make_the_index,
};
