//! Versions and clears of a keyspace, and the view of them at an instant. What a keyspace holds of them in memory: the memtable
//! that is written and the sealed ones before it, each with its clears, and versions in a table's order.
#![tactic(auto)]

mod bounds;
mod mark;
mod memtable;
mod memtable_laws;
mod part;
mod parts;
mod parts_laws;
mod place;
mod shared;
mod sorted_laws;
mod tail;
mod version_key;
mod versions;
mod view_laws;

pub use mark::Mark;
pub use memtable::Memtable;
pub use memtable_laws::{newest_stands_first, other_versions_stay};
pub use part::Part;
pub use parts::Parts;
pub use parts_laws::{parts_have_each_version_once, parts_stand_apart};
pub use sorted_laws::{
    a_barrier_stands_for_clears, a_page_is_of_the_view, bounds_may_be_applied_first,
    one_version_is_taken, runs_are_used_up, sorting_keeps_versions, the_newest_stands_first,
    what_is_kept_is_not_hidden,
};
pub use versions::Versions;
pub use view_laws::{
    a_clear_is_one_clear_more, a_flush_at_an_open_instant_loses_a_version, a_flush_keeps_views,
    a_merge_below_older_versions_loses_a_removal, a_merge_keeps_views,
    a_merge_that_takes_later_clears_loses_a_clear, a_write_is_one_version_more, each_stays_once,
    jobs_keep_what_views_show, parts_are_read_one_by_one, the_newest_decides,
    the_order_does_not_matter, views_are_one,
};
