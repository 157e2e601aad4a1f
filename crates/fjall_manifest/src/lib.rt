//! A keyspace's folder, and the records of its `current`, which name the tables that it has and tell up to where they hold its
//! changes: as bytes and back, and on the disk. So too the catalog, whose last record and table say which keyspaces live.
#![tactic(auto)]

mod catalog;
mod catalog_laws;
mod catalog_reading;
mod catalog_writing;
mod consistency;
mod current;
mod decoding;
mod encoding;
mod home_laws;
mod reading;
mod record;
mod record_laws;
mod table;
mod update;
mod writing;

pub use catalog::{Catalog, first_record, first_record_of};
pub use catalog_laws::{
    crashes_say_the_catalog, last_is_a_catalog, one_catalog, regions_say_the_catalog, says_alike,
};
pub use catalog_reading::{LoadedCatalog, read_catalog};
pub use catalog_writing::{commit, remove_old, write_table};
pub use current::{Current, read_current};
pub use home_laws::{
    crashes_leave_the_home, homes_alike, homes_are_apart, last_is_a_record, one_home, one_loading,
    openable_homes_are_read, regions_leave_the_home, right_tables_are_indexed,
    views_that_keep_what_is_synced, what_stays_is_safe,
};
pub use reading::{LoadedHome, read_home};
pub use record::Record;
pub use record_laws::{
    cut_reads, no_records_with_a_contradiction, one_list_of_records, records_grow,
    texts_are_records,
};
pub use update::{Update, prepare, prepare_deletion};
pub use writing::{TableFile, append_record, put_tables, remove_tables};
