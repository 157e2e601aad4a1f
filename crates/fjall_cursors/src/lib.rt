//! Several runs of versions, each in a table's order, read as one from either end, in memory and in tables on a disk; and the
//! pages of pairs that are made of them.
#![tactic(auto)]

mod back_page;
mod front_page;
mod keyed_pairs;
mod keys;
mod memtable_run;
mod page_maker;
mod page_run;
mod pages;
mod run;
mod run_pages;
mod starts;
mod table_run;

pub use back_page::BackPage;
pub use front_page::FrontPage;
pub use memtable_run::MemtableRun;
pub use page_run::PageRun;
pub use pages::{PageQuery, page};
pub use run::{OwnedVersion, PageVersions, Run, first_of, first_two_of, next_two_of};
pub use run_pages::page_of_runs;
pub use table_run::TableRun;
