//! What all readers of keyspaces have in common: the calls of a reader, pairs from both ends of a range, and the ranges of
//! prefixes. And writes before an engine takes them: batches of them, bulk writes, and how many bytes the write buffers have.
#![tactic(auto)]

mod bounds;
mod cursor;
mod guard;
mod identified;
mod ingestion;
mod laws;
mod owned_write_batch;
mod pages;
mod prefix;
mod read_iter;
mod readable;
mod reads;
mod size;
mod write_buffer_manager;

pub use bounds::{bounds_of, range_of};
pub use cursor::Cursor;
pub use guard::Guard;
pub use identified::Identified;
pub use ingestion::Ingestion;
pub use laws::{
    keys_lie_behind_prefixes, pairs_go_on, pairs_lie_behind_prefixes, prefix_ranges_end,
};
pub use owned_write_batch::OwnedWriteBatch;
pub use pages::{KeyRange, Pages};
pub use prefix::{prefix_to_range, prefixed_range};
pub use read_iter::ReadIter;
pub use readable::Readable;
pub use reads::{first_pair, has_no_pair, last_pair, pair_count};
pub use write_buffer_manager::WriteBufferManager;
