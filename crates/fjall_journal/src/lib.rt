//! The journal: batches of changes as bytes, and back.
#![tactic(auto)]

mod batch;
mod batch_reader;
mod batch_text;
mod contents;
mod decoding;
mod encoding;
mod entry;
mod known_batches;
mod laws;
mod op;
mod parsing;
mod persist_mode;
mod recovery_mode;
mod rotation;
mod writer;

pub use batch::{Batch, ReadBatchItem, Tail};
pub use batch_reader::JournalBatchReader;
pub use contents::{Contents, next_batch, read_journal};
pub use encoding::serialize_marker_item;
pub use entry::{Entry, Tag, ValueType};
pub use known_batches::KnownBatches;
pub use laws::{
    cut_reads, one_reading, one_spelling, one_tail, texts_are_whole, whole_behind, whole_grows,
};
pub use op::{
    BatchItem, Op, OpRef, check_items, has_empty_key, has_key_too_long, has_value_too_long,
};
pub use persist_mode::PersistMode;
pub use recovery_mode::RecoveryMode;
pub use writer::{JOURNAL_BUFFER_BYTES, Writer};
