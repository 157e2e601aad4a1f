//! What opening a database makes.

use fjall_files::{ActiveWatermarks, JournalManager};
use fjall_journal::Writer;
use fjall_manifest::Catalog;
use fjall_meta::MetaKeyspace;
use fjall_replay::LastRecords;
use fjall_trees::Trees;

/// A database that was opened. All that it holds is synced.
#[derive(Drop)]
pub struct Opened {
    /// A tree of each keyspace that lives, over its tables, which stay on the disk, with what the journals hold beyond them in
    /// memory.
    pub trees: Trees,
    /// The last record of each keyspace that lives.
    pub records: LastRecords,
    /// A writer that goes on at the end of the active journal.
    pub journal: Writer,
    /// The journals before the active one, the oldest first.
    pub sealed: JournalManager,
    /// The number of the active journal.
    pub active: u64,
    /// Up to which number each keyspace has changes in the active journal.
    pub watermarks: ActiveWatermarks,
    /// What the last record of tree 0 says.
    pub catalog: Catalog,
    /// The keyspaces that live.
    pub keyspaces: MetaKeyspace,
    /// One past the greatest number of a change that the folder tells, which the next change may have; 0 where it tells
    /// none.
    pub number: u64,
}
