//! What workers are told.

/// What a worker is told to do.
#[derive(Clone, Copy, Debug, PartialEq, Eq)]
pub enum WorkerMessage {
    /// Flush the keyspace that waits longest for a flush.
    Flush,
    /// Merge the tables of this keyspace, where enough of them stand at level 0.
    Compact(u64),
    /// Seal the active memtable of this keyspace.
    RotateMemtable(u64),
    /// End. No message waits behind it, and none is taken any more.
    Close,
}
