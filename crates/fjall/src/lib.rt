//! An embedded key-value engine whose calls are proved: many keyspaces, ordered maps from bytes to bytes, over one journal in one folder;
//! snapshots, batches, transactions of both kinds, recovery behind crashes, workers that flush and merge, and secondary indexes.
//!
//! A crate that uses it lists this one alone. [`Database`] has plain writes; [`OptimisticTxDatabase`] and [`SingleWriterTxDatabase`] have
//! transactions that act one after another, as long as what they read changes through them alone. An [`IndexedKeyspace`] is a main keyspace
//! and one that finds its pairs by what is in their values.
#![tactic(auto)]

mod changing;
mod indexed;
mod indexed_tx;
mod reading;
mod rebuilding;
mod tx_database;
mod tx_keyspace;

pub use fjall_handles::{
    BlockSizePolicy, BloomConstructionPolicy, CompressionPolicy, CompressionType, Config, Conflict,
    Database, DatabaseBuilder, DecodeConfig, Disk, EncodeConfig, Error, FilterPolicy,
    FilterPolicyEntry, FolderDisk, FormatVersion, Gate, Guard, HashRatioPolicy, Host, Identified,
    Ingestion, Iter, JournalRecoveryError, KeyBounds, Keyspace, KeyspaceCreateOptions, KvPair,
    Leveled, Levelled, Made, OpenGate, Optimistic, OwnedWriteBatch, PartitioningPolicy,
    PersistMode, PinningPolicy, ReadIter, Readable, Reader, RecoveryMode, Refused,
    RestartIntervalPolicy, Result, Single, Slice, Snapshot, StorageError, TransactionReader,
    UserKey, UserValue, WriteTransaction, prefix_to_range, prefixed_range,
};
pub use fjall_index_entries::{Extract, IndexError, Result as IndexResult, Slot};
pub use indexed::IndexedKeyspace;
pub use indexed_tx::IndexedWriteTx;
pub use tx_database::{OptimisticTxDatabase, SingleWriterTxDatabase, TxDatabase};
pub use tx_keyspace::{OptimisticTxKeyspace, SingleWriterTxKeyspace, TxKeyspace};

/// A transaction of an [`OptimisticTxDatabase`].
pub type OptimisticWriteTx<D = FolderDisk> = WriteTransaction<D, Optimistic>;

/// The transaction of a [`SingleWriterTxDatabase`].
pub type SingleWriterWriteTx<D = FolderDisk> = WriteTransaction<D, Single>;

/// The settings of an [`OptimisticTxDatabase`].
pub type OptimisticTxDatabaseBuilder<D = FolderDisk> = DatabaseBuilder<OptimisticTxDatabase<D>>;

/// The settings of a [`SingleWriterTxDatabase`].
pub type SingleWriterTxDatabaseBuilder<D = FolderDisk> = DatabaseBuilder<SingleWriterTxDatabase<D>>;
