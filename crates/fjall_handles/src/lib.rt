//! Handles of a database that threads share: of the database itself, of its keyspaces, of snapshots, and what is written through them at once.
//! Each call takes the engine's lock for one call of the engine. Workers flush and merge beside them.
#![tactic(auto)]

mod batch;
mod builder;
mod database;
mod ingestion;
mod inner;
mod iter;
mod keyspace;
mod needs;
mod opening;
mod reader;
mod snapshot;
mod temporary;
mod transaction;
mod tx_reader;
mod working;

pub use batch::OwnedWriteBatch;
pub use builder::{DatabaseBuilder, Host};
pub use database::Database;
pub use fjall_base::{
    CompressionType, Disk, Error, FormatVersion, JournalRecoveryError, KeyBounds, KvPair, Refused,
    Result, Slice, StorageError, UserKey, UserValue,
};
pub use fjall_disk_folder::FolderDisk;
pub use fjall_options::{
    BlockSizePolicy, BloomConstructionPolicy, CompressionPolicy, DecodeConfig, EncodeConfig,
    FilterPolicy, FilterPolicyEntry, HashRatioPolicy, KeyspaceCreateOptions, Leveled, Levelled,
    PartitioningPolicy, PinningPolicy, RestartIntervalPolicy,
};
pub use fjall_reading::{Guard, Identified, ReadIter, Readable, prefix_to_range, prefixed_range};
pub use fjall_shared::{Config, Conflict, Made, PersistMode, RecoveryMode};
pub use fjall_workers::{Gate, OpenGate};
pub use ingestion::Ingestion;
pub use iter::Iter;
pub use keyspace::Keyspace;
pub use reader::Reader;
pub use snapshot::Snapshot;
pub use transaction::{Kind, Optimistic, Single, WriteTransaction};
pub use tx_reader::TransactionReader;

// What users of handles name of the crates below, so that who stands on these lists no other.
