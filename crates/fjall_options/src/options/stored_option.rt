//! The options of a keyspace by name.

ghost use Rattle.std.specs.Prelude.{◌≡◌, ◌<◌, is_ok, IfOk, IfErr};
ghost use Rattle.fjall_base.specs.declared.error.Error.TheVariants.{OutOfMemory};
ghost use Rattle.fjall_options.specs.Options.{place, option_name, default_value, is_value};

use crate::options::config::DecodeConfig;
use crate::options::policy::{
    BlockSizePolicy, CompressionPolicy, FilterPolicy, PinningPolicy, RestartIntervalPolicy,
};
use byteorder::{ByteOrder, LittleEndian};
use fjall_base::{Error, Result};
use std::alloc::Global;

/// An option of a keyspace, as it is stored.
#[derive(Clone, Copy, Debug, PartialEq, Eq)]
pub enum StoredOption {
    CompactionStrategy,
    DataBlockCompressionPolicy,
    DataBlockHashRatioPolicy,
    DataBlockRestartIntervalPolicy,
    DataBlockSizePolicy,
    ExpectPointReadHits,
    FilterBlockPartitioningPolicy,
    FilterBlockPinningPolicy,
    FilterPolicy,
    IndexBlockCompressionPolicy,
    IndexBlockPartitioningPolicy,
    IndexBlockPinningPolicy,
    IndexBlockRestartIntervalPolicy,
    LevelCount,
    ManualJournalPersist,
    MaxMemtableSize,
    Version,
    LeveledL0Threshold,
    LeveledTargetSize,
    LeveledLevelRatioPolicy,
}

/// All options, in the order in which they are stored and read.
pub const STORED_OPTIONS: [StoredOption; 20] = [
    StoredOption::CompactionStrategy,
    StoredOption::DataBlockCompressionPolicy,
    StoredOption::DataBlockHashRatioPolicy,
    StoredOption::DataBlockRestartIntervalPolicy,
    StoredOption::DataBlockSizePolicy,
    StoredOption::ExpectPointReadHits,
    StoredOption::FilterBlockPartitioningPolicy,
    StoredOption::FilterBlockPinningPolicy,
    StoredOption::FilterPolicy,
    StoredOption::IndexBlockCompressionPolicy,
    StoredOption::IndexBlockPartitioningPolicy,
    StoredOption::IndexBlockPinningPolicy,
    StoredOption::IndexBlockRestartIntervalPolicy,
    StoredOption::LevelCount,
    StoredOption::ManualJournalPersist,
    StoredOption::MaxMemtableSize,
    StoredOption::Version,
    StoredOption::LeveledL0Threshold,
    StoredOption::LeveledTargetSize,
    StoredOption::LeveledLevelRatioPolicy,
];

/// All options by name ascending, which is the order of their keys.
pub const OPTIONS_BY_NAME: [StoredOption; 20] = [
    StoredOption::CompactionStrategy,
    StoredOption::DataBlockCompressionPolicy,
    StoredOption::DataBlockHashRatioPolicy,
    StoredOption::DataBlockRestartIntervalPolicy,
    StoredOption::DataBlockSizePolicy,
    StoredOption::ExpectPointReadHits,
    StoredOption::FilterBlockPartitioningPolicy,
    StoredOption::FilterBlockPinningPolicy,
    StoredOption::FilterPolicy,
    StoredOption::IndexBlockCompressionPolicy,
    StoredOption::IndexBlockPartitioningPolicy,
    StoredOption::IndexBlockPinningPolicy,
    StoredOption::IndexBlockRestartIntervalPolicy,
    StoredOption::LevelCount,
    StoredOption::LeveledL0Threshold,
    StoredOption::LeveledLevelRatioPolicy,
    StoredOption::LeveledTargetSize,
    StoredOption::ManualJournalPersist,
    StoredOption::MaxMemtableSize,
    StoredOption::Version,
];

impl StoredOption {
    /// The option's place in their order, from 0.
    pub(crate) fn place(self) -> usize
        ensures place { result ≡ place self }
        ensures bound { result < 20 }
    {
        self as usize
    }

    /// The option's name, which ends the key that it is stored under.
    pub fn name(self) -> &'static str
        ensures { result.now ≡ option_name self }
    {
        match self {
            StoredOption::CompactionStrategy => "compaction_strategy",
            StoredOption::DataBlockCompressionPolicy => "data_block_compression_policy",
            StoredOption::DataBlockHashRatioPolicy => "data_block_hash_ratio_policy",
            StoredOption::DataBlockRestartIntervalPolicy => "data_block_restart_interval_policy",
            StoredOption::DataBlockSizePolicy => "data_block_size_policy",
            StoredOption::ExpectPointReadHits => "expect_point_read_hits",
            StoredOption::FilterBlockPartitioningPolicy => "filter_block_partitioning_policy",
            StoredOption::FilterBlockPinningPolicy => "filter_block_pinning_policy",
            StoredOption::FilterPolicy => "filter_policy",
            StoredOption::IndexBlockCompressionPolicy => "index_block_compression_policy",
            StoredOption::IndexBlockPartitioningPolicy => "index_block_partitioning_policy",
            StoredOption::IndexBlockPinningPolicy => "index_block_pinning_policy",
            StoredOption::IndexBlockRestartIntervalPolicy => "index_block_restart_interval_policy",
            StoredOption::LevelCount => "level_count",
            StoredOption::ManualJournalPersist => "manual_journal_persist",
            StoredOption::MaxMemtableSize => "max_memtable_size",
            StoredOption::Version => "version",
            StoredOption::LeveledL0Threshold => "leveled_l0_threshold",
            StoredOption::LeveledTargetSize => "leveled_target_size",
            StoredOption::LeveledLevelRatioPolicy => "leveled_level_ratio_policy",
        }
    }

    /// The value that the option has where nobody set another.
    pub fn default_value(self) -> &'static [u8]
        ensures { result.now ≡ default_value self }
    {
        match self {
            StoredOption::CompactionStrategy => b"LeveledCompaction",
            StoredOption::DataBlockCompressionPolicy => &[1, 0],
            StoredOption::DataBlockHashRatioPolicy => &[1, 0, 0, 0, 0],
            StoredOption::DataBlockRestartIntervalPolicy => &[2, 10, 16],
            StoredOption::DataBlockSizePolicy => &[1, 0, 16, 0, 0],
            StoredOption::ExpectPointReadHits => &[0],
            StoredOption::FilterBlockPartitioningPolicy => &[4, 0, 0, 0, 1],
            StoredOption::FilterBlockPinningPolicy => &[2, 1, 0],
            StoredOption::FilterPolicy => &[2, 1, 1, 0x64, 0, 0, 0, 1, 0, 0x80, 0x96, 0x98, 0],
            StoredOption::IndexBlockCompressionPolicy => &[1, 0],
            StoredOption::IndexBlockPartitioningPolicy => &[4, 0, 0, 0, 1],
            StoredOption::IndexBlockPinningPolicy => &[3, 1, 1, 0],
            StoredOption::IndexBlockRestartIntervalPolicy => &[1, 1],
            StoredOption::LevelCount => &[7],
            StoredOption::ManualJournalPersist => &[0],
            StoredOption::MaxMemtableSize => &[0, 0, 0, 4, 0, 0, 0, 0],
            StoredOption::Version => &[3],
            StoredOption::LeveledL0Threshold => &[4],
            StoredOption::LeveledTargetSize => &[0, 0, 0, 4, 0, 0, 0, 0],
            StoredOption::LeveledLevelRatioPolicy => &[1, 0x80, 0x96, 0x98, 0],
        }
    }

    /// Whether the option takes this value. It allocates, and fails where memory is used up.
    pub(crate) fn takes(self, alloc: Global, value: &[u8]) -> Result<bool>
        ensures ok { IfOk result (λ takes. takes ≡ is_value self value.now) }
        ensures only { IfErr result (λ e. e ≡ OutOfMemory) }
    {
        match self {
            StoredOption::CompactionStrategy => Ok(value == b"LeveledCompaction".as_slice()),
            StoredOption::DataBlockCompressionPolicy | StoredOption::IndexBlockCompressionPolicy =>
                { decodes::<CompressionPolicy>(alloc, value) }
            StoredOption::DataBlockHashRatioPolicy
            | StoredOption::DataBlockSizePolicy
            | StoredOption::LeveledLevelRatioPolicy => decodes::<BlockSizePolicy>(alloc, value),
            StoredOption::DataBlockRestartIntervalPolicy
            | StoredOption::IndexBlockRestartIntervalPolicy => {
                decodes::<RestartIntervalPolicy>(alloc, value)
            }
            StoredOption::FilterBlockPartitioningPolicy
            | StoredOption::FilterBlockPinningPolicy
            | StoredOption::IndexBlockPartitioningPolicy
            | StoredOption::IndexBlockPinningPolicy => decodes::<PinningPolicy>(alloc, value),
            StoredOption::FilterPolicy => decodes::<FilterPolicy>(alloc, value),
            StoredOption::ExpectPointReadHits
            | StoredOption::LevelCount
            | StoredOption::ManualJournalPersist
            | StoredOption::Version => Ok(true),
            StoredOption::MaxMemtableSize => Ok(value.len() == 8),
            StoredOption::LeveledL0Threshold => Ok(value.len() == 1 && value[0] > 0),
            StoredOption::LeveledTargetSize => {
                Ok(value.len() == 8 && LittleEndian::read_u64(value) > 0)
            }
        }
    }
}

/// Whether the bytes can be decoded. It allocates, and fails where memory is used up.
fn decodes<P: DecodeConfig + Drop>(alloc: Global, bytes: &[u8]) -> Result<bool>
    ensures ok { IfOk result (λ decodes. decodes ≡ is_ok (P.config_at bytes.now)) }
    ensures only { IfErr result (λ e. e ≡ OutOfMemory) }
{
    match P::decode(alloc, bytes) {
        Ok(_) => Ok(true),
        Err(Error::OutOfMemory) => Err(Error::OutOfMemory),
        Err(_) => Ok(false),
    }
}
