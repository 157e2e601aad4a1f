//! The options of a keyspace.

ghost use Rattle.std.specs.Prelude.{◌≡◌, ◌<◌, true, None, Some, Ok, IfOk, IfErr, MatchOption};
ghost use Rattle.byteorder.specs.Endian.{little_bytes};
ghost use Rattle.fjall_base.specs.declared.error.Error.TheVariants.{OutOfMemory};
ghost use Rattle.fjall_options.specs.Policies.{policy_bytes, number_bytes, interval_bytes, flag_bytes, compression_bytes, filter_bytes};
ghost use Rattle.fjall_options.specs.Options.{stored_options, default_options, is_value, value_at, with_value, kept_bytes, is_set, with_strategy, effective_settings, config_pairs, stored_value, stored_values, value_of, ReadsStored};

use crate::options::config_key::encode_config_key;
use crate::options::effective::EffectiveSettings;
use crate::options::leveled::Leveled;
use crate::options::option_value::OptionValue;
use crate::options::policy::{
    BlockSizePolicy, CompressionPolicy, FilterPolicy, HashRatioPolicy, PartitioningPolicy,
    PinningPolicy, RestartIntervalPolicy,
};
use crate::options::stored_option::{STORED_OPTIONS, StoredOption};
use byteorder::{ByteOrder, LittleEndian};
use fjall_base::{Error, KvPair, Result, Slice, StorageError};
use std::alloc::Global;
use std::marker::Model;

/// The options that a keyspace is created with. They are stored beside its name, and kept byte for
/// byte; [`effective`](Self::effective) says what those mean that have an effect.
#[derive(Debug, Drop)]
pub struct KeyspaceCreateOptions {
    values: Vec<OptionValue>,
}

impl Model for KeyspaceCreateOptions {
    ghost use Rattle.std.specs.Prelude.{List, ℕ, map};
    ghost use Rattle.fjall_options.specs.Options.{kept_bytes, AreOptions};

    ghost Value = { List (List ℕ) };

    ghost view = { λ o. map kept_bytes o.values.items };

    ghost invariant = { λ o. AreOptions (map kept_bytes o.values.items) };
}

impl KeyspaceCreateOptions {
    /// The default of each option. It allocates, and fails where memory is used up.
    #[tactic(auto, unfolding(crate::specs::Options::default_options))]
    pub fn default(alloc: Global) -> Result<KeyspaceCreateOptions>
        ensures ok { IfOk result (λ options. options ≡ default_options) }
        ensures only { IfErr result (λ e. e ≡ OutOfMemory) }
    {
        let mut values = Vec::new(alloc);
        for option in &STORED_OPTIONS {
            values.push(OptionValue::Stored(Slice::new(alloc, option.default_value())?))?;
        }
        Ok(KeyspaceCreateOptions { values })
    }

    /// The options with another value of one.
    fn with(mut self, option: StoredOption, value: OptionValue) -> KeyspaceCreateOptions
        requires { is_value option (kept_bytes value) ≡ true }
        ensures { result ≡ with_value option (kept_bytes value) self }
    {
        self.values[option.place()] = value;
        self
    }

    /// The bytes that an option is stored as. It takes no memory.
    pub fn value(&self, option: StoredOption) -> &[u8]
        ensures value { result.now ≡ value_at option self.now }
        ensures valid { is_value option result.now ≡ true }
    {
        self.values[option.place()].as_bytes()
    }

    /// How data blocks are compressed.
    pub fn data_block_compression_policy(self, policy: CompressionPolicy) -> KeyspaceCreateOptions
        ensures { result ≡ with_value StoredOption.DataBlockCompressionPolicy (policy_bytes compression_bytes policy) self }
    {
        self.with(
            StoredOption::DataBlockCompressionPolicy,
            OptionValue::Stored(policy.into_bytes()),
        )
    }

    /// How large the hash indexes of data blocks are.
    pub fn data_block_hash_ratio_policy(self, policy: HashRatioPolicy) -> KeyspaceCreateOptions
        ensures { result ≡ with_value StoredOption.DataBlockHashRatioPolicy (policy_bytes number_bytes policy) self }
    {
        self.with(
            StoredOption::DataBlockHashRatioPolicy,
            OptionValue::Stored(policy.into_bytes()),
        )
    }

    /// The restart intervals of data blocks.
    pub fn data_block_restart_interval_policy(
        self,
        policy: RestartIntervalPolicy,
    ) -> KeyspaceCreateOptions
        ensures { result ≡ with_value StoredOption.DataBlockRestartIntervalPolicy (policy_bytes interval_bytes policy) self }
    {
        self.with(
            StoredOption::DataBlockRestartIntervalPolicy,
            OptionValue::Stored(policy.into_bytes()),
        )
    }

    /// The sizes of data blocks in bytes.
    pub fn data_block_size_policy(self, policy: BlockSizePolicy) -> KeyspaceCreateOptions
        ensures { result ≡ with_value StoredOption.DataBlockSizePolicy (policy_bytes number_bytes policy) self }
    {
        self.with(
            StoredOption::DataBlockSizePolicy,
            OptionValue::Stored(policy.into_bytes()),
        )
    }

    /// Where filter blocks are parted.
    pub fn filter_block_partitioning_policy(
        self,
        policy: PartitioningPolicy,
    ) -> KeyspaceCreateOptions
        ensures { result ≡ with_value StoredOption.FilterBlockPartitioningPolicy (policy_bytes flag_bytes policy) self }
    {
        self.with(
            StoredOption::FilterBlockPartitioningPolicy,
            OptionValue::Stored(policy.into_bytes()),
        )
    }

    /// Where filter blocks stay in memory.
    pub fn filter_block_pinning_policy(self, policy: PinningPolicy) -> KeyspaceCreateOptions
        ensures { result ≡ with_value StoredOption.FilterBlockPinningPolicy (policy_bytes flag_bytes policy) self }
    {
        self.with(
            StoredOption::FilterBlockPinningPolicy,
            OptionValue::Stored(policy.into_bytes()),
        )
    }

    /// The filters.
    pub fn filter_policy(self, policy: FilterPolicy) -> KeyspaceCreateOptions
        ensures { result ≡ with_value StoredOption.FilterPolicy (policy_bytes filter_bytes policy) self }
    {
        self.with(
            StoredOption::FilterPolicy,
            OptionValue::Stored(policy.into_bytes()),
        )
    }

    /// How index blocks are compressed.
    pub fn index_block_compression_policy(self, policy: CompressionPolicy) -> KeyspaceCreateOptions
        ensures { result ≡ with_value StoredOption.IndexBlockCompressionPolicy (policy_bytes compression_bytes policy) self }
    {
        self.with(
            StoredOption::IndexBlockCompressionPolicy,
            OptionValue::Stored(policy.into_bytes()),
        )
    }

    /// Where index blocks are parted.
    pub fn index_block_partitioning_policy(
        self,
        policy: PartitioningPolicy,
    ) -> KeyspaceCreateOptions
        ensures { result ≡ with_value StoredOption.IndexBlockPartitioningPolicy (policy_bytes flag_bytes policy) self }
    {
        self.with(
            StoredOption::IndexBlockPartitioningPolicy,
            OptionValue::Stored(policy.into_bytes()),
        )
    }

    /// Where index blocks stay in memory.
    pub fn index_block_pinning_policy(self, policy: PinningPolicy) -> KeyspaceCreateOptions
        ensures { result ≡ with_value StoredOption.IndexBlockPinningPolicy (policy_bytes flag_bytes policy) self }
    {
        self.with(
            StoredOption::IndexBlockPinningPolicy,
            OptionValue::Stored(policy.into_bytes()),
        )
    }

    /// Whether most reads of single keys are expected to find one.
    pub fn expect_point_read_hits(self, flag: bool) -> KeyspaceCreateOptions
        ensures { result ≡ with_value StoredOption.ExpectPointReadHits (flag_bytes flag) self }
    {
        self.with(
            StoredOption::ExpectPointReadHits,
            OptionValue::Byte(u8::from(flag)),
        )
    }

    /// Whether writes leave it to the caller to persist the journal: each then waits in the journal's buffer until a
    /// persist or another command writes that out, or until it has 8,192 bytes.
    pub fn manual_journal_persist(self, flag: bool) -> KeyspaceCreateOptions
        ensures { result ≡ with_value StoredOption.ManualJournalPersist (flag_bytes flag) self }
    {
        self.with(
            StoredOption::ManualJournalPersist,
            OptionValue::Byte(u8::from(flag)),
        )
    }

    /// The bytes of an active memtable above which it is sealed.
    pub fn max_memtable_size(self, bytes: u64) -> KeyspaceCreateOptions
        ensures { result ≡ with_value StoredOption.MaxMemtableSize (little_bytes 8 bytes) self }
    {
        self.with(
            StoredOption::MaxMemtableSize,
            OptionValue::Number(bytes.to_le_bytes()),
        )
    }

    /// How tables are merged.
    #[tactic(auto, unfolding(crate::specs::Options::with_strategy))]
    pub fn compaction_strategy(self, strategy: Leveled) -> KeyspaceCreateOptions
        ensures { result ≡ with_strategy strategy self }
    {
        let threshold = OptionValue::Byte(strategy.l0_threshold);
        let target_size = OptionValue::Number(strategy.target_size.to_le_bytes());
        let level_ratios = OptionValue::Stored(strategy.level_ratios.into_bytes());
        self.with(StoredOption::LeveledL0Threshold, threshold)
            .with(StoredOption::LeveledTargetSize, target_size)
            .with(StoredOption::LeveledLevelRatioPolicy, level_ratios)
    }

    /// What the options say that have an effect.
    #[tactic(auto, unfolding(crate::specs::Options::effective_settings))]
    pub fn effective(&self) -> EffectiveSettings
        ensures settings { result ≡ effective_settings self.now }
        ensures threshold { 0 < result.l0_threshold }
        ensures target_size { 0 < result.target_size }
    {
        EffectiveSettings {
            manual_journal_persist: is_set(self.value(StoredOption::ManualJournalPersist)),
            max_memtable_size: LittleEndian::read_u64(self.value(StoredOption::MaxMemtableSize)),
            l0_threshold: self.value(StoredOption::LeveledL0Threshold)[0],
            target_size: LittleEndian::read_u64(self.value(StoredOption::LeveledTargetSize)),
        }
    }

    /// The pairs of the meta keyspace that store the options of the keyspace of this id, in the options'
    /// order. It allocates, and fails where memory is used up.
    #[tactic(auto, unfolding(crate::specs::Options::config_pairs))]
    pub fn encode_kvs(&self, alloc: Global, keyspace_id: u64) -> Result<Vec<KvPair>>
        ensures ok { IfOk result (λ pairs. pairs.items ≡ config_pairs keyspace_id self.now) }
        // Reading these pairs gives the options back.
        ensures back { IfOk result (λ pairs. stored_values keyspace_id pairs.items stored_options ≡ Ok self.now) }
        ensures only { IfErr result (λ e. e ≡ OutOfMemory) }
    {
        let mut pairs = Vec::with_capacity(alloc, self.values.len())?;
        for option in &STORED_OPTIONS {
            let key = encode_config_key(alloc, keyspace_id, option.name())?;
            let value = Slice::new(alloc, self.value(*option))?;
            pairs.push((key, value))?;
        }
        Ok(pairs)
    }

    /// The options that these pairs of the meta keyspace store for the keyspace of this id, byte for byte.
    ///
    /// The first option that is missing refuses with `Storage(OptionMissing)`, the first with a value that
    /// it doesn't take with `Storage(OptionInvalid)`. It allocates, and fails where memory is used up.
    pub fn from_kvs(
        alloc: Global,
        keyspace_id: u64,
        pairs: &[KvPair],
    ) -> Result<KeyspaceCreateOptions>
        ensures { ReadsStored result (stored_values keyspace_id pairs.now stored_options) }
    {
        let mut values = Vec::new(alloc);
        for option in &STORED_OPTIONS {
            let value = value_in(alloc, keyspace_id, pairs, *option)?;
            values.push(OptionValue::Stored(value))?;
        }
        Ok(KeyspaceCreateOptions { values })
    }
}

/// Whether a flag is set: its value is the one byte 1.
fn is_set(value: &[u8]) -> bool
    ensures { result ≡ is_set value.now }
{
    value == [1].as_slice()
}

/// The value that the pairs give to an option.
fn value_in(
    alloc: Global,
    keyspace_id: u64,
    pairs: &[KvPair],
    option: StoredOption,
) -> Result<Slice>
    ensures { ReadsStored result (stored_value keyspace_id pairs.now option) }
{
    let found = {
        let key = encode_config_key(alloc, keyspace_id, option.name())?;
        find(pairs, &key)
    };
    let Some(value) = found else {
        return Err(Error::Storage(StorageError::OptionMissing));
    };
    if !option.takes(alloc, value)? {
        return Err(Error::Storage(StorageError::OptionInvalid));
    }
    Ok(Slice::new(alloc, value)?)
}

/// The value of the first pair that has this key.
fn find<'a>(pairs: &'a [KvPair], key: &[u8]) -> Option<&'a [u8]>
    ensures { MatchOption result (value_of key.now pairs.now ≡ None) (λ value. value_of key.now pairs.now ≡ Some value.now) }
{
    for (stored, value) in pairs {
        if stored.as_slice() == key {
            return Some(value.as_slice());
        }
    }
    None
}
