//! The options of a keyspace: what is stored of them, and what holds of what is stored.
#![tactic(auto)]

mod options;

pub use options::{
    BlockSizePolicy, BloomConstructionPolicy, CompressionPolicy, DecodeConfig, EffectiveSettings,
    EncodeConfig, FilterPolicy, FilterPolicyEntry, HashRatioPolicy, KeyspaceCreateOptions, Leveled,
    Levelled, OPTIONS_BY_NAME, PartitioningPolicy, PinningPolicy, Policy, PolicyEntry,
    RestartIntervalPolicy, STORED_OPTIONS, StoredOption, encode_config_key, encode_name_key,
    name_key_bytes, put_config_key,
};
