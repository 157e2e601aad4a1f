//! The options of a keyspace: what they are, how they are stored, and how they are read back.

mod config;
mod config_key;
mod create_options;
mod effective;
mod entry;
mod filter;
mod leveled;
mod option_value;
mod policy;
mod stored_option;

pub use config::{DecodeConfig, EncodeConfig};
pub use config_key::{encode_config_key, encode_name_key, name_key_bytes, put_config_key};
pub use create_options::KeyspaceCreateOptions;
pub use effective::EffectiveSettings;
pub use entry::PolicyEntry;
pub use filter::{BloomConstructionPolicy, FilterPolicyEntry};
pub use leveled::{Leveled, Levelled};
pub use policy::{
    BlockSizePolicy, CompressionPolicy, FilterPolicy, HashRatioPolicy, PartitioningPolicy,
    PinningPolicy, Policy, RestartIntervalPolicy,
};
pub use stored_option::{OPTIONS_BY_NAME, STORED_OPTIONS, StoredOption};
