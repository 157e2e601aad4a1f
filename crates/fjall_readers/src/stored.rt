//! Policies and stored options.

use crate::answer::refusal;
use crate::parts::parts_of;
use fjall_base::{KvPair, Result, Slice};
use fjall_options::{
    BlockSizePolicy, CompressionPolicy, DecodeConfig, FilterPolicy, KeyspaceCreateOptions,
    PinningPolicy, Policy, PolicyEntry, RestartIntervalPolicy, STORED_OPTIONS, StoredOption,
    encode_config_key,
};
use std::alloc::Global;

/// The answer to a policy that was decoded: how many entries it has.
fn told<T: PolicyEntry + Drop>(decoded: Result<Policy<T>>) -> u64 {
    match decoded {
        Ok(policy) => policy.len() as u64,
        Err(error) => refusal(&error),
    }
}

/// Decodes the bytes behind the first one as a policy of the kind that this names. It answers how many entries it has.
#[unsafe(no_mangle)]
pub extern "C" fn fjall_read_policy(alloc: Global, input: &[u8]) -> u64 {
    let Some((kind, bytes)) = input.split_first() else {
        return 0;
    };
    match kind % 5 {
        0 => told(BlockSizePolicy::decode(alloc, bytes)),
        1 => told(CompressionPolicy::decode(alloc, bytes)),
        2 => told(FilterPolicy::decode(alloc, bytes)),
        3 => told(PinningPolicy::decode(alloc, bytes)),
        _ => told(RestartIntervalPolicy::decode(alloc, bytes)),
    }
}

/// The value that is stored for an option: the part, or the default where it is empty or missing.
pub(crate) fn value_of<'a>(part: Option<&&'a [u8]>, option: StoredOption) -> &'a [u8] {
    match part {
        Some(part) if !part.is_empty() => *part,
        _ => option.default_value(),
    }
}

/// The pairs that store the parts as the values of keyspace 1's options, in their order.
fn options_of(alloc: Global, parts: &[&[u8]]) -> Result<Vec<KvPair>> {
    let mut pairs = Vec::new(alloc);
    for (at, option) in STORED_OPTIONS.iter().enumerate() {
        let value = value_of(parts.get(at), *option);
        let key = encode_config_key(alloc, 1, option.name())?;
        pairs.push((key, Slice::new(alloc, value)?))?;
    }
    Ok(pairs)
}

/// Reads the options that the parts store. It answers how many bytes a memtable may have.
fn read_options(alloc: Global, input: &[u8]) -> Result<u64> {
    let parts = parts_of(alloc, input)?;
    let pairs = options_of(alloc, &parts)?;
    let options = KeyspaceCreateOptions::from_kvs(alloc, 1, &pairs)?;
    Ok(options.effective().max_memtable_size >> 1)
}

/// Reads stored options whose values are the parts of the input, or the defaults where these are empty or missing. It answers
/// the half of how many bytes a memtable may have.
#[unsafe(no_mangle)]
pub extern "C" fn fjall_read_options(alloc: Global, input: &[u8]) -> u64 {
    match read_options(alloc, input) {
        Ok(half) => half,
        Err(error) => refusal(&error),
    }
}
