//! The pairs of the meta keyspace.

use crate::answer::refusal;
use crate::parts::parts_of;
use crate::stored::value_of;
use fjall_base::{Result, Slice};
use fjall_meta::{MetaEntry, MetaKeyspace};
use fjall_options::{OPTIONS_BY_NAME, encode_config_key, encode_name_key};
use std::alloc::Global;

/// So many parts a keyspace has: its name, and the values of its options.
const EACH: usize = 21;

/// The entries whose keys and values are the parts, one behind the other.
fn pairs_of(alloc: Global, parts: &[&[u8]]) -> Result<Vec<MetaEntry>> {
    let mut entries = Vec::new(alloc);
    for pair in parts.chunks_exact(2) {
        entries.push(MetaEntry {
            key: Slice::new(alloc, pair[0])?,
            value: Slice::new(alloc, pair[1])?,
            number: 1,
        })?;
    }
    Ok(entries)
}

/// Adds the entries of the options of the keyspace of this id, whose values are these parts.
fn put_options(
    entries: &mut Vec<MetaEntry>,
    alloc: Global,
    id: u64,
    values: &[&[u8]],
) -> Result<()> {
    for (at, option) in OPTIONS_BY_NAME.iter().enumerate() {
        let value = value_of(values.get(at), *option);
        entries.push(MetaEntry {
            key: encode_config_key(alloc, id, option.name())?,
            value: Slice::new(alloc, value)?,
            number: id,
        })?;
    }
    Ok(())
}

/// The entries of keyspaces of which each has its name and the values of its options by name from the parts, in their order.
fn entries_of(alloc: Global, parts: &[&[u8]]) -> Result<Vec<MetaEntry>> {
    let mut entries = Vec::new(alloc);
    for (id, own) in parts.chunks(EACH).enumerate() {
        put_options(&mut entries, alloc, 1 + id as u64, &own[1..])?;
    }
    for (id, own) in parts.chunks(EACH).enumerate() {
        entries.push(MetaEntry {
            key: encode_name_key(alloc, 1 + id as u64)?,
            value: Slice::new(alloc, own[0])?,
            number: 1 + id as u64,
        })?;
    }
    Ok(entries)
}

/// How many keyspaces the entries store.
fn count_keyspaces(alloc: Global, entries: &[MetaEntry]) -> Result<u64> {
    let keyspaces = MetaKeyspace::from_entries(alloc, entries, 1 << 32)?;
    Ok(keyspaces.keyspace_count() as u64)
}

/// How many keyspaces the parts store, as pairs or, where they are framed, as names and values.
fn read_keyspaces(alloc: Global, input: &[u8], framed: bool) -> Result<u64> {
    let parts = parts_of(alloc, input)?;
    let entries = if framed {
        entries_of(alloc, &parts)?
    } else {
        pairs_of(alloc, &parts)?
    };
    count_keyspaces(alloc, &entries)
}

/// Reads the pairs of the meta keyspace whose keys and values are the parts of the input. It answers how many keyspaces they store.
#[unsafe(no_mangle)]
pub extern "C" fn fjall_read_pairs(alloc: Global, input: &[u8]) -> u64 {
    match read_keyspaces(alloc, input, false) {
        Ok(count) => count,
        Err(error) => refusal(&error),
    }
}

/// Reads the pairs of keyspaces, each with a name and values of its options from the parts of the input, under right keys. It
/// answers how many keyspaces they store.
#[unsafe(no_mangle)]
pub extern "C" fn fjall_read_keyspaces(alloc: Global, input: &[u8]) -> u64 {
    match read_keyspaces(alloc, input, true) {
        Ok(count) => count,
        Err(error) => refusal(&error),
    }
}
