//! What several words of a line spell together: names, options, items of batches and of ingestions.

use fjall_base::Slice;
use fjall_calls::{BatchItem, Op};
use fjall_options::{KeyspaceCreateOptions, Leveled};
use fjall_recorder::{LineError, Parsed, byte, bytes, number, op};
use std::alloc::Global;

/// A keyspace's name: the bytes of its word, or `0x` and their hexadecimal.
pub fn name(alloc: Global, word: &str) -> Parsed<Slice> {
    match word.strip_prefix("0x") {
        Some("") => Ok(Slice::empty()),
        Some(word) => bytes(alloc, word),
        None => Ok(Slice::new(alloc, word.as_bytes())?),
    }
}

/// The options of a keyspace that words ask for: `manual`, `memtable N`, `tables N` and `l0 N`, each as often as it likes.
pub fn options(alloc: Global, words: &[&str]) -> Parsed<KeyspaceCreateOptions> {
    let mut options = KeyspaceCreateOptions::default(alloc)?;
    let mut strategy = Leveled::default(alloc)?;
    let mut left = words;
    for _ in 0..words.len() {
        left = match left {
            [] => break,
            ["manual", rest @ ..] => {
                options = options.manual_journal_persist(true);
                rest
            }
            ["memtable", bytes, rest @ ..] => {
                options = options.max_memtable_size(number(bytes)?);
                rest
            }
            ["tables", bytes, rest @ ..] => {
                strategy = strategy.with_table_target_size(number(bytes)?.max(1));
                rest
            }
            ["l0", count, rest @ ..] => {
                strategy = strategy.with_l0_threshold(byte(count)?.max(1));
                rest
            }
            _ => return Err(LineError::BadLine),
        };
    }
    Ok(options.compaction_strategy(strategy))
}

/// The items of a batch, three words each: keyspace, key, and what becomes of it.
pub fn items(alloc: Global, words: &[&str]) -> Parsed<Vec<BatchItem>> {
    let mut items = Vec::new(alloc);
    for chunk in words.chunks(3) {
        let [id, key, what] = chunk else {
            return Err(LineError::BadLine);
        };
        items.push((number(id)?, bytes(alloc, key)?, op(alloc, what)?))?;
    }
    Ok(items)
}

/// The items of an ingestion, two words each: key, and what becomes of it.
pub fn pairs(alloc: Global, words: &[&str]) -> Parsed<Vec<(Slice, Op)>> {
    let mut pairs = Vec::new(alloc);
    for chunk in words.chunks(2) {
        let [key, what] = chunk else {
            return Err(LineError::BadLine);
        };
        pairs.push((bytes(alloc, key)?, op(alloc, what)?))?;
    }
    Ok(pairs)
}

/// So many keys of two bytes, ascending, each with this value; at most 65,535.
pub fn counted(alloc: Global, count: u64, value: &[u8]) -> Parsed<Vec<(Slice, Op)>> {
    let mut pairs = Vec::new(alloc);
    for key in 0..u16::try_from(count).unwrap_or(u16::MAX) {
        let key = Slice::new(alloc, &key.to_be_bytes())?;
        pairs.push((key, Op::Put(Slice::new(alloc, value)?)))?;
    }
    Ok(pairs)
}
