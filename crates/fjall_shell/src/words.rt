//! What the words of a line spell.

use fjall::{KeyBounds, KeyspaceCreateOptions, Leveled, Slice};
use fjall_recorder::{LineError, Parsed, byte, bytes, number, value};
use std::alloc::Global;
use std::ops::Bound;

/// Where a range of keys begins and where it ends.
pub type KeyRange = (Bound<Slice>, Bound<Slice>);

/// A key, and its new value, or none where it is removed.
pub type Pair = (Slice, Option<Slice>);

/// The same in the keyspace of an id.
pub type Item = (u64, Slice, Option<Slice>);

/// The text of these bytes.
pub fn text(alloc: Global, bytes: &[u8]) -> Parsed<String> {
    match str::from_utf8(bytes) {
        Ok(text) => Ok(String::from_str(alloc, text)?),
        Err(_) => Err(LineError::BadLine),
    }
}

/// A keyspace's name: the text of its word, or `0x` and its hexadecimal.
pub fn name(alloc: Global, word: &str) -> Parsed<String> {
    match word.strip_prefix("0x") {
        Some("") => Ok(String::new(alloc)),
        Some(word) => text(alloc, &bytes(alloc, word)?),
        None => text(alloc, word.as_bytes()),
    }
}

// A bound that is lent.
fn lent_bound(bound: &Bound<Slice>) -> Bound<&[u8]> {
    match bound {
        Bound::Included(key) => Bound::Included(key.as_slice()),
        Bound::Excluded(key) => Bound::Excluded(key.as_slice()),
        Bound::Unbounded => Bound::Unbounded,
    }
}

/// The bounds of a range, which are lent.
pub fn lent(range: &KeyRange) -> KeyBounds<'_> {
    (lent_bound(&range.0), lent_bound(&range.1))
}

/// What a line says of a keyspace's options. What it doesn't say is as usual.
#[derive(Clone, Copy)]
pub struct Wishes {
    manual: bool,
    memtable: Option<u64>,
    table: Option<u64>,
    l0: Option<u8>,
}

/// The options of a keyspace that words ask for: `manual`, `memtable N`, `tables N` and `l0 N`, each as often as it likes.
pub fn read_wishes(words: &[&str]) -> Parsed<Wishes> {
    let mut wishes = Wishes {
        manual: false,
        memtable: None,
        table: None,
        l0: None,
    };
    let mut left = words;
    for _ in 0..words.len() {
        left = match left {
            [] => break,
            ["manual", rest @ ..] => {
                wishes.manual = true;
                rest
            }
            ["memtable", bytes, rest @ ..] => {
                wishes.memtable = Some(number(bytes)?);
                rest
            }
            ["tables", bytes, rest @ ..] => {
                wishes.table = Some(number(bytes)?);
                rest
            }
            ["l0", count, rest @ ..] => {
                wishes.l0 = Some(byte(count)?);
                rest
            }
            _ => return Err(LineError::BadLine),
        };
    }
    Ok(wishes)
}

impl Wishes {
    /// The options.
    pub fn options(self, alloc: Global) -> fjall::Result<KeyspaceCreateOptions> {
        let mut options = KeyspaceCreateOptions::default(alloc)?.manual_journal_persist(
            self.manual,
        );
        let mut strategy = Leveled::default(alloc)?;
        if let Some(bytes) = self.memtable {
            options = options.max_memtable_size(bytes);
        }
        if let Some(bytes) = self.table {
            strategy = strategy.with_table_target_size(bytes.max(1));
        }
        if let Some(count) = self.l0 {
            strategy = strategy.with_l0_threshold(count.max(1));
        }
        Ok(options.compaction_strategy(strategy))
    }
}

/// The items of a batch, three words each: keyspace, key, and its new value.
pub fn items(alloc: Global, words: &[&str]) -> Parsed<Vec<Item>> {
    let mut items = Vec::new(alloc);
    for chunk in words.chunks(3) {
        let [id, key, new] = chunk else {
            return Err(LineError::BadLine);
        };
        items.push((number(id)?, bytes(alloc, key)?, value(alloc, new)?))?;
    }
    Ok(items)
}

/// The items of an ingestion, two words each: key, and its new value.
pub fn pairs(alloc: Global, words: &[&str]) -> Parsed<Vec<Pair>> {
    let mut pairs = Vec::new(alloc);
    for chunk in words.chunks(2) {
        let [key, new] = chunk else {
            return Err(LineError::BadLine);
        };
        pairs.push((bytes(alloc, key)?, value(alloc, new)?))?;
    }
    Ok(pairs)
}

/// So many keys of two bytes, ascending, each with this value; at most 65,535.
pub fn counted(alloc: Global, word: &str, value: &[u8]) -> Parsed<Vec<Pair>> {
    let count = u16::try_from(number(word)?).unwrap_or(u16::MAX);
    let mut pairs = Vec::new(alloc);
    for key in 0..count {
        let key = Slice::new(alloc, &key.to_be_bytes())?;
        pairs.push((key, Some(Slice::new(alloc, value)?)))?;
    }
    Ok(pairs)
}
