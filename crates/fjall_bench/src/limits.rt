//! What an insertion takes at least, each part alone: the append of its batch, and a memtable's insertion. Its digest is taken
//! where the data is. And what a scan takes at least: its answers alone.

use crate::data::{KEY_LEN, VALUE_LEN, key_of, record_of, value_of};
use crate::reads::PAGE_PAIRS;
use bytes::Bytes;
use fjall_base::{Disk, KvPair, Result, Slice};
use fjall_memtable::Memtable;
use std::alloc::Global;

// The file that records are appended to.
const FILE: &str = "records";

/// Appends a record of each number to a new file, one call each, and removes the file.
pub fn append_each<D: Disk>(disk: &mut D, numbers: &[u64]) -> Result<()> {
    disk.create(FILE)?;
    for number in numbers {
        disk.append(FILE, &record_of(*number))?;
    }
    disk.remove(FILE)
}

/// Inserts each number's pair into a memtable, and says how many it holds then.
pub fn fill_memtable(alloc: Global, numbers: &[u64]) -> Result<u64> {
    let mut memtable = Memtable::new(alloc);
    let mut number = 0u64;
    for pair in numbers {
        memtable.insert_once(&key_of(*pair), number, Some(&value_of(*pair)))?;
        number = number.saturating_add(1);
    }
    Ok(memtable.len() as u64)
}

// A page of so many pairs, whose keys and values are parts of one text.
fn make_page(alloc: Global, numbers: &[u64]) -> Result<Vec<KvPair>> {
    let text = Bytes::copy_from_slice(alloc, &record_of(0))?;
    let mut pairs = Vec::new(alloc);
    for _ in numbers {
        let key = Slice::part_of(&text, 0..KEY_LEN)?;
        let value = Slice::part_of(&text, KEY_LEN..KEY_LEN + VALUE_LEN)?;
        pairs.push((key, value))?;
    }
    Ok(pairs)
}

/// Makes a pair for each number, as a scan answers them, a page after another, and says how many there were.
pub fn make_pairs(alloc: Global, numbers: &[u64]) -> Result<u64> {
    let mut made = 0u64;
    for page in numbers.chunks(PAGE_PAIRS) {
        made = made.saturating_add(make_page(alloc, page)?.len() as u64);
    }
    Ok(made)
}
