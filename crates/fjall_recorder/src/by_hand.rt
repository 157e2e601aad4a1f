//! Changes of a disk by hand.

use crate::words::{LineError, Parsed, number};
use fjall_base::{CompressionType, Disk, Result, Slice, checksum};
use fjall_disk_memory::MemoryDisk;
use fjall_journal::{Entry, ValueType};
use std::alloc::Global;

/// A change of what stands at a name.
#[derive(Clone, Copy)]
pub enum Change<'a> {
    /// A folder is made.
    Folder,
    /// A file gets these bytes at its end, and is made where it is missing.
    Append(&'a [u8]),
    /// A file ends at this length.
    Cut(usize),
    /// A file has another byte at a place, where it is as long.
    Byte(usize, u8),
    /// A file is removed.
    Remove,
}

fn put_byte(alloc: Global, disk: &mut MemoryDisk, name: &str, at: usize, byte: u8) -> Result<()> {
    let Some(mut text) = disk.read(alloc, name)? else {
        return Ok(());
    };
    if let Some(place) = text.get_mut(at) {
        *place = byte;
    }
    disk.cut_sync(name, 0)?;
    disk.append(name, &text)
}

/// Makes a change.
pub fn make(alloc: Global, disk: &mut MemoryDisk, name: &str, change: Change<'_>) -> Result<()> {
    match change {
        Change::Folder => disk.make_folder(name),
        Change::Append(bytes) => {
            disk.create(name)?;
            disk.append(name, bytes)
        }
        Change::Cut(len) => disk.cut_sync(name, len),
        Change::Byte(at, byte) => put_byte(alloc, disk, name, at, byte),
        Change::Remove => disk.remove(name),
    }
}

// The kind of an item.
fn value_type(word: &str) -> Parsed<ValueType> {
    match word {
        "value" => Ok(ValueType::Value),
        "tombstone" => Ok(ValueType::Tombstone),
        "weak" => Ok(ValueType::WeakTombstone),
        "indirect" => Ok(ValueType::Indirection),
        _ => Err(LineError::BadLine),
    }
}

// An entry of a batch: `KIND:ID`, which gives or takes the value "w" of "a", or `clear:ID`.
fn entry(alloc: Global, word: &str) -> Parsed<Entry> {
    let Some((kind, id)) = word.split_once(':') else {
        return Err(LineError::BadLine);
    };
    let keyspace_id = number(id)?;
    if kind == "clear" {
        return Ok(Entry::Clear { keyspace_id });
    }
    let value_type = value_type(kind)?;
    let key = Slice::new(alloc, b"a")?;
    let value = Slice::new(alloc, b"w")?;
    Ok(Entry::Item {
        keyspace_id,
        key,
        value,
        value_type,
        compression: CompressionType::None,
    })
}

/// The bytes of a batch in a journal: its number, and its entries as `value:ID`, `tombstone:ID`, `weak:ID` or `indirect:ID` of the key
/// `a` and the value `w`, or `clear:ID`.
pub fn entries(alloc: Global, seqno: u64, words: &[&str]) -> Parsed<Vec<u8>> {
    let mut text = Vec::new(alloc);
    let item_count = u32::try_from(words.len()).unwrap_or(u32::MAX);
    Entry::Start { item_count, seqno }.encode_into(&mut text)?;
    for word in words {
        entry(alloc, word)?.encode_into(&mut text)?;
    }
    let check = checksum(&text);
    Entry::End(check).encode_into(&mut text)?;
    Ok(text)
}
