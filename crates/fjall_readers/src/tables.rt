//! Tables.

ghost use Rattle.std.specs.Prelude.{◌<◌, ◌^◌, length};

use crate::answer::refusal;
use crate::parts::parts_of;
use fjall_base::{Error, Result, bytes_of, u16_of};
use fjall_table::{FOOTER_LEN, Footer, Level, Table, TableInfo, put_check, put_frame, read_block};
use std::alloc::Global;

/// Reads a table and all of its entries, where its record tells so many. It answers how many there are.
fn count_entries(alloc: Global, bytes: &[u8], entry_count: u64) -> Result<u64> {
    let info = TableInfo {
        id: 1,
        level: Level::L0,
        file_len: bytes.len() as u64,
        entry_count,
    };
    let table = Table::open(alloc, bytes, info)?;
    let versions = table.versions()?;
    Ok(versions.len() as u64)
}

/// Reads a table's bytes, where its record tells as many entries as its footer. It answers how many there are.
#[unsafe(no_mangle)]
pub extern "C" fn fjall_read_table(alloc: Global, bytes: &[u8]) -> u64 {
    let (_, end) = bytes.split_at(bytes.len().saturating_sub(FOOTER_LEN));
    let counted = match Footer::read(end) {
        Ok(footer) => count_entries(alloc, bytes, footer.entry_count),
        Err(error) => Err(error),
    };
    match counted {
        Ok(count) => count,
        Err(error) => refusal(&error),
    }
}

/// The first key of a block's payload, or no bytes where it has none.
pub(crate) fn first_key(payload: &[u8]) -> &[u8]
    ensures { length result.now < 2 ^ 16 }
{
    let Some((len, rest)) = u16_of(payload) else {
        return &[];
    };
    let Some((_, rest)) = bytes_of(rest, 13) else {
        return &[];
    };
    match bytes_of(rest, usize::from(len)) {
        Some((key, _)) => key,
        None => &[],
    }
}

/// How many entries a framed block has, one where it is damaged.
fn entries_in(alloc: Global, framed: &[u8]) -> Result<usize> {
    match read_block(alloc, framed) {
        Ok(entries) => Ok(entries.len()),
        Err(Error::OutOfMemory) => Err(Error::OutOfMemory),
        Err(_) => Ok(1),
    }
}

/// Adds the handle of a block.
fn put_handle(index: &mut Vec<u8>, offset: usize, len: usize, key: &[u8]) -> Result<()>
    requires { length key.now < 2 ^ 16 }
{
    index.extend_from_slice(&(offset as u64).to_le_bytes())?;
    index.extend_from_slice(&(len as u64).to_le_bytes())?;
    index.extend_from_slice(&(key.len() as u16).to_le_bytes())?;
    index.extend_from_slice(key)?;
    Ok(())
}

/// Adds the index and the footer.
fn put_end(out: &mut Vec<u8>, index: &[u8], entry_count: u64) -> Result<()> {
    let offset = out.len();
    put_frame(out, index)?;
    let len = out.len() - offset;
    let before = out.len();
    out.extend_from_slice(b"FJT\x01")?;
    out.extend_from_slice(&(offset as u64).to_le_bytes())?;
    out.extend_from_slice(&(len as u64).to_le_bytes())?;
    out.extend_from_slice(&entry_count.to_le_bytes())?;
    put_check(out, before)
}

/// The table whose blocks have these parts as payloads, with a right index and footer, and how many entries it has.
fn table_of(alloc: Global, parts: &[&[u8]]) -> Result<(Vec<u8>, u64)> {
    let mut bytes = Vec::new(alloc);
    let mut index = Vec::new(alloc);
    let mut entry_count = 0u64;
    for part in parts {
        let offset = bytes.len();
        put_frame(&mut bytes, part)?;
        let len = bytes.len() - offset;
        put_handle(&mut index, offset, len, first_key(part))?;
        entry_count = entry_count.saturating_add(entries_in(alloc, &bytes[offset..])? as u64);
    }
    put_end(&mut bytes, &index, entry_count)?;
    Ok((bytes, entry_count))
}

/// Reads the table whose blocks have the parts of the input as payloads.
fn read_blocks(alloc: Global, input: &[u8]) -> Result<u64> {
    let parts = parts_of(alloc, input)?;
    let (bytes, entry_count) = table_of(alloc, &parts)?;
    count_entries(alloc, &bytes, entry_count)
}

/// Reads the table whose blocks have the parts of the input as payloads, with a right index and footer, behind right checks. It
/// answers how many entries there are.
#[unsafe(no_mangle)]
pub extern "C" fn fjall_read_blocks(alloc: Global, input: &[u8]) -> u64 {
    match read_blocks(alloc, input) {
        Ok(count) => count,
        Err(error) => refusal(&error),
    }
}
