//! Data blocks of a table.

ghost use Rattle.std.specs.Prelude.{◌≡◌, ◌↔◌, map, IsTrue, IfOk, IfErr, IfSome};
ghost use Rattle.std.specs.Option.{option_map};
ghost use Rattle.fjall_base.specs.declared.error.StorageError.TheVariants.{TableDamaged};
ghost use Rattle.fjall_table.specs.Reading.{DamagedWhere};
ghost use Rattle.fjall_table.specs.Blocks.{seen, block_text, IsBefore, IsBlock, IsNoBlock};

use crate::frame::frame_of;
use crate::table_entry::TableEntry;
use fjall_base::{Error, Result, StorageError};
use std::alloc::Global;

/// A block is closed as soon as its payload has so many bytes.
pub const BLOCK_BYTES: usize = 4 * 1_024;

const DAMAGED: Error = Error::Storage(StorageError::TableDamaged);

fn follows(last: &Option<TableEntry<'_>>, version: &TableEntry<'_>) -> bool
    ensures { IsTrue result ↔ IfSome (option_map seen last.now) (λ w. IsBefore w (seen version.now)) }
{
    match last {
        Some(last) => last.is_before(version),
        None => true,
    }
}

/// All versions of a data block, in order. Keys and values are parts of its bytes. Bytes that are no block are
/// `Storage(TableDamaged)`: with another check, behind which something stands, without a version, out of order, or
/// closed too late. The formats page has the layout.
pub fn read_block(alloc: Global, bytes: &[u8]) -> Result<Vec<TableEntry<'_>>>
    ensures block { IfOk result (λ vs. IsBlock (map seen vs.items) × (bytes.now ≡ block_text (map seen vs.items))) }
    ensures damaged { IfErr result (DamagedWhere TableDamaged (IsNoBlock bytes.now)) }
{
    let Some((payload, behind)) = frame_of(bytes, 8) else {
        return Err(DAMAGED);
    };
    if !behind.is_empty() {
        return Err(DAMAGED);
    }
    if payload.is_empty() {
        return Err(DAMAGED);
    }
    let mut versions = Vec::new(alloc);
    let mut last = None;
    let mut rest = payload;
    while !rest.is_empty() {
        let Some((version, after)) = TableEntry::decode(rest) else {
            return Err(DAMAGED);
        };
        if payload.len() - rest.len() >= BLOCK_BYTES {
            return Err(DAMAGED);
        }
        if !follows(&last, &version) {
            return Err(DAMAGED);
        }
        versions.push(version)?;
        last = Some(version);
        rest = after;
    }
    Ok(versions)
}
