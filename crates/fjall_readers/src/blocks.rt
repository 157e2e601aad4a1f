//! A block alone, in which a key is looked for.

use crate::answer::refusal;
use crate::parts::parts_of;
use crate::tables::first_key;
use fjall_base::Result;
use fjall_table::{BlockHandle, put_frame};
use fjall_table_reader::Block;
use std::alloc::Global;
use std::ops::Bound;

/// Behind how many entries the answer tells whether the key was found.
const FOUND: u64 = 1 << 32;

/// The block of this payload.
fn block_of(alloc: Global, payload: &[u8]) -> Result<Block> {
    let mut framed = Vec::new(alloc);
    put_frame(&mut framed, payload)?;
    let handle = BlockHandle {
        offset: 0,
        len: framed.len() as u64,
        first_key: first_key(payload),
    };
    Block::read(alloc, &handle, framed)
}

/// How many entries of the second part's block have the key of the first part or one behind it, and whether one has it.
fn find(alloc: Global, input: &[u8]) -> Result<u64> {
    let parts = parts_of(alloc, input)?;
    let [key, payload, ..] = parts.as_slice() else {
        return Ok(0);
    };
    let block = block_of(alloc, payload)?;
    let found = if block.newest(key, u64::MAX).is_some() {
        FOUND
    } else {
        0
    };
    Ok(
        found
            | block
                .within((Bound::Included(*key), Bound::Unbounded))
                .len() as u64,
    )
}

/// Looks in a block, whose payload is the second part of the input, behind a right check, for the key that the first part is. It
/// answers how many entries have this key or one behind it, and 2^32 more where the newest version of the key was found.
#[unsafe(no_mangle)]
pub extern "C" fn fjall_read_find(alloc: Global, input: &[u8]) -> u64 {
    match find(alloc, input) {
        Ok(found) => found,
        Err(error) => refusal(&error),
    }
}
