//! The index of a table: where its blocks stand and with which keys they begin.

ghost use Rattle.std.specs.Prelude.{◌≡◌, ◌-◌, ◌≤◌, ◌↔◌, map, IsTrue, IfOk, IfErr};
ghost use Rattle.fjall_base.specs.declared.error.StorageError.TheVariants.{TableDamaged};
ghost use Rattle.fjall_base.specs.Fields.{ShowsRead};
ghost use Rattle.fjall_table.specs.Reading.{DamagedWhere};
ghost use Rattle.fjall_table.specs.Blocks.{seen};
ghost use Rattle.fjall_table.specs.Tables.{index_text, IsIndex};
ghost use Rattle.fjall_table.specs.TableReading.{handle_of, handle_at, FollowsBlocks, IsBlockFrom, IsNoBlockFrom, IsNoIndex};

use crate::block::read_block;
use crate::frame::frame_of;
use crate::table_entry::TableEntry;
use fjall_base::{Error, Result, StorageError, bytes_of, u16_of, u64_of};
use std::alloc::Global;
use std::cmp::Ordering;

const DAMAGED: Error = Error::Storage(StorageError::TableDamaged);

/// Where a data block stands, and the key of its first entry, which is a part of the bytes that it was read from.
#[derive(Clone, Copy)]
pub struct BlockHandle<'a> {
    /// In bytes from the start of the file.
    pub offset: u64,
    /// How many bytes the framed block has.
    pub len: u64,
    /// It has 1 to 65,535 bytes.
    pub first_key: &'a [u8],
}

impl<'a> BlockHandle<'a> {
    /// The handle at the front of the bytes, and the bytes behind it.
    #[tactic(auto, unfolding(crate::specs::TableReading::handle_at))]
    fn decode(bytes: &'a [u8]) -> Option<(BlockHandle<'a>, &'a [u8])>
        ensures { ShowsRead (λ x. (handle_of x.0, x.1.now)) result (handle_at bytes.now) }
    {
        let Some((offset, rest)) = u64_of(bytes) else {
            return None;
        };
        let Some((len, rest)) = u64_of(rest) else {
            return None;
        };
        let Some((key_len, rest)) = u16_of(rest) else {
            return None;
        };
        let Some((first_key, rest)) = bytes_of(rest, usize::from(key_len)) else {
            return None;
        };
        let handle = BlockHandle {
            offset,
            len,
            first_key,
        };
        Some((handle, rest))
    }

    /// Reads the block from its bytes. Other bytes than a block's whose first key is the handle's are
    /// `Storage(TableDamaged)`.
    pub fn read<'b>(&self, alloc: Global, framed: &'b [u8]) -> Result<Vec<TableEntry<'b>>>
        ensures block { IfOk result (λ vs. IsBlockFrom self.now.first_key.now framed.now (map seen vs.items)) }
        ensures damaged { IfErr result (DamagedWhere TableDamaged (IsNoBlockFrom self.now.first_key.now framed.now)) }
    {
        let versions = read_block(alloc, framed)?;
        match versions.first() {
            Some(first) if first.key == self.first_key => Ok(versions),
            _ => Err(DAMAGED),
        }
    }

    // Whether it stands at an offset, ends within some bytes, and has a key that isn't below the last one.
    fn follows(&self, last_key: &[u8], at: u64, end: u64) -> bool
        requires { at ≤ end }
        ensures { IsTrue result ↔ FollowsBlocks last_key.now at end (handle_of self.now) }
    {
        self.offset == at
            && self.len <= end - at
            && !self.first_key.is_empty()
            && last_key.cmp(self.first_key) != Ordering::Greater
    }
}

/// The handles of all blocks, in the order of the file.
#[derive(Drop)]
pub struct Index<'a> {
    pub(crate) handles: Vec<BlockHandle<'a>>,
    pub(crate) data_len: u64,
    ghost covers: { ∥ IsIndex (map handle_of handles.items) data_len ∥₁ },
}

impl<'a> Index<'a> {
    /// Reads a framed index over so many bytes of blocks. Other bytes are `Storage(TableDamaged)`: with another check,
    /// with something behind the frame, without a handle, or with blocks that leave a gap, go past their end or begin
    /// with a key below the one before. The formats page has the layout.
    pub fn read(alloc: Global, framed: &'a [u8], data_len: u64) -> Result<Index<'a>>
        ensures index { IfOk result (λ i. IsIndex (map handle_of i.handles.items) data_len × (framed.now ≡ index_text (map handle_of i.handles.items))) }
        ensures over { IfOk result (λ i. i.data_len ≡ data_len) }
        ensures damaged { IfErr result (DamagedWhere TableDamaged (IsNoIndex framed.now data_len)) }
    {
        let Some((payload, behind)) = frame_of(framed, 8) else {
            return Err(DAMAGED);
        };
        if !behind.is_empty() {
            return Err(DAMAGED);
        }
        if payload.is_empty() {
            return Err(DAMAGED);
        }
        let mut handles: Vec<BlockHandle<'a>> = Vec::new(alloc);
        let mut last_key: &[u8] = &[];
        let mut at = 0;
        let mut rest = payload;
        while !rest.is_empty() {
            let Some((handle, after)) = BlockHandle::decode(rest) else {
                return Err(DAMAGED);
            };
            if !handle.follows(last_key, at, data_len) {
                return Err(DAMAGED);
            }
            handles.push(handle)?;
            last_key = handle.first_key;
            at += handle.len;
            rest = after;
        }
        if at != data_len {
            return Err(DAMAGED);
        }
        Ok(Index { handles, data_len })
    }

    /// The handles, in the order of the file.
    pub fn handles(&self) -> &[BlockHandle<'a>]
        ensures { result.now ≡ self.now.handles.items }
    {
        &self.handles
    }
}
