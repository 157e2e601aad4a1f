//! The bytes of a table in the making: its closed data blocks, and then the index and the footer.

ghost use Rattle.std.specs.Prelude.{◌≡◌, ◌*◌, ◌<◌, ◌^◌, ◌++◌, [], ◌∷◌, length, IfOk, OnOk, OnErr, IsOkUnless};
ghost use Rattle.fjall_table.specs.Blocks.{IsOrdered};
ghost use Rattle.fjall_table.specs.Tables.{entries_of, handle_text, footer_text, AreFull, IsTable};

use crate::footer::FOOTER_START;
use crate::frame::put_frame;
use crate::open_block::OpenBlock;
use byteorder::{ByteOrder, LittleEndian};
use fjall_base::{Error, Result, checksum};
use std::alloc::Global;
use std::marker::Model;

/// The closed blocks of a table, one behind another, and what the index says of them.
#[derive(Drop)]
pub(crate) struct ClosedBlocks {
    bytes: Vec<u8>,
    index: Vec<u8>,
    entry_count: u64,
}

impl Model for ClosedBlocks {
    ghost use Rattle.std.specs.Prelude.{List};
    ghost use Rattle.fjall_table.specs.Blocks.{Entry};

    ghost Value = { List (List Entry) };

    ghost use Rattle.fjall_table.specs.Writing.{blocks_in, AreClosed};

    ghost view = { λ b. blocks_in b.bytes.items };

    ghost invariant = { λ b. AreClosed b.bytes.items b.index.items b.entry_count (blocks_in b.bytes.items) };
}

#[tactic(auto, unfolding(crate::specs::Tables::handle_text))]
fn put_handle(out: &mut Vec<u8>, offset: u64, len: u64, first_key: &[u8]) -> Result<()>
    requires { length first_key.now < 2 ^ 16 }
    ensures ok { OnOk result (out.new.items ≡ out.old.items ++ handle_text (record { offset = offset; len = len; first_key = first_key.now })) }
    ensures err { OnErr result (out.new.items ≡ out.old.items) }
    ensures only { IsOkUnless result Error.OutOfMemory }
{
    out.reserve(18 + first_key.len())?;
    out.extend_from_slice(&offset.to_le_bytes())?;
    out.extend_from_slice(&len.to_le_bytes())?;
    out.extend_from_slice(&(first_key.len() as u16).to_le_bytes())?;
    out.extend_from_slice(first_key)?;
    Ok(())
}

/// Where the index stands, how long it is, and how many entries the table has.
#[tactic(auto, unfolding(crate::specs::Tables::footer_text))]
pub(crate) fn footer_bytes(offset: u64, len: u64, entry_count: u64) -> [u8; 36]
    ensures { result ≡ footer_text offset len entry_count }
{
    let mut bytes = [0u8; 36];
    bytes[..4].copy_from_slice(&FOOTER_START);
    LittleEndian::write_u64(&mut bytes[4..], offset);
    LittleEndian::write_u64(&mut bytes[12..], len);
    LittleEndian::write_u64(&mut bytes[20..], entry_count);
    let sum = checksum(&bytes[..28]);
    bytes[28..].copy_from_slice(&sum);
    bytes
}

impl ClosedBlocks {
    pub(crate) fn new(alloc: Global) -> ClosedBlocks
        ensures { result ≡ [] }
    {
        ClosedBlocks {
            bytes: Vec::new(alloc),
            index: Vec::new(alloc),
            entry_count: 0,
        }
    }

    pub(crate) fn entry_count(&self) -> u64
        ensures count { result ≡ length (entries_of self.now) }
        ensures small { 2 * result < 2 ^ 64 }
    {
        self.entry_count
    }

    /// Adds a block, and its line to the index. An `Err` adds nothing.
    pub(crate) fn close(&mut self, block: &OpenBlock) -> Result<()>
        requires some { 0 < length block.now }
        requires ordered { IsOrdered block.now }
        ensures ok { OnOk result (self.new ≡ self.old ++ block.now ∷ []) }
        ensures err { OnErr result (self.new ≡ self.old) }
        ensures only { IsOkUnless result Error.OutOfMemory }
    {
        let offset = self.bytes.len();
        put_frame(&mut self.bytes, block.payload())?;
        let len = self.bytes.len() - offset;
        let first_key = block.first_key();
        if let Err(error) = put_handle(&mut self.index, offset as u64, len as u64, first_key) {
            self.bytes.truncate(offset);
            return Err(error);
        }
        self.entry_count += block.entry_count();
        Ok(())
    }

    /// The bytes of the table that has these blocks.
    pub(crate) fn finish(self) -> Result<Vec<u8>>
        requires some { 0 < length self }
        requires full { AreFull self }
        requires ordered { IsOrdered (entries_of self) }
        ensures table { IfOk result (λ bytes. IsTable bytes.items (entries_of self)) }
        ensures only { IsOkUnless result Error.OutOfMemory }
    {
        let ClosedBlocks {
            mut bytes,
            index,
            entry_count,
        } = self;
        let offset = bytes.len();
        put_frame(&mut bytes, &index)?;
        let len = bytes.len() - offset;
        let footer = footer_bytes(offset as u64, len as u64, entry_count);
        bytes.extend_from_slice(&footer)?;
        Ok(bytes)
    }
}
