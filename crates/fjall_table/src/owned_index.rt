//! The index of a table that was copied out of the bytes that it was read from.

ghost use Rattle.std.specs.Prelude.{◌≡◌, ◌≤◌, length, map, take, drop, IfOk, IfErr, OnOk, IsOkUnless};
ghost use Rattle.fjall_base.specs.declared.error.StorageError.TheVariants.{TableDamaged};
ghost use Rattle.fjall_table.specs.Reading.{DamagedWhere};
ghost use Rattle.fjall_table.specs.Tables.{index_text, IsIndex};
ghost use Rattle.fjall_table.specs.TableReading.{handle_of, IsNoIndex};
ghost use Rattle.fjall_table.specs.Owned.{owned_handle, keys_text};

use crate::index::{BlockHandle, Index};
use crate::owned_handle::OwnedHandle;
use bytes::Bytes;
use fjall_base::{Error, Result, Slice};
use std::alloc::Global;

impl OwnedHandle {
    /// The same handle, whose key is a part of this one.
    pub fn borrowed(&self) -> BlockHandle<'_>
        ensures { handle_of result ≡ owned_handle self.now }
    {
        BlockHandle {
            offset: self.offset,
            len: self.len,
            first_key: self.first_key.as_slice(),
        }
    }
}

// All first keys, one behind another.
fn keys_of(alloc: Global, handles: &[BlockHandle<'_>]) -> Result<Vec<u8>>
    ensures text { IfOk result (λ text. text.items ≡ keys_text (map handle_of handles.now)) }
    ensures only { IsOkUnless result Error.OutOfMemory }
{
    let mut text = Vec::new(alloc);
    for handle in handles {
        text.extend_from_slice(handle.first_key)?;
    }
    Ok(text)
}

// So many bytes off the front, as a part of the same text.
fn take_key(rest: &mut Bytes, len: usize) -> Result<Slice>
    requires { len ≤ length rest.old }
    ensures key { IfOk result (λ key. key ≡ take len rest.old) }
    ensures rest { OnOk result (rest.new ≡ drop len rest.old) }
    ensures only { IsOkUnless result Error.OutOfMemory }
{
    let key = Slice::part_of(rest, 0..len)?;
    rest.advance(len);
    Ok(key)
}

// The same handles, whose keys are parts of one text.
fn cut_handles(
    alloc: Global,
    text: Vec<u8>,
    handles: &[BlockHandle<'_>],
) -> Result<Vec<OwnedHandle>>
    requires { text.items ≡ keys_text (map handle_of handles.now) }
    ensures ok { IfOk result (λ hs. map owned_handle hs.items ≡ map handle_of handles.now) }
    ensures only { IsOkUnless result Error.OutOfMemory }
{
    let mut rest = Bytes::from_vec(text)?;
    let mut copies = Vec::with_capacity(alloc, handles.len())?;
    for handle in handles {
        let first_key = take_key(&mut rest, handle.first_key.len())?;
        copies.push(OwnedHandle::new(handle.offset, handle.len, first_key))?;
    }
    Ok(copies)
}

/// The handles of all blocks, in the order of the file.
#[derive(Drop)]
pub struct OwnedIndex {
    /// One of each block.
    pub handles: Vec<OwnedHandle>,
    /// Where the last block ends, in bytes from the start of the file.
    pub data_len: u64,
    ghost covers: { ∥ IsIndex (map owned_handle handles.items) data_len ∥₁ },
}

impl OwnedIndex {
    /// A copy of an index, whose first keys stand in one text.
    pub fn copy(alloc: Global, index: &Index<'_>) -> Result<OwnedIndex>
        ensures index { IfOk result (λ i. map owned_handle i.handles.items ≡ map handle_of index.now.handles.items) }
        ensures over { IfOk result (λ i. i.data_len ≡ index.now.data_len) }
        ensures only { IsOkUnless result Error.OutOfMemory }
    {
        let text = keys_of(alloc, index.handles())?;
        Ok(OwnedIndex {
            handles: cut_handles(alloc, text, index.handles())?,
            data_len: index.data_len,
        })
    }

    /// Reads a framed index over so many bytes of blocks, as `Index::read`.
    pub fn read(alloc: Global, framed: &[u8], data_len: u64) -> Result<OwnedIndex>
        ensures index { IfOk result (λ i. IsIndex (map owned_handle i.handles.items) data_len × (framed.now ≡ index_text (map owned_handle i.handles.items))) }
        ensures over { IfOk result (λ i. i.data_len ≡ data_len) }
        ensures damaged { IfErr result (DamagedWhere TableDamaged (IsNoIndex framed.now data_len)) }
    {
        let index = Index::read(alloc, framed, data_len)?;
        OwnedIndex::copy(alloc, &index)
    }
}
