//! A table: entries in blocks, and the index over them.

ghost use Rattle.std.specs.Prelude.{OnOk, ◌≡◌, ◌<◌, ◌≤◌, ◌++◌, ◌↔◌, IsTrue, length, take, map, slice_get, IfOk, IfErr, IfSome, IsOkUnless};
ghost use Rattle.fjall_base.specs.declared.error.StorageError.TheVariants.{TableDamaged};
ghost use Rattle.fjall_table.specs.Reading.{DamagedWhere};
ghost use Rattle.fjall_table.specs.Blocks.{seen, IsOrdered};
ghost use Rattle.fjall_table.specs.Tables.{end_text, IsTable, HasIndex};
ghost use Rattle.fjall_table.specs.TableReading.{handle_of, HasNoIndex, IsBlockOf, IsNoBlockOf, IsNoTable};

use crate::block::BLOCK_BYTES;
use crate::footer::{FOOTER_LEN, Footer};
use crate::index::Index;
use crate::table_entry::TableEntry;
use crate::table_info::TableInfo;
use fjall_base::{Error, Result, StorageError};
use std::alloc::Global;

const DAMAGED: Error = Error::Storage(StorageError::TableDamaged);

/// How many bytes the frame of a full block has at least.
const FULL_LEN: u64 = 16 + BLOCK_BYTES as u64;

/// Whether ordered versions and those of a block are in order together.
fn goes_on(versions: &[TableEntry<'_>], block: &[TableEntry<'_>]) -> bool
    requires before { IsOrdered (map seen versions.now) }
    requires block { IsOrdered (map seen block.now) }
    ensures { IsTrue result ↔ IsOrdered (map seen versions.now ++ map seen block.now) }
{
    match (versions.last(), block.first()) {
        (Some(last), Some(first)) => last.is_before(first),
        _ => true,
    }
}

/// Adds copies of versions.
fn put_versions<'a>(out: &mut Vec<TableEntry<'a>>, versions: &[TableEntry<'a>]) -> Result<()>
    ensures ok { OnOk result (out.new.items ≡ out.old.items ++ versions.now) }
    ensures only { IsOkUnless result Error.OutOfMemory }
{
    for version in versions {
        out.push(*version)?;
    }
    Ok(())
}

/// A table over the bytes of its file. Its index is read; its blocks are read when they are asked for.
#[derive(Drop)]
pub struct Table<'a> {
    pub(crate) alloc: Global,
    pub(crate) bytes: &'a [u8],
    /// Its index, as it was read.
    pub index: Index<'a>,
    pub(crate) entry_count: u64,
    ghost within: { index.data_len ≤ length bytes.now },
    ghost ends: { bytes.now ≡ take index.data_len bytes.now ++ end_text index.data_len (map handle_of index.handles.items) entry_count },
}

impl<'a> Table<'a> {
    /// Opens the table of a record: reads its footer and its index. A file of another length, with a wrong footer or
    /// index, or with another count of entries is `Storage(TableDamaged)`. Blocks aren't looked at.
    pub fn open(alloc: Global, bytes: &'a [u8], info: TableInfo) -> Result<Table<'a>>
        ensures bytes { IfOk result (λ table. table.bytes.now ≡ bytes.now) }
        ensures len { IfOk result (λ table. length bytes.now ≡ info.file_len) }
        ensures index { IfOk result (λ table. HasIndex bytes.now (map handle_of table.index.handles.items) info.entry_count) }
        ensures damaged { IfErr result (DamagedWhere TableDamaged (HasNoIndex bytes.now info)) }
    {
        if bytes.len() as u64 != info.file_len || bytes.len() < FOOTER_LEN {
            return Err(DAMAGED);
        }
        let (front, end) = bytes.split_at(bytes.len() - FOOTER_LEN);
        let footer = Footer::read(end)?;
        if footer.entry_count != info.entry_count {
            return Err(DAMAGED);
        }
        if footer.index_offset > front.len() as u64 {
            return Err(DAMAGED);
        }
        let (_, framed) = front.split_at(footer.index_offset as usize);
        if framed.len() as u64 != footer.index_len {
            return Err(DAMAGED);
        }
        let index = Index::read(alloc, framed, footer.index_offset)?;
        Ok(Table {
            alloc,
            bytes,
            index,
            entry_count: footer.entry_count,
        })
    }

    /// How many blocks it has.
    pub fn block_count(&self) -> usize
        ensures { result ≡ length self.now.index.handles.items }
    {
        self.index.handles.len()
    }

    /// Reads a block, counted from 0 on. One that is damaged or doesn't begin with the key that the index says is
    /// `Storage(TableDamaged)`.
    pub fn block(&self, at: usize) -> Result<Vec<TableEntry<'a>>>
        requires { at < length self.now.index.handles.items }
        ensures block { IfOk result (λ vs. IfSome (slice_get self.now.index.handles.items at) (IsBlockOf self.now.bytes.now (map seen vs.items))) }
        ensures damaged { IfErr result (DamagedWhere TableDamaged (IfSome (slice_get self.now.index.handles.items at) (IsNoBlockOf self.now.bytes.now))) }
    {
        let handle = self.index.handles[at];
        let (_, rest) = self.bytes.split_at(handle.offset as usize);
        let (framed, _) = rest.split_at(handle.len as usize);
        handle.read(self.alloc, framed)
    }

    /// All entries, in order. A file that isn't a table is `Storage(TableDamaged)`: besides damaged blocks, one with a
    /// block before the last that was closed early, with blocks out of order, or with another count of entries.
    pub fn versions(&self) -> Result<Vec<TableEntry<'a>>>
        ensures table { IfOk result (λ vs. IsTable self.now.bytes.now (map seen vs.items)) }
        ensures damaged { IfErr result (DamagedWhere TableDamaged (IsNoTable self.now.bytes.now)) }
    {
        let entry_count = self.entry_count;
        let mut versions = Vec::new(self.alloc);
        let mut full = true;
        for at in 0..self.block_count() {
            let handle = self.index.handles[at];
            let block = self.block(at)?;
            if !full {
                return Err(DAMAGED);
            }
            if !goes_on(&versions, &block) {
                return Err(DAMAGED);
            }
            put_versions(&mut versions, &block)?;
            full = handle.len >= FULL_LEN;
        }
        if versions.len() as u64 != entry_count {
            return Err(DAMAGED);
        }
        Ok(versions)
    }
}
