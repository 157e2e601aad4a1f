//! A table in a file of a disk, opened from the file's end.

ghost use Rattle.std.specs.Prelude.{◌≡◌, ⊤, ◌+◌, ◌-◌, ◌<◌, ◌≤◌, [], length, map, slice_get, IfOk, IfErr, IfSome, IsTrue, Some};
ghost use Rattle.fjall_base.specs.declared.error.StorageError.TheVariants.{TableDamaged};
ghost use Rattle.fjall_base.specs.Disk.{Took};
ghost use Rattle.fjall_table.specs.Reading.{DamagedWhere};
ghost use Rattle.fjall_table.specs.Tables.{footer_text};
ghost use Rattle.fjall_table.specs.TableReading.{HasNoIndex, blocks_below, blocks_up_to, handle_of};
ghost use Rattle.fjall_table_reader.specs.Files.{AllServed, EndsNoTable, HasFooter, HasNoPart, HasPart, HoldsNoTable, HoldsTable, IsIndexed, IsRefused, bytes_in, entry_at, file_of, handles_in, name_of};
ghost use Rattle.fjall_table.specs.Owned.{owned_handle};

use fjall_base::{Disk, Error, Result, StorageError};
use fjall_table::{BlockHandle, FOOTER_LEN, Footer, OwnedIndex, Table, TableInfo, span_of};
use std::alloc::Global;
use std::ops::Range;

const DAMAGED: Error = Error::Storage(StorageError::TableDamaged);

/// `len` bytes of a file, from the byte `at` on. Where no file has that name, or it ends before, it is
/// `Storage(TableDamaged)`.
fn read_part<D: Disk>(alloc: Global, disk: &mut D, name: &str, at: u64, len: u64) -> Result<Vec<u8>>
    ensures part { IsTrue D.honest → IfOk result (λ part. HasPart (entry_at (D.meaning disk.old) name.now) at len part.items) }
    ensures refused { IsTrue D.honest
        → IfErr result (IsRefused (HasNoPart (entry_at (D.meaning disk.old) name.now) at len) (D.meaning disk.old).faults (D.meaning disk.new).faults) }
    ensures same { IsTrue D.honest → Took (D.meaning disk.old) (D.meaning disk.new) [] }
    ensures served { IsTrue D.honest → AllServed (D.meaning disk.old) (D.meaning disk.new) }
    ensures later { (D.meaning disk.old).faults ≤ (D.meaning disk.new).faults }
    ensures listed { IfErr result (IsRefused ⊤ (D.meaning disk.old).faults (D.meaning disk.new).faults) }
{
    let Some(part) = disk.read_at(alloc, name, at as usize, len as usize)? else {
        return Err(DAMAGED);
    };
    Ok(part)
}

/// Looks that a file has no more than `len` bytes; one that has more is `Storage(TableDamaged)`.
fn check_end<D: Disk>(alloc: Global, disk: &mut D, name: &str, len: u64) -> Result<()>
    ensures end { IsTrue D.honest → IfOk result (λ _. length (bytes_in (entry_at (D.meaning disk.old) name.now)) ≤ len) }
    ensures refused { IsTrue D.honest
        → IfErr result (IsRefused (len < length (bytes_in (entry_at (D.meaning disk.old) name.now))) (D.meaning disk.old).faults (D.meaning disk.new).faults) }
    ensures same { IsTrue D.honest → Took (D.meaning disk.old) (D.meaning disk.new) [] }
    ensures served { IsTrue D.honest → AllServed (D.meaning disk.old) (D.meaning disk.new) }
    ensures later { (D.meaning disk.old).faults ≤ (D.meaning disk.new).faults }
    ensures listed { IfErr result (IsRefused ⊤ (D.meaning disk.old).faults (D.meaning disk.new).faults) }
{
    if disk.read_at(alloc, name, len as usize, 1)?.is_some() {
        return Err(DAMAGED);
    }
    Ok(())
}

/// The footer that these bytes are, where it tells this count of entries, and of an index that ends at an offset, where
/// the bytes stand. Else it is `Storage(TableDamaged)`.
fn footer_told(end: &[u8], index_end: u64, entry_count: u64) -> Result<Footer>
    ensures footer { IfOk result (λ f. end.now ≡ footer_text f.index_offset f.index_len f.entry_count) }
    ensures whole { IfOk result (λ f. f.index_offset + f.index_len ≡ index_end) }
    ensures count { IfOk result (λ f. f.entry_count ≡ entry_count) }
    ensures damaged { IfErr result (DamagedWhere TableDamaged (EndsNoTable end.now index_end entry_count)) }
{
    let footer = Footer::read(end)?;
    if footer.entry_count != entry_count {
        return Err(DAMAGED);
    }
    if footer.index_offset > index_end {
        return Err(DAMAGED);
    }
    if footer.index_len != index_end - footer.index_offset {
        return Err(DAMAGED);
    }
    Ok(footer)
}

/// The footer of a file of the length that the record says.
fn read_footer<D: Disk>(alloc: Global, disk: &mut D, name: &str, info: TableInfo) -> Result<Footer>
    ensures footer { IsTrue D.honest → IfOk result (HasFooter (entry_at (D.meaning disk.old) name.now) info) }
    ensures refused { IsTrue D.honest
        → IfErr result (IsRefused (HoldsNoTable (entry_at (D.meaning disk.old) name.now) info) (D.meaning disk.old).faults (D.meaning disk.new).faults) }
    ensures same { IsTrue D.honest → Took (D.meaning disk.old) (D.meaning disk.new) [] }
    ensures served { IsTrue D.honest → AllServed (D.meaning disk.old) (D.meaning disk.new) }
    ensures later { (D.meaning disk.old).faults ≤ (D.meaning disk.new).faults }
    ensures listed { IfErr result (IsRefused ⊤ (D.meaning disk.old).faults (D.meaning disk.new).faults) }
{
    if info.file_len < FOOTER_LEN as u64 {
        return Err(DAMAGED);
    }
    let index_end = info.file_len - FOOTER_LEN as u64;
    check_end(alloc, disk, name, info.file_len)?;
    let end = read_part(alloc, disk, name, index_end, FOOTER_LEN as u64)?;
    footer_told(&end, index_end, info.entry_count)
}

/// The index of which the footer tells.
fn read_index<D: Disk>(
    alloc: Global,
    disk: &mut D,
    name: &str,
    footer: Footer,
) -> Result<OwnedIndex>
    ensures index { IsTrue D.honest → (info : TableInfo) → HasFooter (entry_at (D.meaning disk.old) name.now) info footer
        → IfOk result (λ i. HoldsTable (entry_at (D.meaning disk.old) name.now) info (map owned_handle i.handles.items)) }
    ensures refused { IsTrue D.honest → (info : TableInfo) → HasFooter (entry_at (D.meaning disk.old) name.now) info footer
        → IfErr result (IsRefused (HoldsNoTable (entry_at (D.meaning disk.old) name.now) info) (D.meaning disk.old).faults (D.meaning disk.new).faults) }
    ensures same { IsTrue D.honest → Took (D.meaning disk.old) (D.meaning disk.new) [] }
    ensures served { IsTrue D.honest → AllServed (D.meaning disk.old) (D.meaning disk.new) }
    ensures later { (D.meaning disk.old).faults ≤ (D.meaning disk.new).faults }
    ensures listed { IfErr result (IsRefused ⊤ (D.meaning disk.old).faults (D.meaning disk.new).faults) }
{
    let framed = read_part(alloc, disk, name, footer.index_offset, footer.index_len)?;
    OwnedIndex::read(alloc, &framed, footer.index_offset)
}

/// A table's file as it was opened: its index, in memory.
#[derive(Drop)]
pub struct TableFile {
    pub(crate) name: String,
    pub(crate) info: TableInfo,
    pub(crate) index: OwnedIndex,
}

impl TableFile {
    /// Opens the table of this name from its file's end: its length, its footer and its index. No block is read. A file
    /// that is missing, or of another length, or with a wrong footer or index, is `Storage(TableDamaged)`.
    pub fn open<D: Disk>(
        alloc: Global,
        disk: &mut D,
        name: &str,
        info: TableInfo,
    ) -> Result<TableFile>
        ensures table { IsTrue D.honest → IfOk result (λ t. HoldsTable (entry_at (D.meaning disk.old) name.now) info (handles_in t)) }
        ensures name { IfOk result (λ t. name_of t ≡ name.now) }
        ensures info { IfOk result (λ t. t.info ≡ info) }
        ensures refused { IsTrue D.honest
            → IfErr result (IsRefused (HoldsNoTable (entry_at (D.meaning disk.old) name.now) info) (D.meaning disk.old).faults (D.meaning disk.new).faults) }
        ensures same { IsTrue D.honest → Took (D.meaning disk.old) (D.meaning disk.new) [] }
        ensures served { IsTrue D.honest → AllServed (D.meaning disk.old) (D.meaning disk.new) }
        ensures later { (D.meaning disk.old).faults ≤ (D.meaning disk.new).faults }
        ensures listed { IfErr result (IsRefused ⊤ (D.meaning disk.old).faults (D.meaning disk.new).faults) }
    {
        let footer = read_footer(alloc, disk, name, info)?;
        let index = read_index(alloc, disk, name, footer)?;
        Ok(TableFile {
            name: name.to_owned(alloc)?,
            info,
            index,
        })
    }

    /// The table of this name whose file has these bytes, or is to have them. It takes no disk, and no block is looked at.
    /// Bytes of another length, or with a wrong footer or index, are `Storage(TableDamaged)`.
    pub fn from_bytes(alloc: Global, name: &str, info: TableInfo, bytes: &[u8]) -> Result<TableFile>
        ensures table { IfOk result (λ t. IsIndexed info bytes.now (handles_in t)) }
        ensures name { IfOk result (λ t. name_of t ≡ name.now) }
        ensures info { IfOk result (λ t. t.info ≡ info) }
        ensures damaged { IfErr result (DamagedWhere TableDamaged (HasNoIndex bytes.now info)) }
    {
        let table = Table::open(alloc, bytes, info)?;
        Ok(TableFile {
            name: name.to_owned(alloc)?,
            info,
            index: OwnedIndex::copy(alloc, &table.index)?,
        })
    }

    /// What the record says of it.
    pub fn info(&self) -> TableInfo
        ensures { result ≡ self.now.info }
    {
        self.info
    }

    /// How many blocks it has.
    pub fn block_count(&self) -> usize
        ensures { result ≡ length (handles_in self.now) }
    {
        self.index.handles.len()
    }

    /// The numbers of the blocks that may hold a key: from the last one that begins with a key below it, if there is
    /// one, to the last one that begins with a key at most it.
    pub fn span(&self, key: &[u8]) -> Range<usize>
        ensures start { result.start ≡ blocks_below key.now (handles_in self.now) - 1 }
        ensures end { result.end ≡ blocks_up_to key.now (handles_in self.now) }
    {
        span_of(&self.index.handles, key)
    }

    /// Where a block stands, counted from 0 on.
    pub fn handle(&self, at: usize) -> BlockHandle<'_>
        requires { at < length (handles_in self.now) }
        ensures { slice_get (handles_in self.now) at ≡ Some (handle_of result) }
    {
        self.index.handles[at].borrowed()
    }

    /// The bytes of a block, counted from 0 on, as they stand in the file; they aren't checked. Where the file ends before
    /// them, it is `Storage(TableDamaged)`.
    pub fn read_framed<D: Disk>(&self, alloc: Global, disk: &mut D, at: usize) -> Result<Vec<u8>>
        requires { at < length (handles_in self.now) }
        ensures part { IsTrue D.honest → IfOk result (λ part. IfSome (slice_get (handles_in self.now) at) (λ h. HasPart (file_of (D.meaning disk.old) self.now) h.offset h.len part.items)) }
        ensures refused { IsTrue D.honest
            → IfErr result (IsRefused (IfSome (slice_get (handles_in self.now) at) (λ h. HasNoPart (file_of (D.meaning disk.old) self.now) h.offset h.len))
            (D.meaning disk.old).faults (D.meaning disk.new).faults) }
        ensures same { IsTrue D.honest → Took (D.meaning disk.old) (D.meaning disk.new) [] }
        ensures served { IsTrue D.honest → AllServed (D.meaning disk.old) (D.meaning disk.new) }
        ensures later { (D.meaning disk.old).faults ≤ (D.meaning disk.new).faults }
        ensures listed { IfErr result (IsRefused ⊤ (D.meaning disk.old).faults (D.meaning disk.new).faults) }
    {
        let handle = &self.index.handles[at];
        read_part(alloc, disk, self.name.as_str(), handle.offset, handle.len)
    }
}
