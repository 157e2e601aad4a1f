//! An opened table with the blocks of it that are kept in memory.

ghost use Rattle.std.specs.Prelude.{◌≡◌, ◌-◌, ◌<◌, ◌≤◌, ◌^◌, ⊤, List, min, length, slice_get, take, drop, replicate, Some, None, IfOk, IfErr, IfSome, IsFalse, IsOkUnless, IsTrue, OnOk};
ghost use Rattle.std.specs.Option.{option_map};
ghost use Rattle.std.specs.Range.Bound.{bound_map};
ghost use Rattle.fjall_base.specs.Disk.{Meaning};
ghost use Rattle.fjall_base.specs.Pairs.{key_range};
ghost use Rattle.fjall_table.specs.Blocks.{Entry};
ghost use Rattle.fjall_table.specs.Tables.{AreBlocks, Ascend, entries_of, entries_within, handles_of, versions_at};
ghost use Rattle.fjall_table_reader.specs.Files.{HoldsNoBlock, HoldsTable, IsRefused, IsTableOf, bytes_in, entry_at, file_of, handles_in, name_of};
ghost use Rattle.fjall_table_reader.specs.Finds.{IsFound};
ghost use Rattle.fjall_table_reader.specs.Readers.{HoldsAWrongBlockFor, IsRecent, IsSameTable, LooksOn, Reads, ReadsBlocks, aged, keeping, kept_size, recent_size, renewing, size_at, unread};
ghost use Rattle.fjall_table_reader.specs.Spans.{first_block, last_block};

use crate::block::Block;
use crate::found::Found;
use crate::reading::read_block;
use crate::table_file::TableFile;
use fjall_base::{Disk, Error, KeyBounds, Result};
use fjall_table::TableInfo;
use std::alloc::Global;
use std::marker::Model;
use std::mem;
use std::ops::{Bound, Range};
use std::sync::Arc;

/// A place for each block of a table, where it may be kept.
type Blocks = Vec<Option<Arc<Block, Global>>>;

/// An opened table. A block that was read is kept, and isn't read again: among the recent ones until `let_older_go`, then
/// among the older ones until the next. One that is used again meanwhile is recent again.
#[derive(Drop)]
pub struct TableReader {
    file: TableFile,
    recent: Blocks,
    older: Blocks,
    recent_bytes: u64,
    kept_bytes: u64,
}

impl Model for TableReader {
    ghost use Rattle.std.specs.Prelude.{map};
    ghost use Rattle.std.specs.Option.{option_map};
    ghost use Rattle.fjall_table_reader.specs.Files.{handles_in, name_of};
    ghost use Rattle.fjall_table_reader.specs.Readers.{Reader, IsCountedReader};

    ghost Value = { Reader };

    ghost view = { λ t. record { name = name_of t.file; info = t.file.info; handles = handles_in t.file; recent = map (option_map (λ b. b.value)) t.recent.items; older = map (option_map (λ b. b.value)) t.older.items } };

    ghost invariant = { λ t. IsCountedReader t.recent_bytes t.kept_bytes
        (record { name = name_of t.file; info = t.file.info; handles = handles_in t.file; recent = map (option_map (λ b. b.value)) t.recent.items; older = map (option_map (λ b. b.value)) t.older.items }) };
}

/// A place for each block, none of which is kept.
fn no_blocks(alloc: Global, count: usize) -> Result<Blocks>
    ensures none { IfOk result (λ blocks. blocks.items ≡ replicate count None) }
    ensures only { IsOkUnless result Error.OutOfMemory }
{
    let mut blocks = Vec::new(alloc);
    for _ in 0..count {
        blocks.push(None)?;
    }
    Ok(blocks)
}

/// Keeps none of these.
fn clear(blocks: &mut Blocks)
    ensures { blocks.new.items ≡ replicate (length blocks.old.items) None }
{
    for at in 0..blocks.len() {
        blocks[at] = None;
    }
}

/// For how many bytes of memory a place counts, which may keep no block.
fn size_at(place: &Option<Arc<Block, Global>>) -> u64
    ensures { result ≡ min (size_at (option_map (λ b. b.value) place.now)) (2 ^ 64 - 1) }
{
    match place {
        Some(block) => block.size(),
        None => 0,
    }
}

impl TableReader {
    /// The reader of a table that was opened. No block is read yet.
    pub fn new(alloc: Global, file: TableFile) -> Result<TableReader>
        ensures ok { IfOk result (λ t. t ≡ unread (name_of file) file.info (handles_in file)) }
        ensures only { IsOkUnless result Error.OutOfMemory }
        ensures reads { (disk : Meaning) (entries : List Entry) → HoldsTable (file_of disk file) file.info (handles_in file) → IsTableOf file.info (bytes_in (file_of disk file)) entries
            → IfOk result (λ t. Reads disk t entries) }
    {
        let recent = no_blocks(alloc, file.block_count())?;
        let older = no_blocks(alloc, file.block_count())?;
        Ok(TableReader {
            file,
            recent,
            older,
            recent_bytes: 0,
            kept_bytes: 0,
        })
    }

    /// What the record says of the table.
    pub fn info(&self) -> TableInfo
        ensures { result ≡ self.now.info }
    {
        self.file.info()
    }

    /// How many blocks the table has.
    pub fn block_count(&self) -> usize
        ensures { result ≡ length self.now.handles }
    {
        self.recent.len()
    }

    /// For how many bytes of memory the kept blocks count, each as `Block::size`; the greatest u64 where that is too small.
    pub fn kept_bytes(&self) -> u64
        ensures { result ≡ min (kept_size self.now) (2 ^ 64 - 1) }
    {
        self.kept_bytes
    }

    /// The same of those that were used since `let_older_go`.
    pub fn recent_bytes(&self) -> u64
        ensures { result ≡ min (recent_size self.now) (2 ^ 64 - 1) }
    {
        self.recent_bytes
    }

    /// Keeps no block any longer.
    pub fn drop_blocks(&mut self)
        ensures { self.new ≡ unread self.old.name self.old.info self.old.handles }
    {
        clear(&mut self.recent);
        clear(&mut self.older);
        self.recent_bytes = 0;
        self.kept_bytes = 0;
    }

    /// Keeps no older block any longer; the recent ones are the older ones from now on.
    pub fn let_older_go(&mut self)
        ensures { self.new ≡ aged self.old }
    {
        mem::swap(&mut self.recent, &mut self.older);
        clear(&mut self.recent);
        self.kept_bytes = self.recent_bytes;
        self.recent_bytes = 0;
    }

    /// A block, counted from 0 on. One that is kept is answered without a call of the disk; another is read, checked,
    /// decoded and kept. One that is damaged or doesn't begin with the key that the index says is `Storage(TableDamaged)`.
    pub fn block<D: Disk>(
        &mut self,
        alloc: Global,
        disk: &mut D,
        at: usize,
    ) -> Result<Arc<Block, Global>>
        requires { at < length self.old.handles }
        ensures block { IsTrue D.honest → (blocks : List (List Entry)) → ReadsBlocks (D.meaning disk.old) self.old blocks → IfOk result (λ b. slice_get blocks at ≡ Some b.value) }
        ensures reads { IsTrue D.honest → (blocks : List (List Entry)) → ReadsBlocks (D.meaning disk.old) self.old blocks → ReadsBlocks (D.meaning disk.new) self.new blocks }
        ensures refused { IsTrue D.honest → (blocks : List (List Entry)) → ReadsBlocks (D.meaning disk.old) self.old blocks
            → IfErr result (IsRefused (IfSome (slice_get self.old.handles at) (HoldsNoBlock (entry_at (D.meaning disk.old) self.old.name)))
            (D.meaning disk.old).faults (D.meaning disk.new).faults) }
        ensures table { IsSameTable self.old self.new }
        ensures disk { LooksOn D.honest (D.meaning disk.old) (D.meaning disk.new) }
        ensures listed { IfErr result (IsRefused ⊤ (D.meaning disk.old).faults (D.meaning disk.new).faults) }
    {
        self.load(alloc, disk, at)?;
        Ok(Arc::try_clone(self.recent_block(at))?)
    }

    /// Puts a block among the recent ones: an older one, or one that it reads where none is kept.
    fn load<D: Disk>(&mut self, alloc: Global, disk: &mut D, at: usize) -> Result<()>
        requires { at < length self.old.handles }
        ensures recent { OnOk result (IsRecent at self.new) }
        ensures reads { IsTrue D.honest → (blocks : List (List Entry)) → ReadsBlocks (D.meaning disk.old) self.old blocks → ReadsBlocks (D.meaning disk.new) self.new blocks }
        ensures refused { IsTrue D.honest → (blocks : List (List Entry)) → ReadsBlocks (D.meaning disk.old) self.old blocks
            → IfErr result (IsRefused (IfSome (slice_get self.old.handles at) (HoldsNoBlock (entry_at (D.meaning disk.old) self.old.name)))
            (D.meaning disk.old).faults (D.meaning disk.new).faults) }
        ensures table { IsSameTable self.old self.new }
        ensures disk { LooksOn D.honest (D.meaning disk.old) (D.meaning disk.new) }
        ensures listed { IfErr result (IsRefused ⊤ (D.meaning disk.old).faults (D.meaning disk.new).faults) }
    {
        if self.is_recent(at) {
            return Ok(());
        }
        self.renew(at);
        if self.is_recent(at) {
            return Ok(());
        }
        self.read(alloc, disk, at)
    }

    /// Reads a block of which none is recent, and keeps it.
    fn read<D: Disk>(&mut self, alloc: Global, disk: &mut D, at: usize) -> Result<()>
        requires { slice_get self.old.recent at ≡ Some None }
        ensures recent { OnOk result (IsRecent at self.new) }
        ensures reads { IsTrue D.honest → (blocks : List (List Entry)) → ReadsBlocks (D.meaning disk.old) self.old blocks → ReadsBlocks (D.meaning disk.new) self.new blocks }
        ensures refused { IsTrue D.honest → (blocks : List (List Entry)) → ReadsBlocks (D.meaning disk.old) self.old blocks
            → IfErr result (IsRefused (IfSome (slice_get self.old.handles at) (HoldsNoBlock (entry_at (D.meaning disk.old) self.old.name)))
            (D.meaning disk.old).faults (D.meaning disk.new).faults) }
        ensures table { IsSameTable self.old self.new }
        ensures disk { LooksOn D.honest (D.meaning disk.old) (D.meaning disk.new) }
        ensures listed { IfErr result (IsRefused ⊤ (D.meaning disk.old).faults (D.meaning disk.new).faults) }
    {
        let block = Arc::new(alloc, read_block(&self.file, alloc, disk, at)?)?;
        self.keep(at, block);
        Ok(())
    }

    /// Whether a block is among the recent ones.
    #[inline(always)]
    fn is_recent(&self, at: usize) -> bool
        requires { at < length self.now.handles }
        ensures recent { IsTrue result → IsRecent at self.now }
        ensures none { IsFalse result → slice_get self.now.recent at ≡ Some None }
    {
        self.recent[at].is_some()
    }

    /// A recent block.
    #[inline(always)]
    fn recent_block(&self, at: usize) -> &Arc<Block, Global>
        requires { IsRecent at self.now }
        ensures { slice_get self.now.recent at ≡ Some (Some result.now.value) }
    {
        let Some(block) = &self.recent[at] else {
            unreachable!()
        };
        block
    }

    /// Puts an older block among the recent ones, where it isn't yet; without an older one it changes nothing.
    fn renew(&mut self, at: usize)
        requires { slice_get self.old.recent at ≡ Some None }
        ensures { self.new ≡ renewing at self.old }
    {
        let block = self.older[at].take();
        self.recent_bytes = self.recent_bytes.saturating_add(size_at(&block));
        self.recent[at] = block;
    }

    /// Keeps a block among the recent ones, where none is yet.
    fn keep(&mut self, at: usize, block: Arc<Block, Global>)
        requires { slice_get self.old.recent at ≡ Some None }
        ensures { self.new ≡ keeping at block.value self.old }
    {
        let size = block.size();
        self.recent_bytes = self.recent_bytes.saturating_add(size);
        self.kept_bytes = self.kept_bytes.saturating_add(size);
        self.recent[at] = Some(block);
    }

    /// The numbers of the blocks that may hold keys between the bounds.
    pub fn span(&self, range: KeyBounds<'_>) -> Range<usize>
        ensures start { result.start ≤ result.end }
        ensures end { result.end ≤ length self.now.handles }
        ensures holds { (blocks : List (List Entry)) → AreBlocks blocks → self.now.handles ≡ handles_of 0 blocks
            → entries_within (key_range range.entry) (entries_of blocks) ≡ entries_within (key_range range.entry) (entries_of (take (result.end - result.start) (drop result.start blocks))) }
    {
        let end = self.last_block(range.1);
        self.first_block(range.0).min(end)..end
    }

    /// The first block that may hold a key from a start on.
    fn first_block(&self, start: Bound<&[u8]>) -> usize
        ensures { result ≡ first_block (bound_map (λ key. key.now) start.entry) self.now.handles }
    {
        match start {
            Bound::Included(key) | Bound::Excluded(key) => self.file.span(key).start,
            Bound::Unbounded => 0,
        }
    }

    /// The block behind the last one that may hold a key up to an end.
    fn last_block(&self, end: Bound<&[u8]>) -> usize
        ensures block { result ≡ last_block (bound_map (λ key. key.now) end.entry) self.now.handles }
        ensures ascend { Ascend self.now.handles }
    {
        match end {
            Bound::Included(key) | Bound::Excluded(key) => self.file.span(key).end,
            Bound::Unbounded => self.file.block_count(),
        }
    }

    /// The newest version of a key that is numbered below an instant; None where no version is. Its value is a part of its
    /// block's text. Of the blocks that may hold the key, it looks at the first, and at the next ones until it is found. One of these
    /// that is damaged is `Storage(TableDamaged)`.
    pub fn find<D: Disk>(
        &mut self,
        alloc: Global,
        disk: &mut D,
        key: &[u8],
        instant: u64,
    ) -> Result<Option<Found>>
        ensures found { IsTrue D.honest → (entries : List Entry) → Reads (D.meaning disk.old) self.old entries → IfOk result (λ f. IsFound key.now f (slice_get (versions_at key.now instant entries) 0)) }
        ensures reads { IsTrue D.honest → (entries : List Entry) → Reads (D.meaning disk.old) self.old entries → Reads (D.meaning disk.new) self.new entries }
        ensures refused { IsTrue D.honest → (entries : List Entry) → Reads (D.meaning disk.old) self.old entries
            → IfErr result (IsRefused (HoldsAWrongBlockFor key.now (entry_at (D.meaning disk.old) self.old.name) self.old.handles)
            (D.meaning disk.old).faults (D.meaning disk.new).faults) }
        ensures table { IsSameTable self.old self.new }
        ensures disk { LooksOn D.honest (D.meaning disk.old) (D.meaning disk.new) }
        ensures listed { IfErr result (IsRefused ⊤ (D.meaning disk.old).faults (D.meaning disk.new).faults) }
    {
        let span = self.file.span(key);
        for at in span.start..span.end {
            self.load(alloc, disk, at)?;
            if let Some(found) = self.recent_block(at).find(key, instant)? {
                return Ok(Some(found));
            }
        }
        Ok(None)
    }
}
