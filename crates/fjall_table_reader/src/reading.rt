//! Reading a block of a table's file.

ghost use Rattle.std.specs.Prelude.{◌<◌, ⊤, length, slice_get, IfOk, IfErr, IfSome, IsTrue};
ghost use Rattle.fjall_table_reader.specs.Files.{HoldsBlock, HoldsNoBlock, HoldsTable, IsRefused, file_of, handles_in};
ghost use Rattle.fjall_table_reader.specs.Readers.{LooksOn};

use crate::block::Block;
use crate::table_file::TableFile;
use fjall_base::{Disk, Result};
use std::alloc::Global;

/// Reads, checks and decodes a block, counted from 0 on. One that is damaged or doesn't begin with the key that the index
/// says is `Storage(TableDamaged)`.
pub(crate) fn read_block<D: Disk>(
    file: &TableFile,
    alloc: Global,
    disk: &mut D,
    at: usize,
) -> Result<Block>
    requires { at < length (handles_in file.now) }
    ensures block { IsTrue D.honest → IfOk result (λ vs. IfSome (slice_get (handles_in file.now) at) (HoldsBlock (file_of (D.meaning disk.old) file.now) vs)) }
    // The file is still the one that was opened.
    ensures refused { IsTrue D.honest → HoldsTable (file_of (D.meaning disk.old) file.now) file.now.info (handles_in file.now)
        → IfErr result (IsRefused (IfSome (slice_get (handles_in file.now) at) (HoldsNoBlock (file_of (D.meaning disk.old) file.now)))
        (D.meaning disk.old).faults (D.meaning disk.new).faults) }
    ensures disk { LooksOn D.honest (D.meaning disk.old) (D.meaning disk.new) }
    ensures listed { IfErr result (IsRefused ⊤ (D.meaning disk.old).faults (D.meaning disk.new).faults) }
{
    let framed = file.read_framed(alloc, disk, at)?;
    Block::read(alloc, &file.handle(at), framed)
}
