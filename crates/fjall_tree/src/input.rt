//! All blocks of tables, for a merge.

ghost use Rattle.std.specs.Prelude.{◌≡◌, ⊤, List, IfOk, IfErr, IsTrue};
ghost use Rattle.fjall_table.specs.Blocks.{Entry};
ghost use Rattle.fjall_table_reader.specs.Files.{IsRefused, entry_at};
ghost use Rattle.fjall_memtable.specs.Sorted.{flat};
ghost use Rattle.fjall_table_reader.specs.Readers.{AreRead, AreSameTables, HoldsAWrongBlock, IsSameTable, LooksOn, Reads, SomeTableIsWrong};
ghost use Rattle.fjall_jobs.specs.Blocks.{entries_in};
ghost use Rattle.fjall_jobs.specs.MergeInputs.{table_runs};

use fjall_base::{Disk, Result};
use fjall_table_reader::{Block, TableReader};
use std::alloc::Global;
use std::sync::Arc;

// All blocks of a table, in order.
fn blocks_of<D: Disk>(
    reader: &mut TableReader,
    alloc: Global,
    disk: &mut D,
) -> Result<Vec<Arc<Block, Global>>>
    ensures blocks { IsTrue D.honest → (entries : List Entry) → Reads (D.meaning disk.old) reader.old entries → IfOk result (λ blocks. flat (entries_in blocks.items) ≡ entries) }
    ensures reads { IsTrue D.honest → (entries : List Entry) → Reads (D.meaning disk.old) reader.old entries → Reads (D.meaning disk.new) reader.new entries }
    ensures refused { IsTrue D.honest → (entries : List Entry) → Reads (D.meaning disk.old) reader.old entries
        → IfErr result (IsRefused (HoldsAWrongBlock (entry_at (D.meaning disk.old) reader.old.name) reader.old.handles)
        (D.meaning disk.old).faults (D.meaning disk.new).faults) }
    ensures table { IsSameTable reader.old reader.new }
    ensures disk { LooksOn D.honest (D.meaning disk.old) (D.meaning disk.new) }
    ensures listed { IfErr result (IsRefused ⊤ (D.meaning disk.old).faults (D.meaning disk.new).faults) }
{
    let mut blocks = Vec::new(alloc);
    for at in 0..reader.block_count() {
        blocks.push(reader.block(alloc, disk, at)?)?;
    }
    Ok(blocks)
}

// All blocks of each of these tables.
pub(crate) fn all_blocks<D: Disk>(
    tables: &mut [TableReader],
    alloc: Global,
    disk: &mut D,
) -> Result<Vec<Vec<Arc<Block, Global>>>>
    ensures input { IsTrue D.honest → (entries : List (List Entry)) → AreRead (D.meaning disk.old) tables.old entries → IfOk result (λ input. table_runs input.items ≡ entries) }
    ensures reads { IsTrue D.honest → (entries : List (List Entry)) → AreRead (D.meaning disk.old) tables.old entries → AreRead (D.meaning disk.new) tables.new entries }
    ensures refused { IsTrue D.honest → (entries : List (List Entry)) → AreRead (D.meaning disk.old) tables.old entries
        → IfErr result (IsRefused (SomeTableIsWrong (D.meaning disk.old) tables.old) (D.meaning disk.old).faults (D.meaning disk.new).faults) }
    ensures tables { AreSameTables tables.old tables.new }
    ensures disk { LooksOn D.honest (D.meaning disk.old) (D.meaning disk.new) }
    ensures listed { IfErr result (IsRefused ⊤ (D.meaning disk.old).faults (D.meaning disk.new).faults) }
{
    let mut input = Vec::new(alloc);
    for at in 0..tables.len() {
        input.push(blocks_of(&mut tables[at], alloc, disk)?)?;
    }
    Ok(input)
}
