//! The blocks of a table in memory, as a run.

ghost use Rattle.std.specs.Prelude.{◌≡◌, ◌↔◌, [], drop, slice_get, IsTrue};
ghost use Rattle.std.specs.Option.{option_map};
ghost use Rattle.fjall_table.specs.Blocks.{seen};
ghost use Rattle.fjall_memtable.specs.Sorted.{flat};
ghost use Rattle.fjall_jobs.specs.Blocks.{IsLeft, entries_in, still_left};

use fjall_cursors::Run;
use fjall_table::TableEntry;
use fjall_table_reader::Block;
use std::alloc::Global;
use std::marker::Model;
use std::sync::Arc;

/// The entries of blocks, one block after another, from the start on. Contracts see what is left.
#[derive(Drop)]
pub(crate) struct BlocksRun<'a> {
    blocks: &'a [Arc<Block, Global>],
    /// How many entries of the first block are still to come.
    left: usize,
}

impl<'a> Model for BlocksRun<'a> {
    ghost use Rattle.std.specs.Prelude.{List};
    ghost use Rattle.fjall_table.specs.Blocks.{Entry};
    ghost use Rattle.fjall_jobs.specs.Blocks.{IsLeft, entries_in, still_left};

    ghost Value = { List Entry };

    ghost view = { λ run. still_left run.left (entries_in run.blocks.now) };

    ghost invariant = { λ run. IsLeft run.left (entries_in run.blocks.now) };
}

// How many entries the first block has, or 0 where there is none.
fn first_len(blocks: &[Arc<Block, Global>]) -> usize
    ensures left { IsLeft result (entries_in blocks.now) }
    ensures all { still_left result (entries_in blocks.now) ≡ flat (entries_in blocks.now) }
{
    match blocks.first() {
        Some(block) => block.len(),
        None => 0,
    }
}

impl<'a> BlocksRun<'a> {
    pub(crate) fn new(blocks: &'a [Arc<Block, Global>]) -> BlocksRun<'a>
        ensures { result ≡ flat (entries_in blocks.now) }
    {
        let left = first_len(blocks);
        BlocksRun { blocks, left }
    }
}

impl<'a> Run for BlocksRun<'a> {
    ghost left = { λ run. run };

    fn first(&self) -> Option<TableEntry<'_>>
        ensures { option_map seen result ≡ slice_get self.now 0 }
    {
        let block = self.blocks.first()?;
        Some(block.entry(block.len() - self.left))
    }

    fn is_empty(&self) -> bool
        ensures { IsTrue result ↔ (self.now ≡ []) }
    {
        self.blocks.is_empty()
    }

    fn pass(&mut self)
        ensures { self.new ≡ drop 1 self.old }
    {
        if self.left > 1 {
            self.left -= 1;
            return;
        }
        let Some((_, rest)) = self.blocks.split_first() else {
            return;
        };
        self.left = first_len(rest);
        self.blocks = rest;
    }
}
