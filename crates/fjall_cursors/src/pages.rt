//! Pages over tables on a disk and what stands in memory.

ghost use Rattle.std.specs.Prelude.{◌≡◌, ◌++◌, ⊤, List, map, take, IfOk, IfErr, IsTrue};
ghost use Rattle.std.specs.List.{All};
ghost use Rattle.fjall_base.specs.Pairs.{key_range};
ghost use Rattle.fjall_table.specs.Blocks.{Entry};
ghost use Rattle.fjall_table_reader.specs.Files.{IsRefused};
ghost use Rattle.fjall_table.specs.Tables.{entries_within};
ghost use Rattle.fjall_memtable.specs.Jobs.{OnceEach};
ghost use Rattle.fjall_memtable.specs.Sorted.{IsInTurn, flat, in_turn, sorted};
ghost use Rattle.fjall_table_reader.specs.Readers.{AreRead, AreSameTables, LooksOn, SomeTableIsWrong};
ghost use Rattle.fjall_cursors.specs.Pages.{page_of};

use crate::memtable_run::MemtableRun;
use crate::page_maker::PageMaker;
use crate::starts::page_runs;
use fjall_base::{Disk, KeyBounds, KvPair, Result};
use fjall_table_reader::TableReader;
use std::alloc::Global;

/// What is asked of a page.
#[derive(Clone, Copy, Debug)]
pub struct PageQuery {
    /// Only what is numbered below it is seen.
    pub instant: u64,
    /// All that is numbered below it is cleared.
    pub bound: u64,
    /// Whether the last pairs are asked for, and not the first.
    pub back: bool,
    /// How many pairs at most.
    pub max: usize,
}

/// The first pairs between the bounds that the tables and the runs in memory make at an instant, or the last ones where
/// `back` holds, in the order of their keys in both cases; the runs in memory lie between the bounds and are gone through
/// from the start or from behind alike. A block is read when it is wanted; one that is damaged is `Storage(TableDamaged)`.
/// Blocks that were read are kept, also after an `Err`.
pub fn page<D: Disk>(
    alloc: Global,
    disk: &mut D,
    tables: &mut [TableReader],
    memory: Vec<MemtableRun<'_>>,
    range: KeyBounds<'_>,
    query: PageQuery,
) -> Result<Vec<KvPair>>
    ensures pairs { IsTrue D.honest → (entries : List (List Entry)) → AreRead (D.meaning disk.old) tables.old entries → All (IsInTurn query.back) memory.entry.items
        → OnceEach (flat entries ++ flat (map (in_turn query.back) memory.entry.items))
        → IfOk result (λ pairs. pairs.items ≡ in_turn query.back (take query.max (page_of query.back query.instant query.bound
        (in_turn query.back (sorted (entries_within (key_range range.entry) (flat entries) ++ flat (map (in_turn query.back) memory.entry.items))))))) }
    ensures reads { IsTrue D.honest → (entries : List (List Entry)) → AreRead (D.meaning disk.old) tables.old entries → AreRead (D.meaning disk.new) tables.new entries }
    ensures refused { IsTrue D.honest → (entries : List (List Entry)) → AreRead (D.meaning disk.old) tables.old entries
        → IfErr result (IsRefused (SomeTableIsWrong (D.meaning disk.old) tables.old) (D.meaning disk.old).faults (D.meaning disk.new).faults) }
    ensures tables { AreSameTables tables.old tables.new }
    ensures disk { LooksOn D.honest (D.meaning disk.old) (D.meaning disk.new) }
    ensures listed { IfErr result (IsRefused ⊤ (D.meaning disk.old).faults (D.meaning disk.new).faults) }
{
    let PageQuery {
        instant,
        bound,
        back,
        max,
    } = query;
    let mut all = page_runs(alloc, tables, memory, range, back)?;
    let mut maker = PageMaker::new(alloc, instant, bound, back);
    let runs = all.as_mut_slice();
    'filling: while let Some(at) = maker.go_on(runs, back, max)? {
        runs[at].fill(alloc, disk, &mut tables[at], range)?;
    }
    Ok(maker.finish(max)?)
}
