//! Pages of a tree.

ghost use Rattle.std.specs.Prelude.{◌≡◌, ⊤, List, map, IfOk, IfErr, IsTrue};
ghost use Rattle.fjall_base.specs.Pairs.{Pairs, key_range, page, pairs_between};
ghost use Rattle.fjall_table.specs.Blocks.{Entry};
ghost use Rattle.fjall_table_reader.specs.Files.{IsRefused};
ghost use Rattle.fjall_memtable.specs.Views.{IsView};
ghost use Rattle.fjall_table_reader.specs.Readers.{LooksOn, SomeTableIsWrong};
ghost use Rattle.fjall_memtable.specs.Held.{held_of};
ghost use Rattle.fjall_memtable.specs.Parts.{parts_of};
ghost use Rattle.fjall_memtable.specs.Memories.{memory_of};
ghost use Rattle.fjall_tree.specs.Pages.{run_of};
ghost use Rattle.fjall_tree.specs.Trees.{IsSameShape, ReadsAll, clears_of, versions_of};

use crate::tree::Tree;
use fjall_base::{Disk, KeyBounds, KvPair, Result};
use fjall_cursors::{MemtableRun, PageQuery, page};
use fjall_memtable::{Part, Parts};
use std::alloc::{AllocError, Global};
use std::result;

// The versions of a part between the bounds, as a run.
fn part_run<'a>(
    part: &'a Part,
    range: KeyBounds<'_>,
    back: bool,
) -> result::Result<MemtableRun<'a>, AllocError>
    ensures { IfOk result (λ run. run ≡ run_of (key_range range.entry) back (held_of part.now)) }
{
    Ok(MemtableRun::new(part.versions().range(range)?, back))
}

// Those of all parts, the oldest first.
pub(crate) fn memory_runs<'a>(
    alloc: Global,
    parts: &'a Parts,
    range: KeyBounds<'_>,
    back: bool,
) -> result::Result<Vec<MemtableRun<'a>>, AllocError>
    ensures { IfOk result (λ runs. runs.items ≡ map (run_of (key_range range.entry) back) (parts_of (memory_of parts.now))) }
{
    let mut runs = Vec::new(alloc);
    let sealed = parts.sealed();
    for part in sealed {
        runs.push(part_run(part, range, back)?)?;
    }
    runs.push(part_run(parts.active(), range, back)?)?;
    Ok(runs)
}

impl Tree {
    ghost use Rattle.fjall_tree.specs.Shapes.{shape_of};

    /// A page of the view at an instant: of the pairs between the bounds the first ones, or the last ones where `back`
    /// holds, and at most `max` of them; in the order of their keys in both cases. A block is read when it is wanted; one
    /// that is damaged is `Storage(TableDamaged)`. Blocks that were read are kept, also after an `Err`.
    pub fn page<D: Disk>(
        &mut self,
        disk: &mut D,
        range: KeyBounds<'_>,
        instant: u64,
        back: bool,
        max: usize,
    ) -> Result<Vec<KvPair>>
        ensures found { IsTrue D.honest → (entries : List (List Entry)) → ReadsAll (D.meaning disk.old) (shape_of self.old) entries
            → (pairs : Pairs) → IsView instant (clears_of (shape_of self.old)) (versions_of (shape_of self.old) entries) pairs
            → IfOk result (λ found. found.items ≡ page back max (pairs_between (key_range range.entry) pairs)) }
        ensures reads { IsTrue D.honest → (entries : List (List Entry)) → ReadsAll (D.meaning disk.old) (shape_of self.old) entries → ReadsAll (D.meaning disk.new) (shape_of self.new) entries }
        ensures shape { IsSameShape (shape_of self.old) (shape_of self.new) }
        ensures refused { IsTrue D.honest → (entries : List (List Entry)) → ReadsAll (D.meaning disk.old) (shape_of self.old) entries
            → IfErr result (IsRefused (SomeTableIsWrong (D.meaning disk.old) (shape_of self.old).tables) (D.meaning disk.old).faults (D.meaning disk.new).faults) }
        ensures disk { LooksOn D.honest (D.meaning disk.old) (D.meaning disk.new) }
        ensures listed { IfErr result (IsRefused ⊤ (D.meaning disk.old).faults (D.meaning disk.new).faults) }
    {
        let query = PageQuery {
            instant,
            bound: self.barrier(instant),
            back,
            max,
        };
        let memory = memory_runs(self.alloc, &self.parts, range, back)?;
        let tables = self.tables.as_mut_slice();
        page(self.alloc, disk, tables, memory, range, query)
    }
}
