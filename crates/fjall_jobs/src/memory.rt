//! A flush of all that a keyspace has in memory, the active memtable too, which is not shared with a job.

ghost use Rattle.std.specs.Prelude.{◌≡◌, ◌<◌, ◌^◌, ◌++◌, ◌∷◌, [], ℕ, IfOk, IsOkUnless, map};
ghost use Rattle.fjall_memtable.specs.Held.{held_of};
ghost use Rattle.fjall_memtable.specs.Parts.{AreApart, clears_in};
ghost use Rattle.fjall_memtable.specs.Shares.{shared};
ghost use Rattle.fjall_jobs.specs.Tasks.{IsFlushed};

use crate::bound::bound_of;
use crate::flush_job::{clears_of, memtable_runs};
use crate::keeper::{Rule, keep};
use crate::made_table::MadeTable;
use fjall_base::{Error, Result};
use fjall_cursors::MemtableRun;
use fjall_memtable::Part;
use std::alloc::Global;
use std::sync::Arc;

/// What a flush makes under a watermark of sealed memtables, the oldest first, and of the active one, whose numbers stand apart:
/// one table at most, and all their clears, ascending. The watermark is below 2^63. It takes no disk, and is refused for want of
/// memory alone.
pub fn flush_memory(
    alloc: Global,
    watermark: u64,
    sealed: &[Arc<Part>],
    active: &Part,
) -> Result<(Vec<MadeTable>, Vec<u64>)>
    requires low { watermark < 2 ^ 63 }
    requires apart { AreApart (shared sealed.now ++ held_of active.now ∷ []) }
    ensures made { (id keyspace : ℕ) → let parts = shared sealed.now ++ held_of active.now ∷ [] in
        IfOk result (λ made. IsFlushed (record { id = id; keyspace = keyspace; watermark = watermark; runs = map (λ h. h.versions) parts; clears = clears_in parts }) made.0.items made.1.items) }
    ensures only { IsOkUnless result Error.OutOfMemory }
{
    let mut clears = clears_of(alloc, sealed)?;
    clears.extend_from_slice(active.clears())?;
    let rule = Rule {
        watermark,
        bound: bound_of(clears.as_slice(), watermark + 1),
        spends: false,
    };
    let mut runs = memtable_runs(alloc, sealed)?;
    runs.push(MemtableRun::new(active.versions().versions(), false))?;
    let tables = keep(alloc, runs.as_mut_slice(), rule, None)?;
    Ok((tables, clears))
}
