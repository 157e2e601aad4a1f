//! Flushes: sealed memtables become a table.

ghost use Rattle.std.specs.Prelude.{◌≡◌, ◌<◌, ◌^◌, List, None, IfErr, IfOk, IsOkUnless, map, length, slice_get};
ghost use Rattle.std.proofs.Props.{props};
ghost use Rattle.fjall_base.specs.declared.error.Error.TheVariants.{OutOfMemory};
ghost use Rattle.fjall_memtable.specs.Parts.{AreApart, apart_prop, clears_in};
ghost use Rattle.fjall_memtable.specs.Shares.{shared};
ghost use Rattle.fjall_jobs.specs.Inputs.{runs_of};

use crate::bound::bound_of;
use crate::flush_made::FlushMade;
use crate::keeper::{Rule, keep};
use crate::made_table::MadeTable;
use fjall_base::{Error, Refused, Result};
use fjall_cursors::MemtableRun;
use fjall_memtable::Part;
use std::alloc::Global;
use std::sync::Arc;

/// A flush that was begun: the sealed memtables that it carries, which it shares with the tree, and the watermark.
#[derive(Drop)]
pub struct FlushJob {
    pub(crate) id: u64,
    pub(crate) keyspace_id: u64,
    pub(crate) watermark: u64,
    pub(crate) parts: Vec<Arc<Part>>,
    ghost low: { watermark < 2 ^ 63 },
    ghost apart: { AreApart (shared parts.items) } by { apart_prop (shared parts.items) },
}

/// The versions of these parts, as runs.
pub(crate) fn memtable_runs(alloc: Global, parts: &[Arc<Part>]) -> Result<Vec<MemtableRun<'_>>>
    ensures runs { IfOk result (λ runs. runs.items ≡ runs_of parts.now) }
    ensures only { IsOkUnless result Error.OutOfMemory }
{
    let mut runs = Vec::new(alloc);
    for part in parts {
        runs.push(MemtableRun::new(part.versions().versions(), false))?;
    }
    Ok(runs)
}

/// The clears of these parts.
pub(crate) fn clears_of(alloc: Global, parts: &[Arc<Part>]) -> Result<Vec<u64>>
    ensures clears { IfOk result (λ clears. clears.items ≡ clears_in (shared parts.now)) }
    ensures only { IsOkUnless result Error.OutOfMemory }
{
    let mut clears = Vec::new(alloc);
    for part in parts {
        clears.extend_from_slice(part.clears())?;
    }
    Ok(clears)
}

impl FlushJob {
    ghost use Rattle.fjall_jobs.specs.Flushes.{flush_task};
    ghost use Rattle.fjall_jobs.specs.Made.{flush_clears, flush_tables, flushed_task};
    ghost use Rattle.fjall_jobs.specs.Tasks.{IsFlushed};

    /// A flush of these sealed memtables of a keyspace, the oldest first, whose numbers stand apart. The watermark is below
    /// 2^63.
    pub fn new(id: u64, keyspace_id: u64, watermark: u64, parts: Vec<Arc<Part>>) -> FlushJob
        requires low { watermark < 2 ^ 63 }
        requires apart { AreApart (shared parts.items) }
        ensures { flush_task result ≡ record { id = id; keyspace = keyspace_id; watermark = watermark; runs = runs_of parts.items; clears = clears_in (shared parts.items) } }
    {
        FlushJob {
            id,
            keyspace_id,
            watermark,
            parts,
        }
    }

    /// The number of the job.
    pub fn id(&self) -> u64
        ensures { result ≡ (flush_task self.now).id }
    {
        self.id
    }

    /// The id of the keyspace.
    pub fn keyspace_id(&self) -> u64
        ensures { result ≡ (flush_task self.now).keyspace }
    {
        self.keyspace_id
    }

    /// The clears of its input, ascending. It is refused for want of memory alone.
    pub fn clears(&self, alloc: Global) -> Result<Vec<u64>>
        ensures clears { IfOk result (λ clears. clears.items ≡ (flush_task self.now).clears) }
        ensures only { IsOkUnless result Error.OutOfMemory }
    {
        clears_of(alloc, self.parts.as_slice())
    }

    /// What is made of its input: tables, and clears.
    fn make(&self, alloc: Global) -> Result<(Vec<MadeTable>, Vec<u64>)>
        ensures made { IfOk result (λ made. IsFlushed (flush_task self.now) made.0.items made.1.items) }
        ensures only { IsOkUnless result Error.OutOfMemory }
    {
        let clears = clears_of(alloc, self.parts.as_slice())?;
        let bound = bound_of(clears.as_slice(), self.watermark + 1);
        let rule = Rule {
            watermark: self.watermark,
            bound,
            spends: false,
        };
        let mut runs = memtable_runs(alloc, self.parts.as_slice())?;
        let tables = keep(alloc, runs.as_mut_slice(), rule, None)?;
        Ok((tables, clears))
    }

    /// Makes what stands in its input's place. It takes no disk and no lock. It is refused for want of memory alone, and
    /// hands the job back then.
    pub fn run(self, alloc: Global) -> std::result::Result<FlushMade, Refused<FlushJob>>
        ensures job { IfOk result (λ made. flushed_task made ≡ flush_task self) }
        ensures made { IfOk result (λ made. IsFlushed (flush_task self) (flush_tables made) (flush_clears made)) }
        ensures error { IfErr result (λ refused. refused.error ≡ OutOfMemory) }
        ensures value { IfErr result (λ refused. flush_task refused.value ≡ flush_task self) }
    {
        match self.make(alloc) {
            Ok((tables, clears)) => Ok(FlushMade {
                job: self,
                tables,
                clears,
            }),
            Err(error) => Err(Refused { error, value: self }),
        }
    }
}
