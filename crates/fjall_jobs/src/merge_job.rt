//! Merges: several tables become others.

ghost use Rattle.std.specs.Prelude.{◌≡◌, ◌<◌, ◌^◌, IfErr, IfOk, IsOkUnless};
ghost use Rattle.fjall_base.specs.declared.error.Error.TheVariants.{OutOfMemory};
ghost use Rattle.fjall_memtable.specs.Jobs.{merged_clears};
ghost use Rattle.fjall_jobs.specs.Keeping.{AreSorted};
ghost use Rattle.fjall_jobs.specs.MergeInputs.{table_runs};

use crate::blocks_run::BlocksRun;
use crate::bound::bound_of;
use crate::keeper::{Rule, keep};
use crate::made_table::MadeTable;
use crate::merge_made::MergeMade;
use fjall_base::{Error, Refused, Result};
use fjall_table_reader::Block;
use std::alloc::Global;
use std::sync::Arc;

/// A merge that was begun: all blocks of the tables that it carries, the clears of the record, the watermark, and the size at
/// which the tables that it makes are closed.
#[derive(Drop)]
pub struct MergeJob {
    pub(crate) id: u64,
    pub(crate) keyspace_id: u64,
    pub(crate) watermark: u64,
    pub(crate) target: u64,
    pub(crate) tables: Vec<Vec<Arc<Block, Global>>>,
    pub(crate) clears: Vec<u64>,
    ghost low: { watermark < 2 ^ 63 },
}

/// The versions of these tables, as runs.
fn block_runs(alloc: Global, tables: &[Vec<Arc<Block, Global>>]) -> Result<Vec<BlocksRun<'_>>>
    ensures runs { IfOk result (λ runs. runs.items ≡ table_runs tables.now) }
    ensures only { IsOkUnless result Error.OutOfMemory }
{
    let mut runs = Vec::new(alloc);
    for table in tables {
        runs.push(BlocksRun::new(table.as_slice()))?;
    }
    Ok(runs)
}

/// The clears that the watermark doesn't reach.
fn later_clears(alloc: Global, clears: &[u64], watermark: u64) -> Result<Vec<u64>>
    ensures clears { IfOk result (λ later. later.items ≡ merged_clears watermark clears.now) }
    ensures only { IsOkUnless result Error.OutOfMemory }
{
    Ok(
        clears
            .iter()
            .copied()
            .filter(|number| watermark < *number)
            .collect(alloc)?,
    )
}

impl MergeJob {
    ghost use Rattle.fjall_jobs.specs.Made.{merge_clears, merge_tables, merged_target, merged_task};
    ghost use Rattle.fjall_jobs.specs.Merges.{IsMerged, merge_target, merge_task};

    /// A merge of these tables of a keyspace, each given by all of its blocks, the oldest first, and of these clears. The
    /// watermark is below 2^63.
    pub fn new(
        id: u64,
        keyspace_id: u64,
        watermark: u64,
        target: u64,
        tables: Vec<Vec<Arc<Block, Global>>>,
        clears: Vec<u64>,
    ) -> MergeJob
        requires { watermark < 2 ^ 63 }
        ensures task { merge_task result ≡ record { id = id; keyspace = keyspace_id; watermark = watermark; runs = table_runs tables.items; clears = clears.items } }
        ensures target { merge_target result ≡ target }
    {
        MergeJob {
            id,
            keyspace_id,
            watermark,
            target,
            tables,
            clears,
        }
    }

    /// The number of the job.
    pub fn id(&self) -> u64
        ensures { result ≡ (merge_task self.now).id }
    {
        self.id
    }

    /// The id of the keyspace.
    pub fn keyspace_id(&self) -> u64
        ensures { result ≡ (merge_task self.now).keyspace }
    {
        self.keyspace_id
    }

    /// What is made of its input: tables, and clears.
    fn make(&self, alloc: Global) -> Result<(Vec<MadeTable>, Vec<u64>)>
        ensures made { AreSorted (merge_task self.now).runs → IfOk result (λ made. IsMerged (merge_target self.now) (merge_task self.now) made.0.items made.1.items) }
        ensures only { AreSorted (merge_task self.now).runs → IsOkUnless result Error.OutOfMemory }
    {
        let clears = later_clears(alloc, self.clears.as_slice(), self.watermark)?;
        let bound = bound_of(self.clears.as_slice(), self.watermark + 1);
        let rule = Rule {
            watermark: self.watermark,
            bound,
            spends: true,
        };
        let mut runs = block_runs(alloc, self.tables.as_slice())?;
        let tables = keep(alloc, runs.as_mut_slice(), rule, Some(self.target))?;
        Ok((tables, clears))
    }

    /// Makes what stands in its input's place. It takes no disk and no lock. Where each table is in order, and no key has two
    /// versions of one number in them, it is refused for want of memory alone; it hands the job back then.
    pub fn run(self, alloc: Global) -> std::result::Result<MergeMade, Refused<MergeJob>>
        ensures job { IfOk result (λ made. merged_task made ≡ merge_task self) }
        ensures target { IfOk result (λ made. merged_target made ≡ merge_target self) }
        ensures made { AreSorted (merge_task self).runs → IfOk result (λ made. IsMerged (merge_target self) (merge_task self) (merge_tables made) (merge_clears made)) }
        ensures error { AreSorted (merge_task self).runs → IfErr result (λ refused. refused.error ≡ OutOfMemory) }
        ensures value { IfErr result (λ refused. merge_task refused.value ≡ merge_task self) }
        ensures value_target { IfErr result (λ refused. merge_target refused.value ≡ merge_target self) }
    {
        match self.make(alloc) {
            Ok((tables, clears)) => Ok(MergeMade {
                job: self,
                tables,
                clears,
            }),
            Err(error) => Err(Refused { error, value: self }),
        }
    }
}
