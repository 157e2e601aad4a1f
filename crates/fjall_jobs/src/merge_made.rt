//! What a merge made.

ghost use Rattle.std.specs.Prelude.{◌≡◌};
ghost use Rattle.fjall_jobs.specs.Keeping.{AreSorted};
ghost use Rattle.fjall_jobs.specs.Merges.{IsMerged, merge_task};

use crate::made_table::MadeTable;
use crate::merge_job::MergeJob;

/// What a merge made of its input, with the job itself: in tables that are closed at the job's target, the versions that the
/// input neither hides at the watermark nor has as spent removals; and the clears that the watermark doesn't reach. Only
/// `MergeJob::run` makes one.
#[derive(Drop)]
pub struct MergeMade {
    pub(crate) job: MergeJob,
    pub(crate) tables: Vec<MadeTable>,
    pub(crate) clears: Vec<u64>,
    // where the job's input is in order, and no key has two versions of one number in it
    ghost made: { ∥ (AreSorted (merge_task job).runs → IsMerged job.target (merge_task job) tables.items clears.items) ∥₁ },
}

impl MergeMade {
    ghost use Rattle.fjall_jobs.specs.Made.{merge_clears, merge_tables, merged_job, merged_task};

    /// The number of the job.
    pub fn id(&self) -> u64
        ensures { result ≡ (merged_task self.now).id }
    {
        self.job.id()
    }

    /// The id of the keyspace.
    pub fn keyspace_id(&self) -> u64
        ensures { result ≡ (merged_task self.now).keyspace }
    {
        self.job.keyspace_id()
    }

    /// The tables that were made.
    pub fn tables(&self) -> &[MadeTable]
        ensures value { result.now ≡ merge_tables self.now }
    {
        &self.tables
    }

    /// The clears that stay of the job's, in their order.
    pub fn clears(&self) -> &[u64]
        ensures value { result.now ≡ merge_clears self.now }
    {
        &self.clears
    }

    /// Gives the job back, and lets go of what was made.
    pub fn into_job(self) -> MergeJob
        ensures { result ≡ merged_job self }
    {
        let MergeMade { job, .. } = self;
        job
    }
}
