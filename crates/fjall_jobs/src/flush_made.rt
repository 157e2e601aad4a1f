//! What a flush made.

ghost use Rattle.std.specs.Prelude.{◌≡◌};
ghost use Rattle.fjall_jobs.specs.Flushes.{flush_task};
ghost use Rattle.fjall_jobs.specs.Tasks.{IsFlushed};

use crate::flush_job::FlushJob;
use crate::made_table::MadeTable;

/// What a flush made of its input, with the job itself: the versions that the input doesn't hide at the watermark, in one
/// table or, where there is none, in none; and all clears of the input. Only `FlushJob::run` makes one.
#[derive(Drop)]
pub struct FlushMade {
    pub(crate) job: FlushJob,
    pub(crate) tables: Vec<MadeTable>,
    pub(crate) clears: Vec<u64>,
    ghost made: { ∥ IsFlushed (flush_task job) tables.items clears.items ∥₁ },
}

impl FlushMade {
    ghost use Rattle.fjall_jobs.specs.Made.{flush_clears, flush_tables, flushed_job, flushed_task};

    /// The number of the job.
    pub fn id(&self) -> u64
        ensures { result ≡ (flushed_task self.now).id }
    {
        self.job.id()
    }

    /// The id of the keyspace.
    pub fn keyspace_id(&self) -> u64
        ensures { result ≡ (flushed_task self.now).keyspace }
    {
        self.job.keyspace_id()
    }

    /// The tables that were made, one at most.
    pub fn tables(&self) -> &[MadeTable]
        ensures value { result.now ≡ flush_tables self.now }
    {
        &self.tables
    }

    /// The clears of the input, ascending.
    pub fn clears(&self) -> &[u64]
        ensures value { result.now ≡ flush_clears self.now }
    {
        &self.clears
    }

    /// Gives the job back, and lets go of what was made.
    pub fn into_job(self) -> FlushJob
        ensures { result ≡ flushed_job self }
    {
        let FlushMade { job, .. } = self;
        job
    }
}
