//! The jobs that a list of calls keeps while they are out.

ghost use Rattle.std.specs.Prelude.{◌≡◌, ◌≢◌, ◌+◌, ◌≤◌, None, position, vec_capacity, vec_len};
ghost use Rattle.fjall_base.specs.declared.error.Error.TheVariants.{OutOfMemory};
ghost use Rattle.fjall_engine.specs.Jobs.{Finds, is_kind, is_named, kind_of, name_of};

use fjall_base::{Error, StorageError};
use fjall_history::JobId;
use fjall_jobs::{FlushJob, MergeJob};
use fjall_machine::MergeKind;

/// Which kind a job is of.
#[derive(Debug, Clone, Copy, PartialEq, Eq)]
pub(crate) enum JobKind {
    /// A flush.
    Flush,
    /// A merge, a due or a major one.
    Merge,
}

/// Which job of a keyspace is to begin.
#[derive(Debug, Clone, Copy, PartialEq, Eq)]
pub(crate) enum JobBegin {
    /// A flush.
    Flush,
    /// A merge of this kind.
    Merge(MergeKind),
}

/// A job that is out, and that a list of calls is to run and finish.
#[derive(Drop)]
pub enum Job {
    /// A flush.
    Flush(FlushJob),
    /// A merge.
    Merge(MergeJob),
}

impl Job {
    /// The name that the call which began it is answered with.
    pub fn name(&self) -> JobId
        ensures { result ≡ name_of self.now }
    {
        match self {
            Job::Flush(job) => JobId {
                number: job.id(),
                keyspace_id: job.keyspace_id(),
            },
            Job::Merge(job) => JobId {
                number: job.id(),
                keyspace_id: job.keyspace_id(),
            },
        }
    }

    // Whether it is of this kind.
    fn is_of(&self, kind: JobKind) -> bool
        ensures { result ≡ is_kind kind (kind_of self.now) }
    {
        match self {
            Job::Flush(_) => matches!(kind, JobKind::Flush),
            Job::Merge(_) => matches!(kind, JobKind::Merge),
        }
    }

    // Whether it is the job of this kind and name.
    fn is_named(&self, kind: JobKind, job: JobId) -> bool
        ensures { result ≡ is_named kind job self.now }
    {
        let name = self.name();
        self.is_of(kind) && name.number == job.number && name.keyspace_id == job.keyspace_id
    }
}

// Where the job of this kind and name stands among these.
fn place_of(jobs: &[Job], kind: JobKind, job: JobId) -> Option<usize>
    ensures { result ≡ position (λ kept. is_named kind job kept) jobs.now }
{
    jobs.iter().position(|kept| kept.is_named(kind, job))
}

// Takes the job of this kind and name out of a list, where it is there.
pub(crate) fn take_job(jobs: &mut Vec<Job>, kind: JobKind, job: JobId) -> Option<Job>
    ensures finds { Finds (is_named kind job) jobs.old.items result jobs.new.items }
    ensures room { vec_capacity jobs.new ≡ vec_capacity jobs.old }
    ensures len { vec_len jobs.new ≤ vec_len jobs.old }
    ensures less { result ≢ None → vec_len jobs.new + 1 ≡ vec_len jobs.old }
{
    let place = place_of(jobs, kind, job)?;
    Some(jobs.remove(place))
}

/// What a merge is refused with that was run and made nothing: `OutOfMemory`, and where its blocks are in no order, as a disk that lies
/// may give them, `Storage(TableDamaged)`.
pub(crate) fn run_error(error: Error) -> Error
    ensures memory { error ≡ OutOfMemory → result ≡ OutOfMemory }
    ensures one { error ≢ OutOfMemory → result ≡ Error.Storage StorageError.TableDamaged }
{
    match error {
        Error::OutOfMemory => Error::OutOfMemory,
        _ => Error::Storage(StorageError::TableDamaged),
    }
}
