//! Lists of calls, which are served in order.

ghost use Rattle.std.specs.Prelude.{◌≡◌, ◌+◌, ◌++◌, ◌∷◌, ◌<◌, ◌≤◌, [], All, IsTrue, IfOk, IfSome, IsOkUnless, OnErr, true, vec_capacity, vec_len};
ghost use Rattle.fjall_jobs.specs.Flushes.{flush_task};
ghost use Rattle.fjall_jobs.specs.Merges.{merge_target, merge_task};
ghost use Rattle.fjall_machine.specs.Machine.{State, merge_out};
ghost use Rattle.fjall_machine.specs.Merging.{KnowsMerge};
ghost use Rattle.fjall_machine.specs.Places.{resolved, resolved_all};
ghost use Rattle.fjall_machine.specs.Remembered.{IsLawful, KnowsTask};
ghost use Rattle.fjall_machine.specs.Shapes.{OfFlushFinish, OfMergeFinish, shape_of};
ghost use Rattle.fjall_engine.specs.Jobs.{IsFlushKnown, IsGivenBack, IsMergeKnown, Keeps, KeepsJobs, KeepsMerges, KeepsOthers, KnowsMerges, begin_of, begun_kind, begun_reply, finish_of, is_kept, is_out, kind_of, name_of};
ghost use Rattle.fjall_engine.specs.declared.jobs.Job.TheVariants.{Flush, Merge};
ghost use Rattle.fjall_engine.specs.Standing.{Owes, OwesAll, ReadsOn, Serves, ServesWhere, StandsFor, Runs, RunsSafely, job_of};

use crate::engine::Engine;
use crate::jobs::{Job, JobBegin, JobKind, run_error, take_job};
use fjall_base::{Disk, Error, Refused, Result};
use fjall_history::{JobId, Reply};
use fjall_jobs::{FlushJob, MergeJob};
use fjall_machine::{Call, MergeKind};

impl<D: Disk> Engine<D> {
    // What is in memory is lawful, whatever calls left it there.
    fn memory_is_lawful(&self)
        ensures { IsLawful self.now.memory }
    {
        let _ = self.memory.keyspaces();
    }

    // Whether the job of this kind and name is out.
    fn is_job_out(&self, kind: JobKind, job: JobId) -> bool
        ensures { result ≡ is_out self.now.memory kind job }
    {
        match kind {
            JobKind::Flush => self.memory.is_out(job),
            JobKind::Merge => self.memory.is_merge_out(job),
        }
    }

    // Begins this job of a keyspace.
    fn begin_job(&mut self, begin: JobBegin, id: u64) -> Result<Option<Job>>
        ensures serves { IsTrue D.honest → Serves self.old (begin_of begin id) (begun_reply result) self.new }
        ensures owes { Owes self.old (begin_of begin id) (begun_reply result) self.new }
        ensures kind { IfOk result (λ job. IfSome job (λ job. kind_of job ≡ begun_kind begin)) }
        ensures flush { IfOk result (λ job. IfSome job (λ job. IsFlushKnown self.new.memory job)) }
        ensures merge { IsTrue D.honest → (s : State) → StandsFor self.old s → ReadsOn self.old s
            → IfOk result (λ job. IfSome job (λ job. IsMergeKnown (merge_out s id) job)) }
    {
        match begin {
            JobBegin::Flush => Ok(self.flush_begin(id)?.map(Job::Flush)),
            JobBegin::Merge(MergeKind::Due) => Ok(self.merge_begin(id)?.map(Job::Merge)),
            JobBegin::Merge(MergeKind::Major) => Ok(self.major_begin(id)?.map(Job::Merge)),
        }
    }

    // Serves a job that is to begin, and keeps it.
    fn serve_begin(&mut self, begin: JobBegin, id: u64, jobs: &mut Vec<Job>) -> Reply
        requires room { vec_len jobs.old < vec_capacity jobs.old }
        ensures serves { IsTrue D.honest → Serves self.old (begin_of begin id) result self.new }
        ensures owes { Owes self.old (begin_of begin id) result self.new }
        ensures keeps { Keeps (begun_kind begin) self.new.memory result jobs.old.items jobs.new.items }
        ensures merges { IsTrue D.honest → KeepsMerges self.old jobs.old.items (begin_of begin id) result jobs.new.items }
        ensures room { vec_capacity jobs.old ≤ vec_capacity jobs.new }
        ensures len { vec_len jobs.new ≤ vec_len jobs.old + 1 }
    {
        match self.begin_job(begin, id) {
            Ok(Some(job)) => {
                let name = job.name();
                jobs.push(job).unwrap();
                Reply::Began(Some(name))
            }
            Ok(None) => Reply::Began(None),
            Err(error) => Reply::Refused(error),
        }
    }

    // Runs a flush and finishes it, and gives its job back where it is refused. One that is stale isn't run.
    fn run_flush(&mut self, job: FlushJob) -> (Reply, Option<Job>)
        requires { KnowsTask self.old.memory (flush_task job) }
        ensures serves { IsTrue D.honest → Serves self.old (OfFlushFinish (job_of (flush_task job))) result.0 self.new }
        ensures owes { Owes self.old (OfFlushFinish (job_of (flush_task job))) result.0 self.new }
        ensures back { IsGivenBack (Flush job) result.0 result.1 }
    {
        let name = JobId {
            number: job.id(),
            keyspace_id: job.keyspace_id(),
        };
        if let Some(early) = self.settle_early(name) {
            return match early {
                Ok(done) => (Reply::Flag(done), None),
                Err(error) => (Reply::Refused(error), Some(Job::Flush(job))),
            };
        }
        let made = match job.run(self.alloc) {
            Ok(made) => made,
            Err(refused) => {
                let Refused { error, value: job } = refused;
                return (Reply::Refused(error), Some(Job::Flush(job)));
            }
        };
        match self.flush_finish(made) {
            Ok(done) => (Reply::Flag(done), None),
            Err(refused) => {
                let Refused { error, value: made } = refused;
                (Reply::Refused(error), Some(Job::Flush(made.into_job())))
            }
        }
    }

    // The same of a merge.
    fn run_merge(&mut self, job: MergeJob) -> (Reply, Option<Job>)
        ensures serves { IsTrue D.honest → ServesWhere (λ s. KnowsMerge s (merge_target job) (merge_task job)) self.old (OfMergeFinish (job_of (merge_task job))) result.0 self.new }
        ensures owes { Owes self.old (OfMergeFinish (job_of (merge_task job))) result.0 self.new }
        ensures back { IsGivenBack (Merge job) result.0 result.1 }
    {
        let name = JobId {
            number: job.id(),
            keyspace_id: job.keyspace_id(),
        };
        if let Some(early) = self.settle_merge_early(name) {
            return match early {
                Ok(done) => (Reply::Flag(done), None),
                Err(error) => (Reply::Refused(error), Some(Job::Merge(job))),
            };
        }
        let made = match job.run(self.alloc) {
            Ok(made) => made,
            Err(refused) => {
                let Refused { error, value: job } = refused;
                return (Reply::Refused(run_error(error)), Some(Job::Merge(job)));
            }
        };
        match self.merge_finish(made) {
            Ok(done) => (Reply::Flag(done), None),
            Err(refused) => {
                let Refused { error, value: made } = refused;
                (Reply::Refused(error), Some(Job::Merge(made.into_job())))
            }
        }
    }

    // Runs a job and finishes it, and gives it back where it is refused.
    fn run_and_finish(&mut self, job: Job) -> (Reply, Option<Job>)
        requires { IsFlushKnown self.old.memory job }
        ensures serves { IsTrue D.honest → ServesWhere (λ s. IsMergeKnown s job) self.old (finish_of (kind_of job) (name_of job)) result.0 self.new }
        ensures owes { Owes self.old (finish_of (kind_of job) (name_of job)) result.0 self.new }
        ensures back { IsGivenBack job result.0 result.1 }
    {
        match job {
            Job::Flush(job) => self.run_flush(job),
            Job::Merge(job) => self.run_merge(job),
        }
    }

    // Serves a job that is to be finished, which is kept where it is out; one that is refused is kept on.
    fn serve_finish(&mut self, kind: JobKind, job: JobId, jobs: &mut Vec<Job>) -> Reply
        requires known { All (λ kept. IsFlushKnown self.old.memory kept) jobs.old.items }
        requires kept { is_out self.old.memory kind job ≡ true → is_kept kind job jobs.old.items ≡ true }
        ensures serves { IsTrue D.honest → ServesWhere (λ s. KnowsMerges s jobs.old.items) self.old (finish_of kind job) result self.new }
        ensures owes { Owes self.old (finish_of kind job) result self.new }
        ensures keeps { KeepsOthers kind job result jobs.old.items jobs.new.items }
        ensures room { vec_capacity jobs.old ≤ vec_capacity jobs.new }
        ensures len { vec_len jobs.new ≤ vec_len jobs.old }
    {
        if !self.is_job_out(kind, job) {
            return Reply::Flag(false);
        }
        let Some(kept) = take_job(jobs, kind, job) else {
            unreachable!()
        };
        let (reply, back) = self.run_and_finish(kept);
        if let Some(refused) = back {
            jobs.push(refused).unwrap();
        }
        reply
    }

    /// Serves one call of a list, where the calls before it got these replies: it names a ticket and a job by the place of the
    /// call that opened or began it. The jobs that are out are kept, in a list that has room for one more.
    pub fn serve(&mut self, call: Call, replies: &[Reply], jobs: &mut Vec<Job>) -> Reply
        requires room { vec_len jobs.old < vec_capacity jobs.old }
        requires keeps { KeepsJobs self.old.memory jobs.old.items replies.now }
        // From each state that knows the merges that are kept.
        ensures serves { IsTrue D.honest → ServesWhere (λ s. KnowsMerges s jobs.old.items) self.old (shape_of (resolved replies.now call)) result self.new }
        ensures owes { Owes self.old (shape_of (resolved replies.now call)) result self.new }
        ensures keeps { KeepsJobs self.new.memory jobs.new.items (replies.now ++ result ∷ []) }
        ensures merges { IsTrue D.honest → KeepsMerges self.old jobs.old.items (shape_of (resolved replies.now call)) result jobs.new.items }
        ensures room { vec_capacity jobs.old ≤ vec_capacity jobs.new }
        ensures len { vec_len jobs.new ≤ vec_len jobs.old + 1 }
    {
        self.memory_is_lawful();
        match call.resolve(replies) {
            Call::FlushBegin(id) => self.serve_begin(JobBegin::Flush, id, jobs),
            Call::FlushFinish(job) => self.serve_finish(JobKind::Flush, job, jobs),
            Call::MergeBegin(id) => self.serve_begin(JobBegin::Merge(MergeKind::Due), id, jobs),
            Call::MajorBegin(id) => self.serve_begin(JobBegin::Merge(MergeKind::Major), id, jobs),
            Call::MergeFinish(job) => self.serve_finish(JobKind::Merge, job, jobs),
            call => self.serve_plain(call),
        }
    }

    /// Serves calls in order, and answers a reply for each. A call names a ticket by the place in the list of the call that
    /// opened it, and a job by the place of the call that began it; a place whose call opened or began none names none. A job that
    /// is refused is kept under its name; what is out at the list's end stays out, and no later list can name it. Only where the
    /// lists of replies and of jobs find no memory is the whole list refused, before its first call.
    pub fn run(&mut self, calls: Vec<Call>) -> Result<Vec<Reply>>
        ensures runs { IsTrue D.honest → IfOk result (λ replies. Runs self.old (resolved_all calls.items replies.items) replies.items self.new) }
        ensures crash { IsTrue D.honest
            → IfOk result (λ replies. RunsSafely self.old (resolved_all calls.items replies.items) replies.items self.new) }
        ensures owes { IfOk result (λ replies. OwesAll self.old (resolved_all calls.items replies.items) replies.items self.new) }
        ensures err { OnErr result (self.new ≡ self.old) }
        ensures only { IsOkUnless result Error.OutOfMemory }
    {
        let mut replies = Vec::with_capacity(self.alloc, calls.len())?;
        let mut jobs = Vec::with_capacity(self.alloc, calls.len())?;
        for call in calls {
            let reply = self.serve(call, &replies, &mut jobs);
            replies.push(reply).unwrap();
        }
        Ok(replies)
    }
}
