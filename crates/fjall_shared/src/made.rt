//! What jobs make.

ghost use Rattle.std.specs.Prelude.{◌≡◌, IfErr, IfOk};
ghost use Rattle.fjall_base.specs.declared.error.Error.TheVariants.{OutOfMemory};

use fjall_base::Refused;
use fjall_jobs::{FlushJob, FlushMade, MergeJob, MergeMade};
use std::alloc::Global;
use std::marker::Brand;

/// What a job makes, which knows its job.
pub trait JobOutput: Drop {
    ghost use Rattle.fjall_shared.specs.Labels.{Label};

    /// The job that makes it.
    type Job: Drop;

    // Which job it is.
    ghost label: { Self.Job → Label };

    // Which job it was made of.
    ghost made_of: { Self → Label };

    // Whether the job's input is such that its run is refused for want of memory alone.
    ghost is_sound: { Label → Type 0 };

    /// The number of a job.
    fn number(job: &Self::Job) -> u64
        ensures { result ≡ (label job.now).task.id };

    /// Runs a job. A refusal hands it back.
    fn make(job: Self::Job, alloc: Global) -> Result<Self, Refused<Self::Job>>
        ensures made { IfOk result (λ made. made_of made ≡ label job) }
        ensures value { IfErr result (λ refused. label refused.value ≡ label job) }
        ensures error { is_sound (label job) → IfErr result (λ refused. refused.error ≡ OutOfMemory) };
}

impl JobOutput for FlushMade {
    ghost use Rattle.fjall_shared.specs.Labels.{flush_label, flush_made_of};

    type Job = FlushJob;

    ghost label = { flush_label };

    ghost made_of = { flush_made_of };

    ghost is_sound = { λ _. Unit {0} };

    fn number(job: &FlushJob) -> u64 {
        job.id()
    }

    fn make(job: FlushJob, alloc: Global) -> Result<FlushMade, Refused<FlushJob>> {
        job.run(alloc)
    }
}

impl JobOutput for MergeMade {
    ghost use Rattle.fjall_jobs.specs.Keeping.{AreSorted};
    ghost use Rattle.fjall_shared.specs.Labels.{merge_label, merge_made_of};

    type Job = MergeJob;

    ghost label = { merge_label };

    ghost made_of = { merge_made_of };

    ghost is_sound = { λ l. AreSorted l.task.runs };

    fn number(job: &MergeJob) -> u64 {
        job.id()
    }

    fn make(job: MergeJob, alloc: Global) -> Result<MergeMade, Refused<MergeJob>> {
        job.run(alloc)
    }
}

/// Which job a place is for. Each call picks it.
pub trait Labeling {
    ghost use Rattle.fjall_shared.specs.Labels.{Label};

    ghost job: { Label };
}

impl Labeling for Brand {
    ghost use Rattle.fjall_shared.specs.Labels.{no_label};

    ghost job = { no_label };
}
