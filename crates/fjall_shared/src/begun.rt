//! Jobs that are out, and what they made on its way back.

ghost use Rattle.std.specs.Prelude.{◌≡◌, IfErr, IfOk};
ghost use Rattle.fjall_base.specs.declared.error.Error.TheVariants.{OutOfMemory};

use crate::end::End;
use crate::made::JobOutput;
use fjall_base::Refused;
use std::alloc::Global;
use std::marker::Model;

/// A job that is out, to be run anywhere, with an end of its place. Contracts see which job it is.
#[derive(Drop)]
pub struct Begun<M: JobOutput> {
    pub(crate) job: M::Job,
    pub(crate) end: End<M>,
}

impl<M: JobOutput> Model for Begun<M> {
    ghost use Rattle.std.specs.Prelude.{◌≡◌};
    ghost use Rattle.fjall_shared.specs.Labels.{Label};

    ghost Value = { Label };

    ghost view = { λ b. M.label b.job };

    ghost invariant = { λ b. b.end ≡ M.label b.job };
}

/// What a job made, with an end of its place. Contracts see which job it was made of.
#[derive(Drop)]
pub struct Ran<M: JobOutput> {
    made: M,
    end: End<M>,
}

impl<M: JobOutput> Model for Ran<M> {
    ghost use Rattle.std.specs.Prelude.{◌≡◌};
    ghost use Rattle.fjall_shared.specs.Labels.{Label};

    ghost Value = { Label };

    ghost view = { λ r. M.made_of r.made };

    ghost invariant = { λ r. r.end ≡ M.made_of r.made };
}

impl<M: JobOutput> Begun<M> {
    /// The number of the job.
    pub fn number(&self) -> u64
        ensures { result ≡ self.now.task.id }
    {
        self.end.number()
    }

    /// Runs the job, which takes no disk and no lock. A refusal hands the job back.
    pub fn run(self, alloc: Global) -> Result<Ran<M>, Refused<Begun<M>>>
        ensures ran { IfOk result (λ ran. ran ≡ self) }
        ensures value { IfErr result (λ refused. refused.value ≡ self) }
        ensures error { M.is_sound self → IfErr result (λ refused. refused.error ≡ OutOfMemory) }
    {
        let Begun { job, end } = self;
        match M::make(job, alloc) {
            Ok(made) => Ok(Ran { made, end }),
            Err(Refused { error, value }) => Err(Refused {
                error,
                value: Begun { job: value, end },
            }),
        }
    }
}

impl<M: JobOutput> Ran<M> {
    /// Leaves what the job made in its place, and answers the job's number, under which it is to be finished. Where it isn't left, it is
    /// handed back: leave it again.
    pub fn leave(self) -> Result<u64, Ran<M>>
        ensures number { IfOk result (λ number. number ≡ self.task.id) }
        ensures back { IfErr result (λ ran. ran ≡ self) }
    {
        let Ran { made, mut end } = self;
        match end.leave(made) {
            Ok(()) => Ok(end.number()),
            Err(made) => Err(Ran { made, end }),
        }
    }
}
