//! Places that are for no job yet.

ghost use Rattle.std.specs.Prelude.{◌≡◌};

use crate::begun::Begun;
use crate::end::{Choose, End, Key, Law};
use crate::made::{JobOutput, Labeling};
use crate::out::Out;
use crossbeam_queue::{Pass, RuledArrayQueue};
use std::alloc::{AllocError, Global};
use std::marker::{Brand, Model};
use std::sync::Arc;

/// A place that is for no job yet: its memory is there before the job begins, which then can't be lost for want of it.
#[derive(Drop)]
pub struct Blank<M: JobOutput> {
    queue: Arc<RuledArrayQueue<M, Key, Law, Global>, Global>,
    second: Arc<RuledArrayQueue<M, Key, Law, Global>, Global>,
    pass: Pass<M, Key>,
}

impl<M: JobOutput> Model for Blank<M> {
    ghost use Rattle.std.specs.Prelude.{◌≡◌, None, ⊤};
    ghost use Rattle.std.specs.Arc.{arc_value};
    ghost use Rattle.crossbeam_queue.specs.Passes.{IsPassOf};

    ghost Value = { ⊤ };

    ghost view = { λ _. tt };

    ghost invariant = { λ b. IsPassOf (arc_value b.queue) b.pass × IsPassOf (arc_value b.second) b.pass × (b.pass.me.0.client ≡ None) };
}

impl<M: JobOutput> Blank<M> {
    /// An empty place.
    pub fn new(alloc: Global) -> Result<Blank<M>, AllocError> {
        let (queue, pass) = RuledArrayQueue::<M, Key, Law, Global>::ruled(alloc, 1)?;
        let queue = Arc::new(alloc, queue)?;
        let second = Arc::try_clone(&queue)?;
        Ok(Blank {
            queue,
            second,
            pass,
        })
    }

    // The two ends of a place for this job.
    fn ends<B: Labeling>(self, job: &M::Job) -> (End<M>, End<M>)
        requires { B.job ≡ M.label job.now }
        ensures { (result.0 ≡ B.job) × (result.1 ≡ B.job) }
    {
        let number = M::number(job);
        let Blank {
            queue,
            second,
            mut pass,
        } = self;
        let shared = &*queue;
        let other = shared.another::<Choose<B>>(&mut pass);
        let kept = End {
            number,
            queue,
            pass,
        };
        let given = End {
            number,
            queue: second,
            pass: other,
        };
        (kept, given)
    }

    /// Makes it the place of a job that begins. The first stays where the job is to be finished; the second goes out.
    pub fn begin(self, job: M::Job) -> (Out<M>, Begun<M>)
        ensures kept { result.0 ≡ M.label job }
        ensures begun { result.1 ≡ M.label job }
    {
        let (kept, end) = self.ends::<Brand>(&job);
        (Out::new(kept), Begun { job, end })
    }
}
