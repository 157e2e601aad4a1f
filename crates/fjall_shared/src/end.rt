//! The ends of a place, and the rule that they keep.

ghost use Rattle.std.specs.Prelude.{◌≡◌, IfErr, IfSome};

use crate::made::{JobOutput, Labeling};
use crossbeam_queue::protocol::{Outcome, Protocol, Split};
use crossbeam_queue::{Pass, RuledArrayQueue};
use std::alloc::Global;
use std::marker::{Model, PhantomData};
use std::sync::Arc;

/// What an end knows: which job the place is for, once that is chosen. No value of it is made.
pub struct Key {
    none: (),
}

impl Model for Key {
    ghost use Rattle.std.specs.Prelude.{Option, None};
    ghost use Rattle.fjall_shared.specs.Labels.{Label};

    ghost Value = { Option Label };

    ghost view = { λ _. None };
}

/// The rule: all that is in the place was made of the job that both ends know.
pub struct Law;

impl<M: JobOutput> Protocol<M, Key> for Law {
    ghost use Rattle.std.specs.Prelude.{None};
    ghost use Rattle.fjall_shared.specs.Places.{Kept};

    ghost holds = { Kept M.made_of };

    ghost first = { None };
}

// The job is chosen, and there are two ends.
pub(crate) struct Choose<B: Labeling>(PhantomData<B>);

impl<B: Labeling> Split<Key> for Choose<B> {
    ghost use Rattle.std.specs.Prelude.{Some};

    ghost left = { λ _. Some B.job };

    ghost right = { λ _. Some B.job };
}

// Something is left.
struct Leave;

impl<M: JobOutput> Outcome<M, Key> for Leave {
    ghost use Rattle.std.specs.Prelude.{◌≡◌};

    ghost then = { λ v x w. w ≡ v };
}

// Something is found.
struct Find;

impl<M: JobOutput> Outcome<M, Key> for Find {
    ghost use Rattle.std.specs.Prelude.{◌≡◌};
    ghost use Rattle.fjall_shared.specs.Labels.{label_in};

    ghost then = { λ v x w. (w ≡ v) × (M.made_of x ≡ label_in v) };
}

/// One of the two ends of the place of a job. At either of them what the job made is left and found, in any thread. Contracts
/// see which job it is.
#[derive(Drop)]
pub struct End<M: JobOutput> {
    pub(crate) number: u64,
    pub(crate) queue: Arc<RuledArrayQueue<M, Key, Law, Global>, Global>,
    pub(crate) pass: Pass<M, Key>,
}

impl<M: JobOutput> Model for End<M> {
    ghost use Rattle.std.specs.Prelude.{◌≡◌, Some};
    ghost use Rattle.std.specs.Arc.{arc_value};
    ghost use Rattle.crossbeam_queue.specs.Passes.{IsPassOf};
    ghost use Rattle.fjall_shared.specs.Labels.{Label, label_in};

    ghost Value = { Label };

    ghost view = { λ e. label_in e.pass.me.0.client };

    ghost invariant = { λ e. IsPassOf (arc_value e.queue) e.pass × (e.pass.me.0.client ≡ Some (label_in e.pass.me.0.client))
        × (e.number ≡ (label_in e.pass.me.0.client).task.id) };
}

impl<M: JobOutput> End<M> {
    /// The number of the job.
    pub fn number(&self) -> u64
        ensures { result ≡ self.now.task.id }
    {
        self.number
    }

    /// Leaves what the job made, where nothing lies in the place; else hands it back, as it may while the other end is in the midst of
    /// a call.
    pub fn leave(&mut self, made: M) -> Result<(), M>
        requires { M.made_of made ≡ self.old }
        ensures same { self.new ≡ self.old }
        ensures back { IfErr result (λ back. back ≡ made) }
    {
        let queue = &*self.queue;
        queue.try_push_as::<Leave>(&mut self.pass, made)
    }

    /// Takes what lies in the place: it was made of this end's job, whoever left it. None where nothing lies there, and maybe while
    /// the other end is in the midst of a call.
    pub fn find(&mut self) -> Option<M>
        ensures same { self.new ≡ self.old }
        ensures found { IfSome result (λ made. M.made_of made ≡ self.old) }
    {
        let queue = &*self.queue;
        queue.try_pop_as::<Find>(&mut self.pass)
    }
}
