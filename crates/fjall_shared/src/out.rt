//! Jobs that are out, where they are to be finished.

ghost use Rattle.std.specs.Prelude.{◌≡◌, IfSome};

use crate::end::End;
use crate::made::JobOutput;
use std::marker::Model;

/// A job that is out, where it is to be finished: an end of its place and, where its finish was refused, what it made, which is to be
/// tried again. Contracts see which job it is.
#[derive(Drop)]
pub struct Out<M: JobOutput> {
    end: End<M>,
    held: Option<M>,
}

impl<M: JobOutput> Model for Out<M> {
    ghost use Rattle.std.specs.Prelude.{◌≡◌, IfSome};
    ghost use Rattle.fjall_shared.specs.Labels.{Label};

    ghost Value = { Label };

    ghost view = { λ o. o.end };

    ghost invariant = { λ o. IfSome o.held (λ made. M.made_of made ≡ o.end) };
}

impl<M: JobOutput> Out<M> {
    // What it made comes to this end.
    pub(crate) fn new(end: End<M>) -> Out<M>
        ensures { result ≡ end }
    {
        Out { end, held: None }
    }

    /// The number of the job.
    pub fn number(&self) -> u64
        ensures { result ≡ self.now.task.id }
    {
        self.end.number()
    }

    /// Takes what is held of the job, or what was left in its place: it was made of this job, whoever left it. None where nothing is, and
    /// maybe while the other end is in the midst of a call.
    pub fn find(&mut self) -> Option<M>
        ensures same { self.new ≡ self.old }
        ensures found { IfSome result (λ made. M.made_of made ≡ self.old) }
    {
        match self.held.take() {
            Some(made) => Some(made),
            None => self.end.find(),
        }
    }

    /// Holds what the job made, to be found again.
    pub fn hold(&mut self, made: M)
        requires { M.made_of made ≡ self.old }
        ensures { self.new ≡ self.old }
    {
        self.held = Some(made);
    }
}
