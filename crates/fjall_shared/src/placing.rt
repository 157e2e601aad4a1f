//! Places for jobs that are to begin.

ghost use Rattle.std.specs.Prelude.{◌≡◌, ◌<◌, OnSome};
ghost use Rattle.std.specs.Vec.{vec_capacity, vec_len};

use crate::blank::Blank;
use crate::made::JobOutput;
use crate::out::Out;
use std::alloc::Global;

/// A place for a job, and room for it among those that are out. None where memory is used up.
pub(crate) fn blank_place<M: JobOutput>(alloc: Global, jobs: &mut Vec<Out<M>>) -> Option<Blank<M>>
    ensures same { jobs.new.items ≡ jobs.old.items }
    ensures room { OnSome result (vec_len jobs.new < vec_capacity jobs.new) }
{
    jobs.reserve(1).ok()?;
    Blank::new(alloc).ok()
}
