//! What one of the jobs that are out made.

ghost use Rattle.std.specs.Prelude.{◌≡◌, IfSome, Some, slice_get};

use crate::made::JobOutput;
use crate::out::Out;

/// What the job of this number made, where that was left or is held, with where the job stands among these.
///
/// None where it isn't to be finished: no job of this number is out here; or nothing lies in its place, since it isn't done, it is lost, or
/// what comes back is of a job of another database, or of an older one that had this number, and lies in the place of that.
pub fn find_made<M: JobOutput>(jobs: &mut [Out<M>], number: u64) -> Option<(usize, M)>
    ensures same { jobs.new ≡ jobs.old }
    ensures out { IfSome result (λ found. slice_get jobs.old found.0 ≡ Some (M.made_of found.1)) }
    ensures number { IfSome result (λ found. (M.made_of found.1).task.id ≡ number) }
{
    let place = jobs.iter().position(|job| job.number() == number)?;
    let made = jobs[place].find()?;
    Some((place, made))
}
