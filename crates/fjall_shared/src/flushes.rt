//! Flushes: begun under the lock, run anywhere, and finished under the lock by what came back.

ghost use Rattle.std.specs.Prelude.{◌≡◌};
ghost use Rattle.fjall_machine.specs.Shapes.{OfFlushBegin, OfFlushFinish};
ghost use Rattle.fjall_shared.specs.Does.{FinishesJob, MakesCall, begin_reply, with_begun, with_flushes};

use crate::begun::Begun;
use crate::finding::find_made;
use crate::placing::blank_place;
use crate::shared::Shared;
use fjall_base::{Disk, Refused, Result};
use fjall_core::FlushMade;

impl<D: Disk> Shared<D> {
    /// Begins a flush of all sealed memtables of a keyspace, and gives the job away, to be run without the lock, in any thread: what it
    /// makes is left in its place, and [`flush_finish`](Shared::flush_finish) finds it there. None where no memtable is sealed, or
    /// where a flush of the keyspace is out.
    ///
    /// Refused as [`Engine::flush_begin`](fjall_core::Engine::flush_begin). A job that is lost counts as out until the database is opened
    /// again.
    pub fn flush_begin(&mut self, id: u64) -> Result<Option<Begun<FlushMade>>>
        ensures makes { MakesCall D.honest self.old (OfFlushBegin id) (begin_reply result) self.new }
        ensures stays { self.new ≡ with_flushes (with_begun result self.old.flushes) (record self.old { core = self.new.core }) }
    {
        let Some(blank) = blank_place(self.alloc, &mut self.flushes) else {
            match self.core.flush_begin_without_memory(id) {
                Ok(()) => return Ok(None),
                Err(error) => return Err(error),
            }
        };
        let job = match self.core.flush_begin(id) {
            Ok(Some(job)) => job,
            Ok(None) => return Ok(None),
            Err(error) => return Err(error),
        };
        let (out, begun) = blank.begin(job);
        self.flushes.push_reserved(out);
        Ok(Some(begun))
    }

    /// Finishes the flush of this number by what its job made, where that came back, whoever brought it; as
    /// [`Engine::flush_finish`](fjall_core::Engine::flush_finish) does.
    ///
    /// False where nothing changes: no flush of this number is out, since it is stale, of another database, or an older one's number; or
    /// nothing of it came back, since it isn't done, or it is lost. A finish that is refused keeps what came back: call again.
    pub fn flush_finish(&mut self, number: u64) -> Result<bool>
        ensures { FinishesJob D.honest OfFlushFinish self.old.flushes with_flushes self.old number result self.new }
    {
        let Some((place, made)) = find_made(&mut self.flushes, number) else {
            return Ok(false);
        };
        match self.core.flush_finish(made) {
            Ok(done) => {
                self.flushes.remove(place);
                Ok(done)
            }
            Err(Refused { error, value }) => {
                self.flushes[place].hold(value);
                Err(error)
            }
        }
    }
}
