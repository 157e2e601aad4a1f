//! Merges: begun under the lock, run anywhere, and finished under the lock by what came back.

ghost use Rattle.std.specs.Prelude.{◌≡◌};
ghost use Rattle.fjall_machine.specs.Shapes.{OfMergeBegin, OfMergeFinish};
ghost use Rattle.fjall_machine.specs.declared.merge_kind.MergeKind.TheVariants.{Due, Major};
ghost use Rattle.fjall_shared.specs.Does.{FinishesJob, MakesCall, begin_reply, with_begun, with_merges};

use crate::begun::Begun;
use crate::finding::find_made;
use crate::placing::blank_place;
use crate::shared::Shared;
use fjall_base::{Disk, Refused, Result};
use fjall_core::MergeMade;
use fjall_machine::MergeKind;

impl<D: Disk> Shared<D> {
    /// Begins a merge of all tables of a keyspace where it is due, and gives the job away, to be run without the lock, in any thread:
    /// what it makes is left in its place, and [`merge_finish`](Shared::merge_finish) finds it there. None where none is due, or where a
    /// merge of the keyspace is out.
    ///
    /// Refused as [`Engine::merge_begin`](fjall_core::Engine::merge_begin). A job that is lost counts as out until the database is opened
    /// again.
    pub fn merge_begin(&mut self, id: u64) -> Result<Option<Begun<MergeMade>>>
        ensures makes { MakesCall D.honest self.old (OfMergeBegin Due id) (begin_reply result) self.new }
        ensures stays { self.new ≡ with_merges (with_begun result self.old.merges) (record self.old { core = self.new.core }) }
    {
        let Some(blank) = blank_place(self.alloc, &mut self.merges) else {
            match self.core.merge_begin_without_memory(MergeKind::Due, id) {
                Ok(()) => return Ok(None),
                Err(error) => return Err(error),
            }
        };
        let job = match self.core.merge_begin(id) {
            Ok(Some(job)) => job,
            Ok(None) => return Ok(None),
            Err(error) => return Err(error),
        };
        let (out, begun) = blank.begin(job);
        self.merges.push_reserved(out);
        Ok(Some(begun))
    }

    /// The same wherever the keyspace has a table.
    pub fn major_begin(&mut self, id: u64) -> Result<Option<Begun<MergeMade>>>
        ensures makes { MakesCall D.honest self.old (OfMergeBegin Major id) (begin_reply result) self.new }
        ensures stays { self.new ≡ with_merges (with_begun result self.old.merges) (record self.old { core = self.new.core }) }
    {
        let Some(blank) = blank_place(self.alloc, &mut self.merges) else {
            match self.core.merge_begin_without_memory(MergeKind::Major, id) {
                Ok(()) => return Ok(None),
                Err(error) => return Err(error),
            }
        };
        let job = match self.core.major_begin(id) {
            Ok(Some(job)) => job,
            Ok(None) => return Ok(None),
            Err(error) => return Err(error),
        };
        let (out, begun) = blank.begin(job);
        self.merges.push_reserved(out);
        Ok(Some(begun))
    }

    /// Finishes the merge of this number by what its job made, where that came back, whoever brought it; as
    /// [`Engine::merge_finish`](fjall_core::Engine::merge_finish) does. False and refused as [`flush_finish`](Shared::flush_finish).
    pub fn merge_finish(&mut self, number: u64) -> Result<bool>
        ensures { FinishesJob D.honest OfMergeFinish self.old.merges with_merges self.old number result self.new }
    {
        let Some((place, made)) = find_made(&mut self.merges, number) else {
            return Ok(false);
        };
        match self.core.merge_finish(made) {
            Ok(done) => {
                self.merges.remove(place);
                Ok(done)
            }
            Err(Refused { error, value }) => {
                self.merges[place].hold(value);
                Err(error)
            }
        }
    }
}
