//! How a locked state begins.

ghost use Rattle.std.specs.Prelude.{◌≡◌, [], IfErr, IfOk, IsTrue};
ghost use Rattle.fjall_history.specs.Histories.{History, number};
ghost use Rattle.fjall_recovery.specs.Refusals.{IsOpeningRefusal};
ghost use Rattle.fjall_core.specs.Openings.{KeepsStore};
ghost use Rattle.fjall_core.specs.Transactions.{none_kept};
ghost use Rattle.fjall_shared.specs.Locked.{list_of};
ghost use Rattle.fjall_shared.specs.Openings.{IsLeftByEngine, IsOpenedFrom};

use crate::shared::Shared;
use fjall_base::{Disk, Error, Refused};
use fjall_core::{Config, Core};
use fjall_history::{CoreSeat, Origin, SeenSeat, Word};
use std::alloc::{AllocError, Global};
use std::marker::Brand;
use std::result;
use std::snapshot::Snapshot;
use std::sync::Arc;

// A word at the core's visible number, and the core's seat at it, which begins with a list of no commands yet: over this disk as it was.
fn seated<B: Origin, D: Disk>(
    alloc: Global,
    core: &Core<D>,
    opened: &Snapshot<D>,
) -> result::Result<(Word, CoreSeat), AllocError>
    requires { (h : History) × B.fits h × (number h ≡ core.now.engine.memory.next) }
    ensures { IfOk result (λ r. (r.1.table ≡ r.0) × B.fits r.1.list) }
{
    let _opened = opened;
    Word::open::<B>(alloc, core.visible_seqno())
}

impl<D: Disk> Shared<D> {
    /// Opens an engine on a disk, as [`Core::open`] does, and puts it beside a seat of its own; and gives a caller's seat that has seen as
    /// much. Nothing was accepted yet, nothing is kept, and nothing is out.
    ///
    /// A disk that returns what it holds is one that an engine left, or a crash. Refusals hand the disk back: those of [`Core::open`], and
    /// `OutOfMemory`, after which the disk holds the store that it held.
    pub fn open(
        alloc: Global,
        config: Config,
        disk: D,
    ) -> result::Result<(Shared<D>, SeenSeat), Refused<D>>
        requires left { IsTrue D.honest → IsLeftByEngine (D.meaning disk) }
        ensures seen { IfOk result (λ r. r.1 ≡ r.0.seat) }
        ensures begins { IfOk result (λ r. (list_of r.0).accepted ≡ []) }
        ensures rest { IfOk result (λ r. (r.0.kept ≡ none_kept) × (r.0.flushes ≡ []) × (r.0.merges ≡ [])) }
        // The store that was opened is the base that stood there with a beginning of the commands, which has at least those that were safe.
        ensures store { IsTrue D.honest → IfOk result (λ r. IsOpenedFrom (D.meaning disk) (list_of r.0).opened) }
        ensures any_moment { IsTrue D.honest → IfOk result (λ r. KeepsStore (D.meaning disk) r.0.core.disk) }
        ensures any_moment_err { IsTrue D.honest → IfErr result (λ refused. KeepsStore (D.meaning disk) (D.meaning refused.value)) }
        ensures listed { IfErr result (λ refused. IsOpeningRefusal refused.error) }
    {
        let opened = Snapshot::of(&disk);
        let core = match Core::open(alloc, config, disk) {
            Ok(core) => core,
            Err(refused) => return Err(refused),
        };
        let Ok((word, mut seat)) = seated::<Brand, D>(alloc, &core, &opened) else {
            return Err(Refused {
                error: Error::OutOfMemory,
                value: core.into_disk(),
            });
        };
        let seen = word.seat_for_caller(&mut seat);
        let Ok(word) = Arc::new(alloc, word) else {
            return Err(Refused {
                error: Error::OutOfMemory,
                value: core.into_disk(),
            });
        };
        let shared = Shared {
            alloc,
            core,
            seat,
            word,
            flushes: Vec::new(alloc),
            merges: Vec::new(alloc),
            tickets: Vec::new(alloc),
            handles: Vec::new(alloc),
        };
        Ok((shared, seen))
    }
}
