//! What is told at the word.

ghost use Rattle.std.specs.Prelude.{◌≡◌, ◌⊎◌, ◌+◌};
ghost use Rattle.fjall_history.specs.Histories.{number};
ghost use Rattle.fjall_shared.specs.Takings.{Grows};

use fjall_history::{CoreSeat, Saying, Word};
use std::snapshot::Snapshot;

/// Adds a command to the list, where a number was taken for it: then the word is raised by one step.
pub(crate) fn tell<B: Saying, T>(
    word: &Word,
    seat: &mut CoreSeat,
    before: u64,
    after: u64,
    said: &Snapshot<T>,
)
    requires table { seat.old.table ≡ word.now }
    requires next { before ≡ number seat.old.list }
    requires more { (after ≡ before) ⊎ (after ≡ before + 1) }
    ensures table { seat.new.table ≡ seat.old.table }
    ensures told { Grows B.said before after seat.old.list seat.new.list }
{
    let _said = said;
    if before != after {
        word.publish::<B>(seat, after);
    }
}
