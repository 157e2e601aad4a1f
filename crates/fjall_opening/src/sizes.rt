//! The sizes of what batches have: those that a tree takes.

ghost use Rattle.std.specs.Prelude.{◌<◌, ◌↔◌, IsTrue};
ghost use Rattle.fjall_journal.specs.Batches.{view};
ghost use Rattle.fjall_opening.specs.Opened.{HasSizes, IsFit};

use fjall_journal::{Batch, ReadBatchItem};

/// Whether the item's key and value have lengths that a journal spells.
fn has_sizes(item: &ReadBatchItem) -> bool
    ensures { IsTrue result ↔ HasSizes item.now }
{
    let key = item.key.len();
    let value = item.value.len();
    0 < key && key < 1 << 16 && value < 1 << 32
}

/// Whether all items of the batch have such lengths.
pub(crate) fn is_fit(batch: &Batch) -> bool
    ensures { IsTrue result ↔ IsFit (view batch.now) }
{
    batch.items.iter().all(has_sizes)
}
