//! Which batches a journal may have.

ghost use Rattle.std.specs.Prelude.{◌≡◌, ◌+◌, map, None, IfOk, IfErr, OnOk};
ghost use Rattle.std.specs.List.{list_any};
ghost use Rattle.fjall_journal.specs.Batches.{view};
ghost use Rattle.fjall_meta.specs.Replays.{fault_of, first_fault, is_indirect, least_after, NamesFault};

use fjall_base::{Error, Result};
use fjall_journal::{Batch, ReadBatchItem, ValueType};

/// Sequence numbers lie below this one.
const SEQNO_LIMIT: u64 = 1 << 63;

/// Whether an item stands for a value elsewhere, which no journal of this format has.
fn has_indirection(items: &[ReadBatchItem]) -> bool
    ensures { result ≡ list_any is_indirect items.now }
{
    items
        .iter()
        .any(|item| item.value_type == ValueType::Indirection)
}

/// The least number that the next batch may have, where this batch may have that number or a greater one.
fn check_batch(batch: &Batch, least: u64) -> Result<u64>
    ensures ok { IfOk result (λ next. next ≡ batch.now.seqno + 1) }
    ensures sound { OnOk result (fault_of least (view batch.now) ≡ None) }
    ensures cause { IfErr result (NamesFault (fault_of least (view batch.now))) }
{
    if batch.seqno < least || batch.seqno >= SEQNO_LIMIT {
        return Err(Error::Unrecoverable);
    }
    if has_indirection(&batch.items) {
        return Err(Error::InvalidTag(("ValueType", 4)));
    }
    Ok(batch.seqno + 1)
}

/// Looks at each batch in turn, at its number first and then at its items, where the first may have the number
/// `least` or a greater one. Answers the least number that the next batch may have.
///
/// By the formats page numbers rise from batch to batch and lie below 2^63 (`Unrecoverable`), and no item has
/// the value type 4 (`InvalidTag`): the first fault is named. It takes no memory.
pub fn check_batches(batches: &[Batch], least: u64) -> Result<u64>
    ensures ok { IfOk result (λ next. next ≡ least_after least (map view batches.now)) }
    ensures sound { OnOk result (first_fault least (map view batches.now) ≡ None) }
    ensures cause { IfErr result (NamesFault (first_fault least (map view batches.now))) }
{
    let mut next = least;
    for batch in batches {
        next = check_batch(batch, next)?;
    }
    Ok(next)
}
