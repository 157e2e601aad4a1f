//! A journal of a folder that an opening refuses.

ghost use Rattle.std.specs.Prelude.{IsOkUnless};

use crate::report::{Fault, add_fault};
use bytes::Bytes;
use fjall_base::{Error, Result};
use fjall_journal::{Batch, JournalBatchReader, Tail, next_batch};
use fjall_meta::check_batches;
use std::alloc::Global;
use std::slice;

/// Looks at a batch that stands at this place, whose number may be that one or a greater one: one that is out of order, or has an
/// item of no type, is a fault. Answers the least number that the next batch may have.
fn look_at_batch(
    alloc: Global,
    file: &str,
    batch: &Batch,
    place: usize,
    least: u64,
    faults: &mut Vec<Fault>,
) -> Result<u64>
    ensures only { IsOkUnless result Error.OutOfMemory }
{
    match check_batches(slice::from_ref(batch), least) {
        Ok(next) => Ok(next),
        Err(error) => {
            add_fault(alloc, faults, file, Some(place as u64), error)?;
            Ok(least)
        }
    }
}

/// Looks through a journal's text, whose first batch may have that number or a greater one: each batch that is out of order is a
/// fault, and so is a damage behind the whole batches, and a torn tail of a journal that isn't active. Answers the least number
/// that the next journal's first batch may have.
pub(crate) fn look_at_journal(
    alloc: Global,
    file: &str,
    text: &Bytes,
    is_active: bool,
    mut least: u64,
    faults: &mut Vec<Fault>,
) -> Result<u64>
    ensures only { IsOkUnless result Error.OutOfMemory }
{
    let mut reader = JournalBatchReader::new(alloc, text);
    let mut place = 0;
    loop {
        match next_batch(&mut reader) {
            Some(Ok(batch)) => {
                least = look_at_batch(alloc, file, &batch, place, least, faults)?;
                place = reader.end();
            }
            Some(Err(Error::JournalRecovery(damage))) => {
                let error = Error::JournalRecovery(damage);
                add_fault(alloc, faults, file, Some(place as u64), error)?;
            }
            Some(Err(error)) => return Err(error),
            None => break,
        }
    }
    if !is_active && reader.tail() == Tail::Torn {
        add_fault(
            alloc,
            faults,
            file,
            Some(place as u64),
            Error::Unrecoverable,
        )?;
    }
    Ok(least)
}
