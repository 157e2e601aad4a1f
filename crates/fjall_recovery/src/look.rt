//! One journal, looked through batch by batch.

ghost use Rattle.std.specs.Prelude.{IfOk, IsOkUnless, ℕ, List, [], ◌∷◌, ◌++◌};
ghost use Rattle.fjall_journal.specs.Batches.{Shown, view};
ghost use Rattle.fjall_recovery.specs.Looks.{AreChecked, IsLook};

use bytes::Bytes;
use fjall_base::{Error, Result};
use fjall_files::Watermarks;
use fjall_journal::{Batch, JournalBatchReader, Tail, next_batch};
use fjall_meta::check_batches;
use std::alloc::Global;
use std::slice;

/// What a look through a journal finds.
#[derive(Drop)]
pub(crate) struct Look {
    /// The least number that a next batch may have, or what the first fault of its batches is refused with.
    pub checked: Result<u64>,
    /// Up to which number each keyspace has changes in it.
    pub watermarks: Watermarks,
    /// Where its whole batches end.
    pub end: usize,
    /// What stands there.
    pub tail: Tail,
}

/// What is found once one batch more was looked at: the first fault stays.
fn checked_with(checked: Result<u64>, batch: &Batch) -> Result<u64>
    ensures { (least : ℕ) (front : List Shown) → AreChecked least front checked → AreChecked least (front ++ view batch.now ∷ []) result }
{
    check_batches(slice::from_ref(batch), checked?)
}

/// Looks through a journal's text, whose first batch may have that number or a greater one. One batch at a time is in memory.
/// Only memory may be missing.
pub(crate) fn look_through(alloc: Global, text: &Bytes, least: u64) -> Result<Look>
    ensures looks { IfOk result (IsLook text.now least) }
    ensures only { IsOkUnless result Error.OutOfMemory }
{
    let mut watermarks = Watermarks::new(alloc);
    let mut checked = Ok(least);
    let mut reader = JournalBatchReader::new(alloc, text);
    loop {
        match next_batch(&mut reader) {
            Some(Ok(batch)) => {
                watermarks.raise_batches(slice::from_ref(&batch))?;
                checked = checked_with(checked, &batch);
            }
            Some(Err(Error::JournalRecovery(_))) => {}
            Some(Err(error)) => return Err(error),
            None => {
                return Ok(Look {
                    checked,
                    watermarks,
                    end: reader.end(),
                    tail: reader.tail(),
                });
            }
        }
    }
}
