//! A journal's text as a whole.

ghost use Rattle.std.specs.Prelude.{◌≡◌, ℕ, List, drop, map, IfOk, IsOkUnless};
ghost use Rattle.fjall_journal.specs.Batches.{view, shown, Written, IsWhole, IsTail};
ghost use Rattle.fjall_journal.specs.Reader.{Next};

use crate::batch::{Batch, Tail};
use crate::batch_reader::JournalBatchReader;
use bytes::Bytes;
use fjall_base::{Error, Result};
use std::alloc::Global;

/// What a journal's text holds.
#[derive(Drop)]
pub struct Contents {
    /// The whole batches at its front, in order.
    pub batches: Vec<Batch>,
    /// Where they end.
    pub end: usize,
    /// What stands there.
    pub tail: Tail,
}

/// The reader's `next`. A loop that calls it by this name ends by a measure of its own: a reader alone isn't known to
/// end, since it can be called again for want of memory.
pub fn next_batch(reader: &mut JournalBatchReader<'_>) -> Option<Result<Batch>>
    ensures { Next reader.old result reader.new }
{
    reader.next()
}

/// Reads a journal's text, which is copied once. Only memory may be missing: a damage is no error here, but a tail.
pub fn read_journal(alloc: Global, text: &[u8]) -> Result<Contents>
    // The batches stand at the front, up to the end, and no batch stands there.
    ensures whole { IfOk result (λ c. (bs : List Written) × (map view c.batches.items ≡ map shown bs) × IsWhole text.now bs c.end) }
    // The tail is what stands there.
    ensures tail { IfOk result (λ c. IsTail (drop c.end text.now) c.tail) }
    // No other batches stand there.
    ensures only { IfOk result (λ c. (bs : List Written) (end : ℕ) → IsWhole text.now bs end → (map shown bs ≡ map view c.batches.items) × (end ≡ c.end)) }
    ensures cause { IsOkUnless result Error.OutOfMemory }
{
    let mut batches = Vec::new(alloc);
    let shared = Bytes::copy_from_slice(alloc, text)?;
    let mut reader = JournalBatchReader::new(alloc, &shared);
    loop {
        match next_batch(&mut reader) {
            Some(Ok(batch)) => batches.push(batch)?,
            Some(Err(Error::JournalRecovery(_))) => {}
            Some(Err(error)) => return Err(error),
            None => {
                return Ok(Contents {
                    batches,
                    end: reader.end(),
                    tail: reader.tail(),
                });
            }
        }
    }
}
