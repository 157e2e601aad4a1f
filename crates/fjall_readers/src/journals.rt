//! Journals.

ghost use Rattle.std.specs.Prelude.{ℕ, List, length};
ghost use Rattle.fjall_journal.specs.Batches.{Written, IsWhole};
ghost use Rattle.fjall_readers.specs.Answers.{Tells};

use crate::answer::refusal;
use crate::parts::parts_of;
use fjall_base::{Result, checksum};
use fjall_journal::{Entry, read_journal};
use std::alloc::Global;

/// Reads a journal's bytes. It answers how many whole batches stand at the front.
#[unsafe(no_mangle)]
pub extern "C" fn fjall_read_journal(alloc: Global, text: &[u8]) -> u64
    ensures { (bs : List Written) (end : ℕ) → IsWhole text.now bs end → Tells result (length bs) }
{
    match read_journal(alloc, text) {
        Ok(contents) => contents.batches.len() as u64,
        Err(error) => refusal(&error),
    }
}

/// Adds a batch of this number: a `Start` that counts what the first byte says, the other bytes, and an `End` with a right check.
fn put_batch(out: &mut Vec<u8>, number: u64, part: &[u8]) -> Result<()> {
    let Some((count, entries)) = part.split_first() else {
        return Ok(());
    };
    let before = out.len();
    let start = Entry::Start {
        item_count: u32::from(*count),
        seqno: number,
    };
    start.encode_into(out)?;
    out.extend_from_slice(entries)?;
    Entry::End(checksum(&out[before..])).encode_into(out)
}

/// The journal whose batches hold these parts.
fn journal_of(alloc: Global, parts: &[&[u8]]) -> Result<Vec<u8>> {
    let mut text = Vec::new(alloc);
    for (number, part) in parts.iter().enumerate() {
        put_batch(&mut text, number as u64, part)?;
    }
    Ok(text)
}

/// Reads the journal whose batches hold the parts of the input, behind right checks. It answers as for a journal's bytes.
#[unsafe(no_mangle)]
pub extern "C" fn fjall_read_batches(alloc: Global, input: &[u8]) -> u64 {
    let parts = match parts_of(alloc, input) {
        Ok(parts) => parts,
        Err(error) => return refusal(&error),
    };
    match journal_of(alloc, &parts) {
        Ok(text) => fjall_read_journal(alloc, &text),
        Err(error) => refusal(&error),
    }
}
