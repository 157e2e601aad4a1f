//! One batch, read from the front of some bytes, which are the rest of a text, and the check that ends it.

ghost use Rattle.std.specs.Prelude.{◌≡◌, ◌++◌, ◌∷◌, [], length, ◌<◌, ◌≤◌, IfOk, IfErr, OnOk};
ghost use Rattle.std.specs.Str.{bytes_eq};
ghost use Rattle.fjall_journal.specs.Reading.{IsRestOf, entry_at};
ghost use Rattle.fjall_journal.specs.Batches.{items_of, clears_of, view};
ghost use Rattle.fjall_journal.specs.Reader.{Leads, StopsHere};
ghost use Rattle.fjall_journal.specs.Steps.{ReadsStep, or_torn, opening_at, change_at, changes_at, ending_at, closing_at, unclosed_at, batch_at, known_at};

use crate::batch::{Batch, ReadBatchItem, Stop, Tail};
use crate::decoding::entry_of;
use crate::entry::Entry;
use bytes::Bytes;
use fjall_base::{Error, JournalRecoveryError, Result, checksum};
use std::alloc::{AllocError, Global};

#[inline(always)]
fn is_same(found: &[u8; 8], sum: &[u8; 8]) -> bool
    ensures { result ≡ bytes_eq found.now sum.now }
{
    found == sum
}

#[inline(always)]
fn entry_or_torn<'a>(text: &Bytes, bytes: &'a [u8]) -> std::result::Result<(Entry, &'a [u8]), Stop>
    requires { IsRestOf text.now bytes.now }
    ensures gives { ReadsStep (λ x. (x.0, x.1.now)) result (or_torn (entry_at bytes.now)) }
    ensures shorter { IfOk result (λ x. length x.1.now < length bytes.now) }
    ensures rest { IfOk result (λ x. IsRestOf text.now x.1.now) }
{
    match entry_of(text, bytes) {
        Ok(found) => Ok(found),
        Err(Error::OutOfMemory) => Err(Stop::Memory),
        Err(_) => Err(Stop::Tail(Tail::Torn)),
    }
}

#[tactic(auto, unfolding(crate::specs::Steps::opening_at))]
#[inline(always)]
fn opening_of<'a>(
    text: &Bytes,
    bytes: &'a [u8],
) -> std::result::Result<((u32, u64), &'a [u8]), Stop>
    requires { IsRestOf text.now bytes.now }
    ensures gives { ReadsStep (λ x. (x.0, x.1.now)) result (opening_at bytes.now) }
    ensures shorter { IfOk result (λ x. length x.1.now < length bytes.now) }
    ensures rest { IfOk result (λ x. IsRestOf text.now x.1.now) }
{
    let (entry, rest) = entry_or_torn(text, bytes)?;
    match entry {
        Entry::Start { item_count, seqno } => Ok(((item_count, seqno), rest)),
        Entry::Item { .. } => Err(Stop::Tail(Tail::Torn)),
        Entry::End(_) => Err(Stop::Tail(Tail::Torn)),
        Entry::Clear { .. } => Err(Stop::Tail(Tail::Torn)),
    }
}

#[tactic(auto, unfolding(crate::specs::Steps::change_at))]
#[inline(always)]
fn change_of<'a>(text: &Bytes, bytes: &'a [u8]) -> std::result::Result<(Entry, &'a [u8]), Stop>
    requires { IsRestOf text.now bytes.now }
    ensures gives { ReadsStep (λ x. (x.0, x.1.now)) result (change_at bytes.now) }
    ensures shorter { IfOk result (λ x. length x.1.now < length bytes.now) }
    ensures rest { IfOk result (λ x. IsRestOf text.now x.1.now) }
{
    let (entry, rest) = entry_or_torn(text, bytes)?;
    match entry {
        Entry::Start { .. } => Err(Stop::Tail(Tail::Torn)),
        Entry::End(_) => Err(Stop::Tail(Tail::Damaged(JournalRecoveryError::InsufficientLength))),
        change => Ok((change, rest)),
    }
}

/// The check in the End at the front, and the bytes after it.
#[tactic(auto, unfolding(crate::specs::Steps::ending_at))]
#[inline(always)]
fn ending_of<'a>(text: &Bytes, bytes: &'a [u8]) -> std::result::Result<([u8; 8], &'a [u8]), Stop>
    requires { IsRestOf text.now bytes.now }
    ensures gives { ReadsStep (λ x. (x.0, x.1.now)) result (ending_at bytes.now) }
    ensures shorter { IfOk result (λ x. length x.1.now < length bytes.now) }
    ensures rest { IfOk result (λ x. IsRestOf text.now x.1.now) }
{
    let (entry, rest) = entry_or_torn(text, bytes)?;
    match entry {
        Entry::Start { .. } => Err(Stop::Tail(Tail::Torn)),
        Entry::End(found) => Ok((found, rest)),
        Entry::Item { .. } => Err(Stop::Tail(Tail::Damaged(JournalRecoveryError::TooManyItems))),
        Entry::Clear { .. } => Err(Stop::Tail(Tail::Damaged(JournalRecoveryError::TooManyItems))),
    }
}

#[tactic(auto, unfolding(crate::specs::Steps::closing_at))]
#[inline(always)]
fn closing_of<'a>(
    text: &Bytes,
    sum: &[u8; 8],
    bytes: &'a [u8],
) -> std::result::Result<&'a [u8], Stop>
    requires { IsRestOf text.now bytes.now }
    ensures gives { ReadsStep (λ x. x.now) result (closing_at sum.now bytes.now) }
    ensures shorter { IfOk result (λ x. length x.now < length bytes.now) }
    ensures rest { IfOk result (λ x. IsRestOf text.now x.now) }
{
    let (found, rest) = ending_of(text, bytes)?;
    if !is_same(&found, sum) {
        return Err(Stop::Tail(Tail::Damaged(JournalRecoveryError::ChecksumMismatch)));
    }
    Ok(rest)
}

/// Puts an item or a clear to its kind.
#[inline(always)]
fn put_change(
    items: &mut Vec<ReadBatchItem>,
    clears: &mut Vec<u64>,
    change: Entry,
) -> std::result::Result<(), AllocError>
    ensures items { OnOk result (items.new.items ≡ items.old.items ++ items_of (change ∷ [])) }
    ensures clears { OnOk result (clears.new.items ≡ clears.old.items ++ clears_of (change ∷ [])) }
{
    match change {
        Entry::Item {
            keyspace_id,
            key,
            value,
            value_type,
            ..
        } => items.push(ReadBatchItem {
            keyspace_id,
            key,
            value,
            value_type,
        })?,
        Entry::Clear { keyspace_id } => clears.push(keyspace_id)?,
        _ => {}
    }
    Ok(())
}

/// That many changes, apart by their kind, and the bytes after them.
#[inline(always)]
fn changes_of<'a>(
    alloc: Global,
    text: &Bytes,
    count: u32,
    bytes: &'a [u8],
) -> std::result::Result<((Vec<ReadBatchItem>, Vec<u64>), &'a [u8]), Stop>
    requires { IsRestOf text.now bytes.now }
    ensures gives { ReadsStep (λ x. ((x.0.0.items, x.0.1.items), x.1.now)) result (changes_at count bytes.now) }
    ensures shorter { IfOk result (λ x. length x.1.now ≤ length bytes.now) }
    ensures rest { IfOk result (λ x. IsRestOf text.now x.1.now) }
{
    let mut items = Vec::new(alloc);
    let mut clears = Vec::new(alloc);
    let mut rest = bytes;
    for _ in 0..count {
        let (change, after) = change_of(text, rest)?;
        put_change(&mut items, &mut clears, change)?;
        rest = after;
    }
    Ok(((items, clears), rest))
}

/// A batch up to its End, and the bytes from there.
#[tactic(auto, unfolding(crate::specs::Steps::unclosed_at))]
#[inline(always)]
fn unclosed_of<'a>(
    alloc: Global,
    text: &Bytes,
    bytes: &'a [u8],
) -> std::result::Result<(Batch, &'a [u8]), Stop>
    requires { IsRestOf text.now bytes.now }
    ensures gives { ReadsStep (λ x. (view x.0, x.1.now)) result (unclosed_at bytes.now) }
    ensures shorter { IfOk result (λ x. length x.1.now < length bytes.now) }
    ensures rest { IfOk result (λ x. IsRestOf text.now x.1.now) }
{
    let ((item_count, seqno), rest) = opening_of(text, bytes)?;
    let ((items, cleared_keyspaces), rest) = changes_of(alloc, text, item_count, rest)?;
    let batch = Batch {
        seqno,
        items,
        cleared_keyspaces,
    };
    Ok((batch, rest))
}

#[tactic(auto, unfolding(crate::specs::Steps::batch_at))]
#[inline(always)]
fn parse_batch<'a>(
    alloc: Global,
    text: &Bytes,
    bytes: &'a [u8],
) -> std::result::Result<(Batch, &'a [u8]), Stop>
    requires { IsRestOf text.now bytes.now }
    ensures gives { ReadsStep (λ x. (view x.0, x.1.now)) result (batch_at bytes.now) }
    ensures shorter { IfOk result (λ x. length x.1.now < length bytes.now) }
    ensures rest { IfOk result (λ x. IsRestOf text.now x.1.now) }
{
    if bytes.is_empty() {
        return Err(Stop::Tail(Tail::Clean));
    }
    let (batch, rest) = unclosed_of(alloc, text, bytes)?;
    let sum = checksum(&bytes[..bytes.len() - rest.len()]);
    let rest = closing_of(text, &sum, rest)?;
    Ok((batch, rest))
}

/// The batch at the front and the bytes after it, or the tail.
pub(crate) fn batch_of<'a>(
    alloc: Global,
    text: &Bytes,
    bytes: &'a [u8],
) -> std::result::Result<(Batch, &'a [u8]), Stop>
    requires { IsRestOf text.now bytes.now }
    ensures batch { IfOk result (λ x. Leads bytes.now x.0 x.1.now) }
    ensures tail { IfErr result (StopsHere bytes.now) }
    ensures rest { IfOk result (λ x. IsRestOf text.now x.1.now) }
{
    parse_batch(alloc, text, bytes)
}

/// The batch at the front and the bytes after it, where its check was taken before: it is passed over.
#[tactic(auto, unfolding(crate::specs::Steps::known_at))]
pub(crate) fn known_batch_of<'a>(
    alloc: Global,
    text: &Bytes,
    bytes: &'a [u8],
) -> std::result::Result<(Batch, &'a [u8]), Stop>
    requires { IsRestOf text.now bytes.now }
    ensures gives { ReadsStep (λ x. (view x.0, x.1.now)) result (known_at bytes.now) }
    ensures shorter { IfOk result (λ x. length x.1.now < length bytes.now) }
    ensures rest { IfOk result (λ x. IsRestOf text.now x.1.now) }
{
    let (batch, rest) = unclosed_of(alloc, text, bytes)?;
    let (_check, rest) = ending_of(text, rest)?;
    Ok((batch, rest))
}
