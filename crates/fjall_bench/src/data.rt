//! The keys and values that are written: the same in each run.

ghost use Rattle.std.specs.Prelude.{◌≡◌, IfOk, IsPermutation};
ghost use Rattle.std.specs.List.{range_with_len};

use rand::seq::SliceRandom;
use rand_pcg::Pcg64Mcg;
use sha2::{Digest, Sha256};
use std::alloc::{AllocError, Global};

/// A key has 16 bytes.
pub const KEY_LEN: usize = 16;

/// A value has 100 bytes.
pub const VALUE_LEN: usize = 100;

/// A record has 150 bytes, as many as the digest of one insert's batch is taken of; the batch has 163.
const RECORD_LEN: usize = 150;

/// The digest of one deletion's batch is taken of so many bytes.
const DELETION_LEN: usize = 50;

/// The digest of a batch of 100 inserts is taken of so many.
const BATCH_LEN: usize = 13_713;

/// The key of a number, which is twice the number. Keys are in the order of their numbers.
pub fn key_of(number: u64) -> [u8; KEY_LEN] {
    (u128::from(number) * 2).to_be_bytes()
}

/// A key that no number has, right behind that of this one.
pub fn key_behind(number: u64) -> [u8; KEY_LEN] {
    (u128::from(number) * 2 + 1).to_be_bytes()
}

/// The value of a number, which begins with it.
pub fn value_of(number: u64) -> [u8; VALUE_LEN] {
    let mut value = [0x76; VALUE_LEN];
    value[..8].copy_from_slice(&number.to_be_bytes());
    value
}

/// Whether these bytes are as many as a value has and begin as that of a number does.
pub fn is_value_of(bytes: &[u8], number: u64) -> bool {
    bytes.len() == VALUE_LEN && bytes.starts_with(&number.to_be_bytes())
}

/// The numbers below `count` in ascending order.
pub fn in_order(alloc: Global, count: u64) -> Result<Vec<u64>, AllocError>
    ensures { IfOk result (λ numbers. numbers.items ≡ range_with_len 0 count) }
{
    (0..count).collect(alloc)
}

/// The numbers below `count` in an order that is drawn from this seed.
pub fn at_random(alloc: Global, count: u64, seed: u128) -> Result<Vec<u64>, AllocError>
    ensures { IfOk result (λ numbers. IsPermutation (range_with_len 0 count) numbers.items) }
{
    let mut numbers = in_order(alloc, count)?;
    numbers.as_mut_slice().shuffle(&mut Pcg64Mcg::new(seed));
    Ok(numbers)
}

/// The record of a number, which begins with it.
pub fn record_of(number: u64) -> [u8; RECORD_LEN] {
    let mut record = [0x76; RECORD_LEN];
    record[..8].copy_from_slice(&number.to_be_bytes());
    record
}

/// What digests are taken of.
#[derive(Clone, Copy)]
pub enum Digested {
    /// Each number's record.
    Inserts,
    /// So much of it as a deletion's batch has.
    Deletions,
    /// Texts as long as those of batches, one for so many numbers.
    Batches(usize),
}

// Whether the SHA-256 of a text isn't all zeros.
fn has_digest(text: &[u8]) -> bool {
    Sha256::digest(text).iter().any(|byte| *byte != 0)
}

// How many of the numbers have a record, or so much of it, whose SHA-256 isn't all zeros.
fn count_records(numbers: &[u64], len: usize) -> u64 {
    let mut digests = 0u64;
    for number in numbers {
        let has = has_digest(record_of(*number).get(..len).unwrap_or(&[]));
        digests = digests.saturating_add(u64::from(has));
    }
    digests
}

/// Takes the SHA-256 of what stands for the numbers, and says for how many of them it isn't all zeros.
pub fn count_digests(numbers: &[u64], digested: Digested) -> u64 {
    let together = match digested {
        Digested::Inserts => return count_records(numbers, RECORD_LEN),
        Digested::Deletions => return count_records(numbers, DELETION_LEN),
        Digested::Batches(together) => together.max(1),
    };
    let text = [0x76; BATCH_LEN];
    let mut digests = 0u64;
    for batch in numbers.chunks(together) {
        let count = if has_digest(&text) {
            batch.len() as u64
        } else {
            0
        };
        digests = digests.saturating_add(count);
    }
    digests
}
