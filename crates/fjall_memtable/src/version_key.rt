//! Keys with numbers, in the order of a table's entries: by key ascending, then by number descending.

ghost use Rattle.std.specs.Prelude.{◌≡◌, ◌≢◌, ◌<◌, ◌^◌, length, IfOk};
ghost use Rattle.std.specs.Cmp.{partial_equiv_from_equiv, partial_order_from_total};
ghost use Rattle.std.specs.Int.{w64, to_be_bytes};
ghost use Rattle.std.specs.Cmp.Lexicographic.{slice_cmp};
ghost use Rattle.std.specs.Ordering.{nat_cmp, eq_by_cmp, as_partial_cmp};
ghost use Rattle.std.proofs.lemmas.Cmp.{eq_by_cmp_equiv};
ghost use Rattle.fjall_base.specs.Pairs.{byte_order};
ghost use Rattle.fjall_table.specs.Padded.{padded};
ghost use Rattle.fjall_memtable.specs.Stamps.{stamp_cmp, stamp_total, front_bytes};

use crate::tail::Tail;
use fjall_table::front_of;
use std::alloc::{AllocError, Global};
use std::cmp::Ordering;
use std::marker::Model;
use std::mem::size_of;

/// A key of any length and the number of a change. The key's first sixteen bytes stand in place, as two words with zeros
/// past its end, so that most comparisons read no other memory; what stands behind them takes memory of its own.
#[derive(Drop)]
pub struct VersionKey {
    first: u64,
    second: u64,
    tail: Tail,
    number: u64,
}

// Each entry of a memtable has one.
const _: () = prove!(size_of::<VersionKey>() == 40);

impl Model for VersionKey {
    ghost use Rattle.fjall_memtable.specs.Stamps.{Stamp, front_bytes, key_from, AreParts};
    ghost use Rattle.fjall_memtable.specs.Tails.{rest_of, front_len_of};

    ghost Value = { Stamp };

    ghost view = { λ k. record { key = key_from (front_bytes k.first k.second) (rest_of k.tail) (front_len_of k.tail); number = k.number } };

    ghost invariant = { λ k. AreParts (key_from (front_bytes k.first k.second) (rest_of k.tail) (front_len_of k.tail)) (front_bytes k.first k.second) (rest_of k.tail) (front_len_of k.tail) };
}

/// The number that eight bytes spell, the greatest first.
fn word_of(bytes: &[u8]) -> u64
    requires { length bytes.now ≡ 8 }
    ensures { to_be_bytes w64 result ≡ bytes.now }
{
    match bytes.first_chunk::<8>() {
        Some(chunk) => u64::from_be_bytes(*chunk),
        None => 0,
    }
}

fn words_of(key: &[u8]) -> (u64, u64)
    ensures { front_bytes result.0 result.1 ≡ padded 16 key.now }
{
    let front = front_of(key).to_be_bytes();
    let (high, low) = front.split_at(8);
    (word_of(high), word_of(low))
}

// As branches, which are foretold where keys come in order.
fn unequal(word: u64, other: u64) -> Ordering
    requires { word ≢ other }
    ensures { result ≡ nat_cmp word other }
{
    if word < other {
        return Ordering::Less;
    }
    Ordering::Greater
}

fn compare_fronts(first: u64, second: u64, other_first: u64, other_second: u64) -> Ordering
    ensures { result ≡ slice_cmp nat_cmp (front_bytes first second) (front_bytes other_first other_second) }
{
    if first != other_first {
        return unequal(first, other_first);
    }
    if second != other_second {
        return unequal(second, other_second);
    }
    Ordering::Equal
}

impl VersionKey {
    pub fn new(alloc: Global, key: &[u8], number: u64) -> Result<VersionKey, AllocError>
        ensures key { IfOk result (λ k. k.key ≡ key.now) }
        ensures number { IfOk result (λ k. k.number ≡ number) }
    {
        let tail = Tail::new(alloc, key)?;
        let (first, second) = words_of(key);
        Ok(VersionKey {
            first,
            second,
            tail,
            number,
        })
    }

    /// How the keys compare, byte by byte, a beginning first.
    pub fn compare_keys(&self, other: &VersionKey) -> Ordering
        ensures { result ≡ byte_order self.now.key other.now.key }
    {
        match compare_fronts(self.first, self.second, other.first, other.second) {
            Ordering::Less => Ordering::Less,
            Ordering::Greater => Ordering::Greater,
            Ordering::Equal => self.tail.compare(&other.tail),
        }
    }

    pub fn number(&self) -> u64
        ensures { result ≡ self.now.number }
    {
        self.number
    }
}

impl PartialEq for VersionKey {
    ghost eq = { eq_by_cmp stamp_cmp };

    ghost laws = { partial_equiv_from_equiv (eq_by_cmp_equiv stamp_total) };

    fn eq(&self, other: &VersionKey) -> bool {
        match self.cmp(other) {
            Ordering::Equal => true,
            _ => false,
        }
    }
}

impl Eq for VersionKey {
    ghost laws = { eq_by_cmp_equiv stamp_total };
}

impl PartialOrd for VersionKey {
    ghost partial_cmp = { as_partial_cmp stamp_cmp };

    ghost laws = { partial_order_from_total stamp_total };

    fn partial_cmp(&self, other: &VersionKey) -> Option<Ordering> {
        Some(self.cmp(other))
    }
}

impl Ord for VersionKey {
    ghost cmp = { stamp_cmp };

    ghost total = { stamp_total };

    ghost matches_partial_cmp = { λ x y i. as_partial_cmp stamp_cmp x y };

    ghost matches_eq = { λ x y i. eq_by_cmp stamp_cmp x y };

    fn cmp(&self, other: &VersionKey) -> Ordering {
        match self.compare_keys(other) {
            Ordering::Less => Ordering::Less,
            Ordering::Greater => Ordering::Greater,
            Ordering::Equal => other.number.cmp(&self.number),
        }
    }
}
