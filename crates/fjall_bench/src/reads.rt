//! Workloads that read, each of the present, and say how much they found.

use crate::data::{VALUE_LEN, is_value_of, key_behind, key_of};
use crate::rows::PAIRS_TOGETHER;
use fjall_base::{Disk, KvPair, Result, Slice};
use fjall_engine::{Engine, View};
use std::alloc::Global;
use std::ops::Bound;

/// So many pairs stand on a page that an iterator of a keyspace fetches, behind its first ones.
pub const PAGE_PAIRS: usize = 512;

/// Looks each number's key up, and says how many pairs were found.
pub fn count_hits<D: Disk>(core: &mut Engine<D>, id: u64, numbers: &[u64]) -> Result<u64> {
    let mut hits = 0u64;
    for number in numbers {
        let found = core.get_at(View::Present, id, &key_of(*number))?;
        let is_hit = found.is_some_and(|value| is_value_of(value.as_slice(), *number));
        hits = hits.saturating_add(u64::from(is_hit));
    }
    Ok(hits)
}

/// Looks the key behind each number's up, and says how many were not there.
pub fn count_misses<D: Disk>(core: &mut Engine<D>, id: u64, numbers: &[u64]) -> Result<u64> {
    let mut misses = 0u64;
    for number in numbers {
        let found = core.get_at(View::Present, id, &key_behind(*number))?;
        misses = misses.saturating_add(u64::from(found.is_none()));
    }
    Ok(misses)
}

// How many of these pairs have a value as long as all have.
fn count_whole(pairs: &[KvPair]) -> u64 {
    pairs
        .iter()
        .filter(|pair| pair.1.len() == VALUE_LEN)
        .count() as u64
}

/// Goes over all pairs, a page after another, from the start or from behind, and says how many there are.
pub fn scan<D: Disk>(core: &mut Engine<D>, id: u64, back: bool) -> Result<u64> {
    let mut found = 0u64;
    let mut range = (Bound::Unbounded, Bound::Unbounded);
    for _ in 0..u64::MAX {
        let pairs = core.page_at(View::Present, id, &range, back, PAGE_PAIRS)?;
        found = found.saturating_add(count_whole(&pairs));
        let edge = if back { pairs.first() } else { pairs.last() };
        let Some((key, _)) = edge else {
            return Ok(found);
        };
        let key = Bound::Excluded(key.clone()?);
        range = if back {
            (Bound::Unbounded, key)
        } else {
            (key, Bound::Unbounded)
        };
    }
    Ok(found)
}

/// Reads a range from each number's key on, and says how many pairs all had.
pub fn count_ranges<D: Disk>(
    alloc: Global,
    core: &mut Engine<D>,
    id: u64,
    numbers: &[u64],
) -> Result<u64> {
    let mut found = 0u64;
    for number in numbers {
        let start = Bound::Included(Slice::new(alloc, &key_of(*number))?);
        let range = (start, Bound::Unbounded);
        let pairs = core.page_at(View::Present, id, &range, false, PAIRS_TOGETHER)?;
        found = found.saturating_add(count_whole(&pairs));
    }
    Ok(found)
}
