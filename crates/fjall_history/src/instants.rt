//! A multiset of instants: how often each is open.

ghost use Rattle.std.specs.Prelude.{◌≡◌, ◌^◌, ◌-◌, ◌<◌, [], length, OnOk, OnErr, IfErr, slice_get};
ghost use Rattle.fjall_history.specs.Trackers.{with_instant, without_instant, is_open, instant_count, IsSnapshotRefusal};

use fjall_base::{Error, Result};
use std::alloc::Global;
use std::collections::BTreeMap;
use std::marker::Model;

/// The instants of the open snapshots, each with how often it is open.
#[derive(Drop)]
pub(crate) struct Instants {
    counts: BTreeMap<u64, u64>,
    total: u64,
}

impl Model for Instants {
    ghost use Rattle.std.specs.Prelude.{◌≡◌, ◌<◌, List, ℕ, length};
    ghost use Rattle.std.specs.List.{All};
    ghost use Rattle.std.specs.BTreeMap.{values};
    ghost use Rattle.fjall_history.specs.Trackers.{instants_of};

    ghost Value = { List ℕ };

    ghost view = { λ a. instants_of a.counts.entries };

    ghost invariant = { λ a. All (λ n. 0 < n) (values a.counts) × (a.total ≡ length (instants_of a.counts.entries)) };
}

impl Instants {
    /// No instant is open.
    pub(crate) fn new(alloc: Global) -> Instants
        ensures { result ≡ [] }
    {
        Instants {
            counts: BTreeMap::new(alloc),
            total: 0,
        }
    }

    /// Whether some snapshot is open at `instant`.
    pub(crate) fn contains(&self, instant: u64) -> bool
        ensures { result ≡ is_open instant self.now }
    {
        self.counts.contains_key(&instant)
    }

    /// How many snapshots are open.
    pub(crate) fn total(&self) -> u64
        ensures { result ≡ length self.now }
    {
        self.total
    }

    /// How many instants are open, each counted once.
    pub(crate) fn len(&self) -> usize
        ensures { result ≡ instant_count self.now }
    {
        self.counts.len()
    }

    /// The least open instant.
    pub(crate) fn least(&self) -> Option<u64>
        ensures { result ≡ slice_get self.now 0 }
    {
        let (instant, _) = self.counts.first_key_value()?;
        Some(*instant)
    }

    /// Opens `instant` once more. Refuses with `NumbersUsedUp` beyond 2^64 - 1 open snapshots, else
    /// with `OutOfMemory` where the instant isn't open yet and memory for it is wanting.
    pub(crate) fn add(&mut self, instant: u64) -> Result<()>
        ensures ok { OnOk result (self.new ≡ with_instant instant self.old) }
        ensures room { OnOk result (length self.old < 2 ^ 64 - 1) }
        ensures unchanged { OnErr result (self.new ≡ self.old) }
        ensures cause { IfErr result (IsSnapshotRefusal instant self.old) }
    {
        let Some(total) = self.total.checked_add(1) else {
            return Err(Error::NumbersUsedUp);
        };
        let count = self.counts.get(&instant).copied().unwrap_or(0);
        self.counts.insert(instant, count + 1)?;
        self.total = total;
        Ok(())
    }

    /// Closes `instant` once, and says whether it was open.
    pub(crate) fn remove(&mut self, instant: u64) -> bool
        ensures was_open { result ≡ is_open instant self.old }
        ensures removed { self.new ≡ without_instant instant self.old }
    {
        let Some(count) = self.counts.get_mut(&instant) else {
            return false;
        };
        *count -= 1;
        self.total -= 1;
        if *count == 0 {
            self.counts.remove(&instant);
        }
        true
    }
}
