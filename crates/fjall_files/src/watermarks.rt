//! Watermarks: up to which number each keyspace has changes in a journal.

ghost use Rattle.std.specs.Prelude.{◌≡◌, [], ◌∷◌, ◌++◌, List, length, map, IfOk, IsOk, IsOkUnless, IsSome, OnErr, OnOk};
ghost use Rattle.std.specs.List.Sorted.{IsStrictlyIncreasing};
ghost use Rattle.fjall_journal.specs.Batches.{Shown, view};
ghost use Rattle.fjall_files.specs.Marks.{IsAscending, IsRaised, all_flushed, lsn_of, unflushed, watermark_of};
ghost use Rattle.fjall_files.specs.Reaching.{reaches};
ghost use Rattle.fjall_files.specs.Telling.{AreMarksOf, NoneFell};

use crate::flushed::Flushed;
use fjall_base::{Error, Result};
use fjall_journal::Batch;
use std::alloc::Global;
use std::collections::BTreeMap;
use std::marker::Model;

/// The greatest number of a change of a keyspace in a journal. Items and clears are changes.
#[derive(Clone, Copy, Debug, PartialEq, Eq)]
pub struct EvictionWatermark {
    pub keyspace_id: u64,
    pub lsn: u64,
}

/// The watermarks of one journal, one for each keyspace that it changes, by keyspace id.
///
/// To raise one and to look one up cost O(log n) in their number.
#[derive(Drop)]
pub struct Watermarks {
    pub(crate) lsns: BTreeMap<u64, u64>,
}

impl Model for Watermarks {
    ghost use Rattle.std.specs.Ordering.{nat_cmp};
    ghost use Rattle.std.specs.BTreeMap.{IsOrdered};
    ghost use Rattle.fjall_files.specs.Marks.{JournalMarks};

    ghost Value = { JournalMarks };

    ghost view = { λ w. w.lsns.entries };

    ghost invariant = { λ w. IsOrdered nat_cmp w.lsns };
}

impl Watermarks {
    /// The watermarks of a journal without changes.
    pub fn new(alloc: Global) -> Watermarks
        ensures { result ≡ [] }
    {
        Watermarks {
            lsns: BTreeMap::new(alloc),
        }
    }

    /// Raises the watermark of a keyspace to at least the number of a change of it. It never falls.
    ///
    /// `OutOfMemory` comes only where the keyspace has none yet.
    pub fn raise(&mut self, keyspace_id: u64, lsn: u64) -> Result<()>
        ensures ok { OnOk result (IsRaised keyspace_id lsn self.old self.new) }
        ensures unchanged { OnErr result (self.new ≡ self.old) }
        ensures only { IsOkUnless result Error.OutOfMemory }
        ensures present { IsSome (lsn_of self.old keyspace_id) → IsOk result }
        ensures ascending { IsAscending self.new }
    {
        let before = self.lsns.get(&keyspace_id).copied().unwrap_or(0);
        self.lsns.insert(keyspace_id, before.max(lsn))?;
        Ok(())
    }

    /// Raises the watermark of each keyspace that the batch changes to at least the batch's number.
    fn raise_batch(&mut self, batch: &Batch) -> Result<()>
        ensures ok { (front : List Shown) → AreMarksOf front self.old → OnOk result (AreMarksOf (front ++ view batch.now ∷ []) self.new) }
        ensures never_falls { NoneFell self.old self.new }
        ensures only { IsOkUnless result Error.OutOfMemory }
    {
        for item in &batch.items {
            self.raise(item.keyspace_id, batch.seqno)?;
        }
        for keyspace_id in &batch.cleared_keyspaces {
            self.raise(*keyspace_id, batch.seqno)?;
        }
        Ok(())
    }

    /// Raises the watermarks by the batches of a journal: that of each keyspace is then the greatest number of a batch that
    /// changes it, of these and of those that it told of before.
    ///
    /// Where it refuses, some may be raised.
    pub fn raise_batches(&mut self, batches: &[Batch]) -> Result<()>
        ensures ok { (front : List Shown) → AreMarksOf front self.old → OnOk result (AreMarksOf (front ++ map view batches.now) self.new) }
        ensures never_falls { NoneFell self.old self.new }
        ensures only { IsOkUnless result Error.OutOfMemory }
    {
        for batch in batches {
            self.raise_batch(batch)?;
        }
        Ok(())
    }

    /// The watermark of a keyspace, where it has one.
    pub fn get(&self, keyspace_id: u64) -> Option<u64>
        ensures lsn { result ≡ lsn_of self.now keyspace_id }
        ensures ascending { IsAscending self.now }
    {
        self.lsns.get(&keyspace_id).copied()
    }

    /// Whether one of them is this number or a greater one.
    pub fn reaches(&self, number: u64) -> bool
        ensures reaches { result ≡ reaches self.now number }
        ensures ascending { IsAscending self.now }
    {
        self.lsns.iter().any(|(_, lsn)| number <= *lsn)
    }

    /// How many keyspaces have one.
    pub fn len(&self) -> usize
        ensures { result ≡ length self.now }
    {
        self.lsns.len()
    }

    /// All of them, by keyspace id.
    pub fn to_vec(&self, alloc: Global) -> Result<Vec<EvictionWatermark>>
        ensures ok { IfOk result (λ all. all.items ≡ map watermark_of self.now) }
        ensures only { IsOkUnless result Error.OutOfMemory }
    {
        let all = self
            .lsns
            .iter()
            .map(|(keyspace_id, lsn)| EvictionWatermark {
                keyspace_id: *keyspace_id,
                lsn: *lsn,
            })
            .collect(alloc)?;
        Ok(all)
    }

    /// Whether each keyspace has been flushed up to its watermark.
    pub(crate) fn all_flushed<F: Flushed>(&self, flushed: &F) -> bool
        ensures { result ≡ all_flushed (F.flushed flushed.now) self.now }
    {
        self.lsns.iter().all(|(keyspace_id, lsn)| flushed.has_flushed(*keyspace_id, *lsn))
    }

    /// The ids of the keyspaces that haven't been flushed up to their watermarks, ascending.
    pub(crate) fn unflushed<F: Flushed>(&self, alloc: Global, flushed: &F) -> Result<Vec<u64>>
        ensures ok { IfOk result (λ ids. ids.items ≡ unflushed (F.flushed flushed.now) self.now) }
        ensures ascending { IfOk result (λ ids. IsStrictlyIncreasing ids.items) }
        ensures only { IsOkUnless result Error.OutOfMemory }
    {
        unflushed_in(&self.lsns, alloc, flushed)
    }
}

/// The keys that haven't been flushed up to their values.
fn unflushed_in<F: Flushed>(
    lsns: &BTreeMap<u64, u64>,
    alloc: Global,
    flushed: &F,
) -> Result<Vec<u64>>
    ensures ok { IfOk result (λ ids. ids.items ≡ unflushed (F.flushed flushed.now) lsns.now.entries) }
    ensures only { IsOkUnless result Error.OutOfMemory }
{
    let ids = lsns
        .iter()
        .filter(|(keyspace_id, lsn)| !flushed.has_flushed(**keyspace_id, **lsn))
        .map(|(keyspace_id, _)| *keyspace_id)
        .collect(alloc)?;
    Ok(ids)
}
