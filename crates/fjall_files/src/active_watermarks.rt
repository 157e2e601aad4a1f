//! The watermarks of the active journal, which are raised with each change.

ghost use Rattle.std.specs.Prelude.{◌≡◌, [], ℕ, All, IfOk, IsOkUnless, OnOk};
ghost use Rattle.std.specs.BTreeMap.{IsOrdered};
ghost use Rattle.std.specs.Ordering.{nat_cmp};
ghost use Rattle.fjall_files.specs.Places.{HasPlace, raising, raising_all, told};

use crate::watermarks::Watermarks;
use fjall_base::{Error, Result};
use fjall_journal::BatchItem;
use std::alloc::Global;
use std::collections::BTreeMap;
use std::marker::Model;

/// The watermarks of the active journal, with places for those of keyspaces that it doesn't change yet: to raise one where a
/// place is there takes no memory, so that it can be done once the change is in the journal.
///
/// To make a place and to raise a watermark cost O(log n) in their number.
#[derive(Drop)]
pub struct ActiveWatermarks {
    lsns: BTreeMap<u64, Option<u64>>,
}

impl Model for ActiveWatermarks {
    ghost use Rattle.std.specs.Ordering.{nat_cmp};
    ghost use Rattle.std.specs.BTreeMap.{IsOrdered};
    ghost use Rattle.fjall_files.specs.Places.{JournalPlaces};

    ghost Value = { JournalPlaces };

    ghost view = { λ w. w.lsns.entries };

    ghost invariant = { λ w. IsOrdered nat_cmp w.lsns };
}

/// These watermarks, each in a place.
fn placed(alloc: Global, lsns: &BTreeMap<u64, u64>) -> Result<BTreeMap<u64, Option<u64>>>
    ensures ok { IfOk result (λ places. told places.entries ≡ lsns.now.entries) }
    ensures ordered { IfOk result (λ places. IsOrdered nat_cmp places) }
    ensures only { IsOkUnless result Error.OutOfMemory }
{
    let mut places = BTreeMap::new(alloc);
    for (keyspace_id, lsn) in lsns {
        places.insert(*keyspace_id, Some(*lsn))?;
    }
    Ok(places)
}

/// The watermarks that stand in these places.
fn told_in(alloc: Global, places: &BTreeMap<u64, Option<u64>>) -> Result<BTreeMap<u64, u64>>
    ensures ok { IfOk result (λ lsns. lsns.entries ≡ told places.now.entries) }
    ensures ordered { IfOk result (λ lsns. IsOrdered nat_cmp lsns) }
    ensures only { IsOkUnless result Error.OutOfMemory }
{
    let mut lsns = BTreeMap::new(alloc);
    for (keyspace_id, lsn) in places {
        if let Some(lsn) = lsn {
            lsns.insert(*keyspace_id, *lsn)?;
        }
    }
    Ok(lsns)
}

impl ActiveWatermarks {
    /// The watermarks of a journal without changes.
    pub fn new(alloc: Global) -> ActiveWatermarks
        ensures { result ≡ [] }
    {
        ActiveWatermarks {
            lsns: BTreeMap::new(alloc),
        }
    }

    /// Those of a journal that goes on.
    pub fn from_watermarks(alloc: Global, watermarks: &Watermarks) -> Result<ActiveWatermarks>
        ensures ok { IfOk result (λ active. told active ≡ watermarks.now) }
        ensures only { IsOkUnless result Error.OutOfMemory }
    {
        Ok(ActiveWatermarks {
            lsns: placed(alloc, &watermarks.lsns)?,
        })
    }

    /// The watermarks, as those of a sealed journal.
    pub fn to_watermarks(&self, alloc: Global) -> Result<Watermarks>
        ensures ok { IfOk result (λ watermarks. watermarks ≡ told self.now) }
        ensures only { IsOkUnless result Error.OutOfMemory }
    {
        Ok(Watermarks {
            lsns: told_in(alloc, &self.lsns)?,
        })
    }

    /// Makes a place for the watermark of a keyspace, where it has none. No watermark changes.
    pub fn make_place(&mut self, keyspace_id: u64) -> Result<()>
        ensures place { OnOk result (HasPlace self.new keyspace_id) }
        ensures kept { (id : ℕ) → HasPlace self.old id → HasPlace self.new id }
        ensures told { told self.new ≡ told self.old }
        ensures only { IsOkUnless result Error.OutOfMemory }
    {
        if !self.lsns.contains_key(&keyspace_id) {
            self.lsns.insert(keyspace_id, None)?;
        }
        Ok(())
    }

    /// Makes a place for the watermark of each keyspace that one of these items is of, by one look-up for items of one
    /// keyspace that follow one another. No watermark changes.
    pub fn make_places(&mut self, items: &[BatchItem]) -> Result<()>
        ensures places { OnOk result (All (λ item. HasPlace self.new item.0) items.now) }
        ensures told { told self.new ≡ told self.old }
        ensures only { IsOkUnless result Error.OutOfMemory }
    {
        let mut made = None;
        for item in items {
            if made != Some(item.0) {
                self.make_place(item.0)?;
                made = Some(item.0);
            }
        }
        Ok(())
    }

    /// Raises the watermark of a keyspace that has a place to at least the number of a change of it. It never falls. It takes
    /// no memory.
    pub fn raise(&mut self, keyspace_id: u64, lsn: u64)
        requires place { HasPlace self.old keyspace_id }
        ensures raised { told self.new ≡ raising lsn keyspace_id (told self.old) }
        ensures kept { (id : ℕ) → HasPlace self.old id → HasPlace self.new id }
    {
        if let Some(place) = self.lsns.get_mut(&keyspace_id) {
            *place = Some(place.unwrap_or(0).max(lsn));
        }
    }

    /// Raises the watermark of the keyspace of each of these items, which have places, to at least the number of their batch,
    /// by one look-up for items of one keyspace that follow one another. It takes no memory.
    pub fn raise_all(&mut self, items: &[BatchItem], lsn: u64)
        requires places { All (λ item. HasPlace self.old item.0) items.now }
        ensures raised { told self.new ≡ raising_all lsn items.now (told self.old) }
    {
        let mut raised = None;
        for item in items {
            if raised != Some(item.0) {
                self.raise(item.0, lsn);
                raised = Some(item.0);
            }
        }
    }
}
