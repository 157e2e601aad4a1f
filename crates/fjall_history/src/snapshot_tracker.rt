//! Which snapshots are open, and below which number no snapshot reads.

ghost use Rattle.std.specs.Prelude.{◌≡◌, ◌+◌, ◌-◌, ◌<◌, ◌^◌, [], true, length, All, IfOk, OnOk, OnErr, IfErr};
ghost use Rattle.fjall_history.specs.Trackers.{fresh_tracker, is_open, instant_count, after_opening, after_closing, after_gc, after_raise, IsSoundTracker, IsSnapshotRefusal, IsCloningRefusal};

use crate::instants::Instants;
use fjall_base::{Error, Result};
use std::alloc::Global;
use std::marker::Model;

/// The number of a write, or an instant: a view at an instant shows the writes numbered below it.
pub type SeqNo = u64;

/// After so many closings the watermark is raised.
const CLOSINGS_PER_GC: u64 = 10_000;

/// The open snapshots, the number that new ones see, and the watermark: flushes and merges may
/// forget versions that were hidden at it, since no open snapshot reads there.
///
/// Opening, closing and the least open instant cost O(log n) in the number of open instants.
#[derive(Drop)]
pub struct SnapshotTracker {
    instants: Instants,
    visible: SeqNo,
    watermark: SeqNo,
    closings: u64,
}

impl Model for SnapshotTracker {
    ghost use Rattle.fjall_history.specs.Trackers.{Tracker, IsSoundTracker};

    ghost Value = { Tracker };

    ghost view = { λ a. record { instants = a.instants; visible = a.visible; watermark = a.watermark; closings = a.closings } };

    ghost invariant = { λ a. IsSoundTracker (record { instants = a.instants; visible = a.visible; watermark = a.watermark; closings = a.closings }) };
}

impl SnapshotTracker {
    /// A tracker with no open snapshot, at the visible number 0.
    pub fn new(alloc: Global) -> SnapshotTracker
        ensures fresh { result ≡ fresh_tracker }
        ensures sound { IsSoundTracker result }
    {
        SnapshotTracker {
            instants: Instants::new(alloc),
            visible: 0,
            watermark: 0,
            closings: 0,
        }
    }

    /// Opens a snapshot at the visible number and answers that instant.
    ///
    /// Refuses with `NumbersUsedUp` beyond 2^64 - 1 open snapshots, else with `OutOfMemory`
    /// where the instant isn't open yet and memory for it is wanting.
    pub fn open(&mut self) -> Result<SeqNo>
        ensures instant { IfOk result (λ instant. instant ≡ self.old.visible) }
        ensures opened { OnOk result (self.new ≡ after_opening self.old.visible self.old) }
        ensures room { OnOk result (length self.old.instants < 2 ^ 64 - 1) }
        ensures unchanged { OnErr result (self.new ≡ self.old) }
        ensures cause { IfErr result (IsSnapshotRefusal self.old.visible self.old.instants) }
        ensures sound { IsSoundTracker self.new }
    {
        self.instants.add(self.visible)?;
        Ok(self.visible)
    }

    /// Opens a snapshot at an open instant once more and answers the instant. Takes no memory.
    ///
    /// Refuses with `SnapshotClosed` where no snapshot is open at `instant`, else with
    /// `NumbersUsedUp` beyond 2^64 - 1 open snapshots.
    pub fn clone_snapshot(&mut self, instant: SeqNo) -> Result<SeqNo>
        ensures instant { IfOk result (λ same. same ≡ instant) }
        ensures opened { OnOk result (self.new ≡ after_opening instant self.old) }
        ensures was_open { OnOk result (is_open instant self.old.instants ≡ true) }
        ensures room { OnOk result (length self.old.instants < 2 ^ 64 - 1) }
        ensures unchanged { OnErr result (self.new ≡ self.old) }
        ensures cause { IfErr result (IsCloningRefusal instant self.old.instants) }
        ensures sound { IsSoundTracker self.new }
    {
        if !self.instants.contains(instant) {
            return Err(Error::SnapshotClosed);
        }
        self.instants.add(instant)?;
        Ok(instant)
    }

    /// Closes one snapshot at `instant`; where none is open there, nothing changes.
    /// Every 10,000th closing ends with [`gc`](Self::gc).
    pub fn close(&mut self, instant: SeqNo)
        ensures closed { self.new ≡ after_closing instant self.old }
        ensures sound { IsSoundTracker self.new }
    {
        if !self.instants.remove(instant) {
            return;
        }
        self.closings += 1;
        if self.closings == CLOSINGS_PER_GC {
            self.closings = 0;
            self.gc();
        }
    }

    /// Makes the write of this number visible: raises the visible number to at least `number + 1`.
    pub fn publish(&mut self, number: SeqNo)
        requires { number < 2 ^ 63 }
        ensures raised { self.new ≡ after_raise (number + 1) self.old }
        ensures sound { IsSoundTracker self.new }
    {
        self.set(number + 1);
    }

    /// Takes the visible number back by one, where no snapshot has read there yet: the write that was made visible last was
    /// not done after all.
    pub fn retract(&mut self)
        requires raised { 0 < self.old.visible }
        requires unread { All (λ i. i < self.old.visible) self.old.instants }
        requires spared { 0 < self.old.watermark → self.old.watermark + 1 < self.old.visible }
        ensures retracted { self.new ≡ record self.old { visible = self.old.visible - 1 } }
        ensures sound { IsSoundTracker self.new }
    {
        self.visible -= 1;
    }

    /// Raises the visible number to at least `number`.
    pub fn set(&mut self, number: SeqNo)
        ensures raised { self.new ≡ after_raise number self.old }
        ensures sound { IsSoundTracker self.new }
    {
        self.visible = self.visible.max(number);
    }

    /// The visible number, which is the instant of the next snapshot.
    pub fn get(&self) -> SeqNo
        ensures visible { result ≡ self.now.visible }
        ensures sound { IsSoundTracker self.now }
    {
        self.visible
    }

    /// Raises the watermark to one below the least open instant, or with none open to one below
    /// the visible number; at instant 0 to 0. It never falls.
    pub fn gc(&mut self)
        ensures raised { self.new ≡ after_gc self.old }
        ensures sound { IsSoundTracker self.new }
    {
        let oldest = self.instants.least().unwrap_or(self.visible);
        self.watermark = self.watermark.max(oldest.saturating_sub(1));
    }

    /// Does what [`gc`](Self::gc) does where no snapshot is open, else nothing.
    pub fn pullup(&mut self)
        ensures raised { self.old.instants ≡ [] → self.new ≡ after_gc self.old }
        ensures unchanged { 0 < length self.old.instants → self.new ≡ self.old }
        ensures sound { IsSoundTracker self.new }
    {
        if self.open_snapshots() == 0 {
            self.gc();
        }
    }

    /// How many snapshots are open.
    pub fn open_snapshots(&self) -> u64
        ensures count { result ≡ length self.now.instants }
        ensures sound { IsSoundTracker self.now }
    {
        self.instants.total()
    }

    /// How many instants are open, each counted once.
    pub fn len(&self) -> usize
        ensures count { result ≡ instant_count self.now.instants }
        ensures sound { IsSoundTracker self.now }
    {
        self.instants.len()
    }

    /// The watermark: 0, or a number below every open instant and the visible number.
    pub fn get_seqno_safe_to_gc(&self) -> SeqNo
        ensures watermark { result ≡ self.now.watermark }
        ensures sound { IsSoundTracker self.now }
    {
        self.watermark
    }
}
