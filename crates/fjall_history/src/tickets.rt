//! The open tickets of an engine.

ghost use Rattle.std.specs.Prelude.{◌≡◌, ◌+◌, ◌-◌, ◌<◌, ◌≤◌, ◌^◌, ℕ, All, None, Some, IfErr, OnErr, OnOk, IfOk};
ghost use Rattle.std.specs.FinMap.{get, len, values};
ghost use Rattle.fjall_history.specs.Tickets.{IsDueOrMemory, Tracked, closed, closing_refusal, cloning_refusal, collected, ids_used_up, is_open, no_tickets, opened, opening_refusal};

use crate::snapshot_tracker::SnapshotTracker;
use crate::ticket::Ticket;
use fjall_base::{Error, Result};
use std::alloc::Global;
use std::collections::BTreeMap;
use std::marker::Model;

/// The open tickets of an engine, each with the instant at which it reads; the visible number, at which new ones read; and
/// the watermark, below which none reads.
///
/// Opening, closing and the watermark cost O(log n) in the number of open tickets.
#[derive(Drop)]
pub struct Tickets {
    tracker: SnapshotTracker,
    instants: BTreeMap<u64, u64>,
    next: u64,
}

impl Model for Tickets {
    ghost use Rattle.std.specs.Coded.{codes};
    ghost use Rattle.std.specs.FinMap.{from_entries};
    ghost use Rattle.fjall_history.specs.Tickets.{AreTracked, Tracked, instants_code, tracked};

    ghost Value = { Tracked };

    ghost coded = { Prim.hlevel (codes, instants_code) };

    ghost view = { λ m. tracked m.tracker (from_entries m.instants.entries) m.next };

    ghost invariant = { λ m. AreTracked m.tracker (from_entries m.instants.entries) m.next };
}

impl Tickets {
    /// No ticket was given out yet, and this is the visible number.
    pub fn new(alloc: Global, visible: u64) -> Tickets
        ensures { result ≡ record { visible = visible; tickets = no_tickets } }
    {
        let mut tracker = SnapshotTracker::new(alloc);
        tracker.set(visible);
        Tickets {
            tracker,
            instants: BTreeMap::new(alloc),
            next: 0,
        }
    }

    /// The visible number: one past the last write that was published, and the instant of the next snapshot.
    pub fn seqno(&self) -> u64
        ensures visible { result ≡ self.now.visible }
        ensures reached { (id instant : ℕ) → get self.now.tickets.instants id ≡ Some instant → instant ≤ self.now.visible }
        ensures given { (id instant : ℕ) → get self.now.tickets.instants id ≡ Some instant → id < self.now.tickets.next }
    {
        self.tracker.get()
    }

    /// Makes one write more visible.
    pub fn publish(&mut self)
        requires { self.old.visible < 2 ^ 63 }
        ensures { self.new ≡ record self.old { visible = self.old.visible + 1 } }
    {
        let number = self.tracker.get();
        self.tracker.publish(number);
    }

    /// Takes back the write that was made visible last, where no ticket reads there yet: it was not done after all.
    pub fn retract(&mut self)
        requires raised { 0 < self.old.visible }
        requires unread { All (λ instant. instant < self.old.visible) (values self.old.tickets.instants) }
        requires spared { 0 < self.old.tickets.watermark → self.old.tickets.watermark + 1 < self.old.visible }
        ensures { self.new ≡ record self.old { visible = self.old.visible - 1 } }
    {
        self.tracker.retract();
    }

    /// The watermark: 0, or a number below every open instant and the visible number.
    pub fn watermark(&self) -> u64
        ensures value { result ≡ self.now.tickets.watermark }
        ensures behind { 0 < result → result < self.now.visible }
        ensures spared { (id instant : ℕ) → get self.now.tickets.instants id ≡ Some instant → 0 < result → result < instant }
    {
        self.tracker.get_seqno_safe_to_gc()
    }

    /// How many tickets are open.
    pub fn open_snapshots(&self) -> u64
        ensures { result ≡ len self.now.tickets.instants }
    {
        self.tracker.open_snapshots()
    }

    /// The instant at which the ticket of this id reads, where it is open.
    pub fn instant_of(&self, id: u64) -> Option<u64>
        ensures { result ≡ get self.now.tickets.instants id }
    {
        self.instants.get(&id).copied()
    }

    /// Whether the ticket of this id is open.
    pub fn is_open(&self, id: u64) -> bool
        ensures { result ≡ is_open self.now.tickets id }
    {
        self.instant_of(id).is_some()
    }

    /// Whether no id is left for another ticket.
    pub fn are_ids_used_up(&self) -> bool
        ensures { result ≡ ids_used_up self.now.tickets }
    {
        self.next == u64::MAX
    }
}

impl Tickets {
    /// Opens a ticket at the visible number.
    ///
    /// Refusals, which leave all as it was: `NumbersUsedUp` where no id is left, `OutOfMemory`.
    pub fn open(&mut self) -> Result<Ticket>
        ensures due { OnOk result (opening_refusal self.old.tickets ≡ None) }
        ensures ok { IfOk result (λ ticket. ticket ≡ record { id = self.old.tickets.next; instant = self.old.visible }) }
        ensures opened { OnOk result (self.new ≡ record self.old { tickets = opened self.old.visible self.old.tickets }) }
        ensures unchanged { OnErr result (self.new ≡ self.old) }
        ensures cause { IfErr result (IsDueOrMemory (opening_refusal self.old.tickets)) }
    {
        if self.are_ids_used_up() {
            return Err(Error::NumbersUsedUp);
        }
        let (id, instant) = (self.next, self.tracker.get());
        self.instants.insert(id, instant)?;
        if let Err(error) = self.tracker.open() {
            self.instants.remove(&id);
            return Err(error);
        }
        self.next += 1;
        Ok(Ticket { id, instant })
    }

    /// Opens a ticket at the instant of the open one of this id.
    ///
    /// Refusals, which leave all as it was: `SnapshotClosed` where it isn't open, `NumbersUsedUp` where no id is left,
    /// `OutOfMemory`.
    pub fn clone_ticket(&mut self, id: u64) -> Result<Ticket>
        ensures due { OnOk result (cloning_refusal id self.old.tickets ≡ None) }
        ensures ok { IfOk result (λ ticket. (ticket.id ≡ self.old.tickets.next) × (get self.old.tickets.instants id ≡ Some ticket.instant)
            × (self.new ≡ record self.old { tickets = opened ticket.instant self.old.tickets })) }
        ensures unchanged { OnErr result (self.new ≡ self.old) }
        ensures cause { IfErr result (IsDueOrMemory (cloning_refusal id self.old.tickets)) }
    {
        let Some(instant) = self.instant_of(id) else {
            return Err(Error::SnapshotClosed);
        };
        if self.are_ids_used_up() {
            return Err(Error::NumbersUsedUp);
        }
        let id = self.next;
        self.instants.insert(id, instant)?;
        if let Err(error) = self.tracker.clone_snapshot(instant) {
            self.instants.remove(&id);
            return Err(error);
        }
        self.next += 1;
        Ok(Ticket { id, instant })
    }

    /// Closes the ticket of this id. It takes no memory. Every ten-thousandth closing ends with [`gc`](Self::gc).
    ///
    /// Refuses with `SnapshotClosed` where it isn't open, and then all is as it was.
    pub fn close(&mut self, id: u64) -> Result<()>
        ensures due { OnOk result (closing_refusal id self.old.tickets ≡ None) }
        ensures ok { OnOk result (self.new ≡ record self.old { tickets = closed self.old.visible id self.old.tickets }) }
        ensures unchanged { OnErr result (self.new ≡ self.old) }
        ensures cause { IfErr result (λ error. closing_refusal id self.old.tickets ≡ Some error) }
    {
        let Some(instant) = self.instants.remove(&id) else {
            return Err(Error::SnapshotClosed);
        };
        self.tracker.close(instant);
        Ok(())
    }

    /// Raises the watermark to one below the least open instant or, with none open, the visible number: to 0 where that is
    /// 0. It never falls. Answers the watermark.
    pub fn gc(&mut self) -> u64
        ensures raised { self.new ≡ record self.old { tickets = collected self.old.visible self.old.tickets } }
        ensures watermark { result ≡ self.new.tickets.watermark }
    {
        self.tracker.gc();
        self.tracker.get_seqno_safe_to_gc()
    }
}
