//! Snapshots: tickets that keep a view as it is.

ghost use Rattle.std.specs.Prelude.{◌≡◌, IsTrue};
ghost use Rattle.std.specs.FinMap.{get, len};
ghost use Rattle.fjall_history.specs.declared.reply.Reply.TheVariants.{Number};
ghost use Rattle.fjall_machine.specs.Machine.{State};
ghost use Rattle.fjall_machine.specs.Shapes.{Clone, Close, Collect, OfTickets, Open};
ghost use Rattle.fjall_engine.specs.Standing.{StandsFor, Owes, Serves, reply_of, ticket_reply};

use crate::engine::Engine;
use fjall_base::{Disk, Result};
use fjall_history::Ticket;

impl<D: Disk> Engine<D> {
    /// Opens a snapshot of all that was accepted so far: the ticket's view stays as it is until it is closed, whatever comes
    /// after.
    ///
    /// Refusals: `NumbersUsedUp` where no id is left for a ticket, `OutOfMemory`. After each of them nothing has changed.
    pub fn snapshot(&mut self) -> Result<Ticket>
        ensures serves { IsTrue D.honest → Serves self.old (OfTickets Open) (ticket_reply result) self.new }
        ensures owes { Owes self.old (OfTickets Open) (ticket_reply result) self.new }
    {
        self.memory.open_ticket()
    }

    /// Opens a snapshot that shows what another one does. Each of the two is closed for itself.
    ///
    /// Refusals: `SnapshotClosed`, `NumbersUsedUp`, `OutOfMemory`. After each of them nothing has changed.
    pub fn clone_snapshot(&mut self, ticket: Ticket) -> Result<Ticket>
        ensures serves { IsTrue D.honest → Serves self.old (OfTickets (Clone ticket.id)) (ticket_reply result) self.new }
        ensures owes { Owes self.old (OfTickets (Clone ticket.id)) (ticket_reply result) self.new }
    {
        self.memory.clone_ticket(ticket.id)
    }

    /// Closes a snapshot. It takes no memory. Every ten-thousandth closing ends with [`gc`](Engine::gc).
    ///
    /// Refuses with `SnapshotClosed`, after which nothing has changed.
    pub fn close_snapshot(&mut self, ticket: Ticket) -> Result<()>
        ensures serves { IsTrue D.honest → Serves self.old (OfTickets (Close ticket.id)) (reply_of result) self.new }
        ensures owes { Owes self.old (OfTickets (Close ticket.id)) (reply_of result) self.new }
    {
        self.memory.close_ticket(ticket.id)
    }

    /// Raises the watermark to one below the least instant of an open snapshot or, with none open, the visible number, and
    /// answers it. It never falls, and takes no memory.
    pub fn gc(&mut self) -> u64
        ensures serves { IsTrue D.honest → Serves self.old (OfTickets Collect) (Number result) self.new }
        ensures owes { Owes self.old (OfTickets Collect) (Number result) self.new }
    {
        self.memory.gc()
    }

    /// The instant at which a snapshot reads, where it is open.
    pub fn instant_of(&self, ticket: Ticket) -> Option<u64>
        ensures held { result ≡ get self.now.memory.tickets.instants ticket.id }
        ensures instant { (s : State) → StandsFor self.now s → result ≡ get s.tickets.instants ticket.id }
    {
        self.memory.ticket_instant(ticket.id)
    }

    /// The watermark, as the last [`gc`](Engine::gc) left it: 0, or a number below each instant at which something reads.
    pub fn watermark(&self) -> u64
        ensures held { result ≡ self.now.memory.tickets.watermark }
        ensures watermark { (s : State) → StandsFor self.now s → result ≡ s.tickets.watermark }
    {
        self.memory.watermark()
    }

    /// How many snapshots are open.
    pub fn open_snapshots(&self) -> u64
        ensures held { result ≡ len self.now.memory.tickets.instants }
        ensures counted { (s : State) → StandsFor self.now s → result ≡ len s.tickets.instants }
    {
        self.memory.open_snapshots()
    }
}
