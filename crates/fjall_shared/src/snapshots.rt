//! Snapshots.

ghost use Rattle.fjall_history.specs.declared.reply.Reply.TheVariants.{Number};
ghost use Rattle.fjall_machine.specs.Shapes.{Clone, Close, Collect, OfTickets, Open};
ghost use Rattle.fjall_core.specs.CoreStanding.{reply_of, ticket_reply};
ghost use Rattle.fjall_shared.specs.Does.{Does};

use crate::shared::Shared;
use fjall_base::{Disk, Result};
use fjall_core::Ticket;

impl<D: Disk> Shared<D> {
    /// Opens a snapshot, as [`Engine::snapshot`](fjall_core::Engine::snapshot) does.
    pub fn snapshot(&mut self) -> Result<Ticket>
        ensures { Does D.honest self.old (OfTickets Open) (ticket_reply result) self.new }
    {
        self.core.snapshot()
    }

    /// Opens a snapshot that shows what another one does.
    pub fn clone_snapshot(&mut self, ticket: Ticket) -> Result<Ticket>
        ensures { Does D.honest self.old (OfTickets (Clone ticket.id)) (ticket_reply result) self.new }
    {
        self.core.clone_snapshot(ticket)
    }

    /// Closes a snapshot, or refuses with `SnapshotClosed`. It takes no memory.
    pub fn close_snapshot(&mut self, ticket: Ticket) -> Result<()>
        ensures { Does D.honest self.old (OfTickets (Close ticket.id)) (reply_of result) self.new }
    {
        self.core.close_snapshot(ticket)
    }

    /// Raises the watermark, and answers it. It takes no memory.
    pub fn gc(&mut self) -> u64
        ensures { Does D.honest self.old (OfTickets Collect) (Number result) self.new }
    {
        self.core.gc()
    }
}
