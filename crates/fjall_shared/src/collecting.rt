//! What handles that were dropped leave to be given up.

ghost use Rattle.std.specs.Prelude.{◌≡◌};
ghost use Rattle.fjall_shared.specs.Does.{ClosesTickets, Collects};

use crate::flags::Flag;
use crate::shared::Shared;
use fjall_base::{Disk, Error};
use fjall_core::Ticket;
use std::alloc::AllocError;

// The first whose flag is raised, which is taken out of the list.
fn take_raised<T>(watched: &mut Vec<(T, Flag)>) -> Option<(T, Flag)> {
    let place = watched.iter().position(|one| one.1.is_raised())?;
    Some(watched.swap_remove(place))
}

impl<D: Disk> Shared<D> {
    /// Has a ticket, a snapshot's or a transaction's, closed by who collects once its flag is raised.
    pub fn watch_ticket(&mut self, ticket: Ticket, flag: Flag) -> Result<(), AllocError>
        ensures { self.new ≡ self.old }
    {
        self.tickets.push((ticket, flag))?;
        Ok(())
    }

    /// Has a handle of a keyspace, which is counted, released by who collects once its flag is raised.
    pub fn watch_handle(&mut self, id: u64, flag: Flag) -> Result<(), AllocError>
        ensures { self.new ≡ self.old }
    {
        self.handles.push((id, flag))?;
        Ok(())
    }

    // The next ticket whose flag is raised, which is watched no more.
    fn next_ticket(&mut self) -> Option<Ticket>
        ensures { self.new ≡ self.old }
    {
        let (ticket, _) = take_raised(&mut self.tickets)?;
        Some(ticket)
    }

    // And the next handle.
    fn next_handle(&mut self) -> Option<(u64, Flag)>
        ensures { self.new ≡ self.old }
    {
        take_raised(&mut self.handles)
    }

    /// Closes each ticket whose flag is raised. It leaves the disk alone, and takes no memory.
    pub fn collect_tickets(&mut self)
        ensures { ClosesTickets D.honest self.old self.new }
    {
        for _ in 0..self.tickets.len() {
            let Some(ticket) = self.next_ticket() else {
                break;
            };
            let _ = self.close_snapshot(ticket);
        }
    }

    /// Closes each ticket whose flag is raised, and then releases each handle whose flag is: with the last one of a deleted keyspace its
    /// folder is removed. A release that finds no memory is tried again by the next who collects.
    pub fn collect(&mut self)
        ensures { Collects D.honest self.old self.new }
    {
        self.collect_tickets();
        for _ in 0..self.handles.len() {
            let Some((id, flag)) = self.next_handle() else {
                break;
            };
            if let Err(Error::OutOfMemory) = self.release(id) {
                let _ = self.watch_handle(id, flag);
                break;
            }
        }
    }
}
