//! Handles that are given up when they are dropped.

use crate::database::Database;
use crate::naming::Naming;
use fjall_base::Disk;
use fjall_shared::{Raiser, Ticket, Transaction};
use std::alloc::Global;
use std::sync::Arc;

/// A snapshot of a database. Its drop takes no lock: it raises a flag, and the next who collects closes its ticket.
pub struct Snapshot<D: Disk + Drop, J: Naming> {
    pub(crate) database: Arc<Database<D, J>, Global>,
    pub ticket: Ticket,
    pub(crate) raiser: Raiser,
}

// Written out, so that no crate above proves the drop of what it owns anew.
impl<D: Disk + Drop, J: Naming> Drop for Snapshot<D, J> {
    fn drop(self) {
        let Snapshot {
            database: _,
            ticket: _,
            raiser: _,
        } = self;
    }
}

/// An optimistic transaction of a database. Its own writes take no lock, and neither does its drop, which raises a flag, so that the next who
/// collects ends it.
#[derive(Drop)]
pub struct WriteTransaction<D: Disk + Drop, J: Naming> {
    pub(crate) database: Arc<Database<D, J>, Global>,
    pub transaction: Transaction,
    pub(crate) raiser: Raiser,
}
