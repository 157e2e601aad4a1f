//! Snapshots.

use crate::inner::Inner;
use crate::reader::Reader;
use fjall_base::{Disk, Error, Result};
use fjall_disk_folder::FolderDisk;
use fjall_shared::{Flag, Raiser, Shared, Ticket, View};
use std::alloc::Global;
use std::sync::{Arc, Wait};

/// A snapshot of a database: it shows what was accepted before it was opened, and nothing that came later.
///
/// Its drop takes no lock: it raises a flag, and the next who opens a snapshot or a transaction closes it.
pub struct Snapshot<D: Disk + Drop = FolderDisk> {
    inner: Arc<Inner<D>, Global>,
    ticket: Ticket,
    raiser: Raiser,
}

// Written out, so that no crate above proves the drop of what it owns anew.
impl<D: Disk + Drop> Drop for Snapshot<D> {
    fn drop(self) {
        let Snapshot {
            inner: _,
            ticket: _,
            raiser: _,
        } = self;
    }
}

// Has a ticket closed once the flag is raised, or closes it at once where memory is used up.
pub(crate) fn watch<D: Disk>(shared: &mut Shared<D>, ticket: Ticket, flag: Flag) -> Result<()> {
    if shared.watch_ticket(ticket, flag).is_err() {
        let _ = shared.close_snapshot(ticket);
        return Err(Error::OutOfMemory);
    }
    Ok(())
}

/// Opens a snapshot of a database, or another one that shows what this ticket does.
pub(crate) fn open_snapshot<R: Wait, D: Disk + Drop>(
    rt: &R,
    inner: &Arc<Inner<D>, Global>,
    like: Option<Ticket>,
) -> Result<Snapshot<D>> {
    let other = Arc::try_clone(inner)?;
    let (flag, raiser) = Flag::new(inner.alloc)?;
    let ticket = {
        let mut guard = inner.lock.lock(rt);
        let Some(shared) = &mut *guard else {
            return Err(Error::Poisoned);
        };
        shared.collect_tickets();
        let ticket = match like {
            Some(ticket) => shared.clone_snapshot(ticket)?,
            None => shared.snapshot()?,
        };
        watch(shared, ticket, flag)?;
        ticket
    };
    Ok(Snapshot {
        inner: other,
        ticket,
        raiser,
    })
}

impl<D: Disk + Drop> Snapshot<D> {
    /// The instant at which it reads: it shows what was accepted under numbers below this one.
    pub fn seqno(&self) -> u64 {
        self.ticket.seqno()
    }

    /// Another snapshot that shows the same.
    pub fn clone<R: Wait>(&self, rt: &R) -> Result<Snapshot<D>> {
        open_snapshot(rt, &self.inner, Some(self.ticket))
    }

    /// What it shows, to be read: see [`Readable`](fjall_reading::Readable).
    pub fn at<'a, R: Wait>(&'a self, rt: &'a R) -> Reader<'a, R, D> {
        Reader::new(rt, &*self.inner, View::At(self.ticket))
    }
}
