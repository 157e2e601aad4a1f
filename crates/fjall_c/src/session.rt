//! A database from its files on to its closing, for callers that keep its files themselves.

ghost use Rattle.std.specs.Prelude.{◌≡◌, [], IfOk, IsOkUnless, None};
ghost use Rattle.fjall_base.specs.declared.error.Error.TheVariants.{OutOfMemory};
ghost use Rattle.fjall_c.specs.Live.{files_of, live_of};
ghost use Rattle.fjall_c.specs.Openings.{ClosesAs, OpensOver, PutsFile, PutsFolder};

mod flushing;
mod opened;
mod opening;
mod place;
mod reads;
mod transactions;
mod within;
mod writes;

use crate::mirror::change::Change;
use crate::mirror::log::Log;
use crate::session::opening::{opened_over, put_synced};
use crate::session::place::Place;
use fjall_base::{Disk, Error, Result};
use fjall_disk_memory::MemoryDisk;
use fjall_journal::BatchItem;
use std::alloc::Global;
use std::mem;

/// A database whose files its caller keeps.
///
/// It is given what stands in the folder, then opened. After each call the caller carries out the changes that
/// [`take_change`](Session::take_change) gives, in their order, on the folder, before it tells of the call's success: what the engine
/// promises of a crash holds of the folder then. Where one fails it lets the session go.
///
/// Each call of a database that isn't open is refused with `Poisoned`, or for want of memory.
#[derive(Drop)]
pub struct Session {
    pub(crate) alloc: Global,
    log: Log,
    pub(crate) place: Place,
    pub(crate) batch: Vec<BatchItem>,
}

impl Session {
    /// A session that was given no file yet.
    pub fn new(alloc: Global) -> Result<Session>
        ensures none { IfOk result (λ session. (live_of session ≡ None) × (session.batch.items ≡ [])) }
        ensures only { IsOkUnless result OutOfMemory }
    {
        Ok(Session {
            alloc,
            log: Log::new(alloc)?,
            place: Place::Files(MemoryDisk::new(alloc)),
            batch: Vec::new(alloc),
        })
    }

    /// Tells of a folder that stands in the database's, by its name from the root on. Those above it were told of before.
    ///
    /// It is refused with `Io` where that is not so, or a file has the name, and with `Poisoned` once the database was opened.
    pub fn put_folder(&mut self, name: &str) -> Result<()>
        ensures puts { PutsFolder name.now (files_of self.old) (files_of self.new) result }
        ensures same { live_of self.new ≡ live_of self.old }
        ensures batch { self.new.batch ≡ self.old.batch }
    {
        match &mut self.place {
            Place::Files(disk) => disk.make_folder(name),
            _ => Err(Error::Poisoned),
        }
    }

    /// Tells of a file that stands there, with its bytes. It is refused as [`put_folder`](Session::put_folder) is.
    pub fn put_file(&mut self, name: &str, bytes: &[u8]) -> Result<()>
        ensures puts { PutsFile name.now bytes.now (files_of self.old) (files_of self.new) result }
        ensures same { live_of self.new ≡ live_of self.old }
        ensures batch { self.new.batch ≡ self.old.batch }
    {
        match &mut self.place {
            Place::Files(disk) => put_synced(disk, name, bytes),
            _ => Err(Error::Poisoned),
        }
    }

    /// Opens the database of these files, or begins one where there are none. Where it is refused, as `Engine::open` is, the session
    /// is closed.
    pub fn open(&mut self) -> Result<()>
        ensures answers { OpensOver (files_of self.old) (live_of self.old) (live_of self.new) result }
        ensures batch { self.new.batch ≡ self.old.batch }
    {
        match mem::replace(&mut self.place, Place::Closed) {
            Place::Files(files) => {
                self.place = Place::Open(opened_over(self.alloc, files, &self.log)?);
                Ok(())
            }
            place => {
                self.place = place;
                Err(Error::Poisoned)
            }
        }
    }

    /// How many bytes the name and the bytes of the first change have that the folder is still to take, where there is one.
    pub fn change_lengths(&self) -> Option<(usize, usize)> {
        self.log.first_lengths()
    }

    /// Gives the first change away that the folder is still to take.
    pub fn take_change(&mut self) -> Option<Change>
        ensures place { self.new.place ≡ self.old.place }
        ensures batch { self.new.batch ≡ self.old.batch }
    {
        self.log.take_first()
    }

    /// Syncs the journal and closes the database. Whatever it answers, the database isn't open any more.
    ///
    /// Refusals: `Poisoned`, and `Io`.
    pub fn close(&mut self) -> Result<()>
        ensures answers { ClosesAs (live_of self.old) (live_of self.new) result }
        ensures batch { self.new.batch ≡ self.old.batch }
    {
        match mem::replace(&mut self.place, Place::Closed) {
            Place::Open(opened) => Box::into_inner(opened).close(),
            _ => Err(Error::Poisoned),
        }
    }
}
