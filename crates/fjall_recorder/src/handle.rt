//! A handle to a recorded disk: what a core has of it.

ghost use Rattle.std.specs.Prelude.{◌≡◌, ◌≤◌, false, refl};
ghost use Rattle.fjall_base.specs.Disk.{HasCause, OnlyFaults};
ghost use Rattle.fjall_base.specs.Errors.{Rose};
ghost use Rattle.fjall_recorder.specs.Counted.{counted};

use crate::recorder::{FAULT, Recorder};
use fjall_base::{DirEntry, Disk, Error, Result};
use std::alloc::Global;
use std::cell::RefCell;
use std::rc::Rc;

/// A handle to a recorded disk, with the faults that were met through it. A disk may have several: a core has one and works, while
/// another one looks at its files, tells it to fail or puts another disk in its place. So contracts know nothing of what it holds.
#[derive(Drop)]
pub struct Handle {
    pub(crate) shared: Rc<RefCell<Recorder>>,
    pub(crate) faults: u64,
}

impl Handle {
    // Counts a fault.
    fn raise(&mut self)
        ensures later { self.old.faults ≤ self.new.faults }
        ensures rose { Rose self.old.faults self.new.faults }
    {
        self.faults = self.faults.saturating_add(1);
    }

    // What a change of the disk answers: each error is a fault.
    fn of_change(&mut self, done: Result<()>) -> Result<()>
        ensures cause { OnlyFaults (counted self.old.faults) (counted self.new.faults) result }
    {
        match done {
            Ok(()) => Ok(()),
            Err(_) => {
                self.raise();
                Err(FAULT)
            }
        }
    }

    // What a read of the disk answers: each error but want of memory is a fault.
    fn of_read<T: Drop>(&mut self, found: Result<T>) -> Result<T>
        ensures cause { HasCause (counted self.old.faults) (counted self.new.faults) result }
    {
        match found {
            Ok(found) => Ok(found),
            Err(Error::OutOfMemory) => Err(Error::OutOfMemory),
            Err(_) => {
                self.raise();
                Err(FAULT)
            }
        }
    }
}

impl Disk for Handle {
    ghost honest = { false };

    ghost meaning = { λ handle. counted handle.faults };

    fn faults(&self) -> u64 {
        self.faults
    }

    fn read(&mut self, alloc: Global, name: &str) -> Result<Option<Vec<u8>>> {
        let found = match self.shared.try_borrow_mut() {
            Ok(mut recorder) => recorder.read(alloc, name),
            Err(_) => Err(FAULT),
        };
        self.of_read(found)
    }

    fn read_at(
        &mut self,
        alloc: Global,
        name: &str,
        at: usize,
        len: usize,
    ) -> Result<Option<Vec<u8>>> {
        let found = match self.shared.try_borrow_mut() {
            Ok(mut recorder) => recorder.read_at(alloc, name, at, len),
            Err(_) => Err(FAULT),
        };
        self.of_read(found)
    }

    fn list(&mut self, alloc: Global, folder: &str) -> Result<Vec<DirEntry>> {
        let found = match self.shared.try_borrow_mut() {
            Ok(mut recorder) => recorder.list(alloc, folder),
            Err(_) => Err(FAULT),
        };
        self.of_read(found)
    }

    fn create(&mut self, name: &str) -> Result<()> {
        let done = match self.shared.try_borrow_mut() {
            Ok(mut recorder) => recorder.create(name),
            Err(_) => Err(FAULT),
        };
        self.of_change(done)
    }

    fn append(&mut self, name: &str, bytes: &[u8]) -> Result<()> {
        let done = match self.shared.try_borrow_mut() {
            Ok(mut recorder) => recorder.append(name, bytes),
            Err(_) => Err(FAULT),
        };
        self.of_change(done)
    }

    fn sync(&mut self, name: &str) -> Result<()> {
        let done = match self.shared.try_borrow_mut() {
            Ok(mut recorder) => recorder.sync(name),
            Err(_) => Err(FAULT),
        };
        self.of_change(done)
    }

    fn cut_sync(&mut self, name: &str, len: usize) -> Result<()> {
        let done = match self.shared.try_borrow_mut() {
            Ok(mut recorder) => recorder.cut_sync(name, len),
            Err(_) => Err(FAULT),
        };
        self.of_change(done)
    }

    fn remove(&mut self, name: &str) -> Result<()> {
        let done = match self.shared.try_borrow_mut() {
            Ok(mut recorder) => recorder.remove(name),
            Err(_) => Err(FAULT),
        };
        self.of_change(done)
    }

    fn remove_folder(&mut self, name: &str) -> Result<()> {
        let done = match self.shared.try_borrow_mut() {
            Ok(mut recorder) => recorder.remove_folder(name),
            Err(_) => Err(FAULT),
        };
        self.of_change(done)
    }

    fn make_folder(&mut self, name: &str) -> Result<()> {
        let done = match self.shared.try_borrow_mut() {
            Ok(mut recorder) => recorder.make_folder(name),
            Err(_) => Err(FAULT),
        };
        self.of_change(done)
    }

    fn sync_folder(&mut self, name: &str) -> Result<()> {
        let done = match self.shared.try_borrow_mut() {
            Ok(mut recorder) => recorder.sync_folder(name),
            Err(_) => Err(FAULT),
        };
        self.of_change(done)
    }

    ghost housed = { λ disk honest. record { each = λ name some inside. absurd (some refl) } };
}
