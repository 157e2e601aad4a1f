//! What is asked of a recorded disk beside the core that works on it.

use crate::by_hand::{Change, make};
use crate::handle::Handle;
use crate::moments::Moment;
use crate::recorder::{FAULT, Part, Record, Recorder};
use crate::tapes::Tape;
use fjall_base::{Disk, Error, Result, checksum};
use fjall_disk_memory::MemoryDisk;
use std::alloc::Global;
use std::cell::RefCell;
use std::mem;
use std::rc::Rc;

impl Handle {
    /// A handle to an empty disk without a record, of which no call is to fail.
    pub fn new(alloc: Global) -> Result<Handle> {
        let recorder = Recorder::new(alloc, MemoryDisk::new(alloc));
        let shared = Rc::new(alloc, RefCell::new(recorder))?;
        Ok(Handle { shared, faults: 0 })
    }

    /// Another handle to the same disk, which has met no fault.
    pub fn share(&self) -> Result<Handle> {
        let shared = self.shared.clone()?;
        Ok(Handle { shared, faults: 0 })
    }

    /// Puts a disk in the place of this one, without a record, and no call is to fail.
    pub fn replace(&self, alloc: Global, disk: MemoryDisk) -> Result<()> {
        let Ok(mut recorder) = self.shared.try_borrow_mut() else {
            return Err(FAULT);
        };
        *recorder = Recorder::new(alloc, disk);
        Ok(())
    }

    /// Each file keeps at most so many of its unsynced bytes, and all names stay. Where memory is refused, the disk is empty.
    pub fn lose(&self, alloc: Global, keep: usize) -> Result<()> {
        let Ok(mut recorder) = self.shared.try_borrow_mut() else {
            return Err(FAULT);
        };
        let disk = mem::replace(&mut recorder.disk, MemoryDisk::new(alloc));
        recorder.disk = disk.crash(keep)?;
        Ok(())
    }

    /// The call of that number from now on is to fail, reads count too; 0 lets none fail. Of an append a part goes out first.
    pub fn fail(&self, call: u64, part: Part) -> Result<()> {
        let Ok(mut recorder) = self.shared.try_borrow_mut() else {
            return Err(FAULT);
        };
        recorder.fail(call, part);
        Ok(())
    }

    /// How many calls failed that were told to.
    pub fn failed(&self) -> Result<u64> {
        let Ok(recorder) = self.shared.try_borrow() else {
            return Err(FAULT);
        };
        Ok(recorder.failed())
    }
}

// Records.
impl Handle {
    /// Begins a record at what the disk holds now, taken as synced.
    pub fn record(&self, alloc: Global) -> Result<()> {
        let Ok(mut recorder) = self.shared.try_borrow_mut() else {
            return Err(FAULT);
        };
        let start = Moment::of(alloc, &mut recorder.disk)?;
        recorder.record = Some(Record {
            start,
            steps: Vec::new(alloc),
            is_whole: true,
        });
        Ok(())
    }

    /// The last moment of the record so far, 0 where there is none; refused where the record lacks a step for want of memory.
    pub fn moments(&self) -> Result<usize> {
        let Ok(recorder) = self.shared.try_borrow() else {
            return Err(FAULT);
        };
        match &recorder.record {
            Some(record) if record.is_whole => Ok(record.steps.len().saturating_mul(2)),
            Some(_) => Err(Error::OutOfMemory),
            None => Ok(0),
        }
    }

    /// Ends the record, and gives it as a tape, where there is one; refused where it lacks a step for want of memory.
    pub fn stop(&self, alloc: Global) -> Result<Option<Tape>> {
        let Ok(mut recorder) = self.shared.try_borrow_mut() else {
            return Err(FAULT);
        };
        match recorder.record.take() {
            Some(record) if record.is_whole => {
                Ok(Some(Tape::new(alloc, record.start, record.steps)?))
            }
            Some(_) => Err(Error::OutOfMemory),
            None => Ok(None),
        }
    }
}

// Files. None of these calls is recorded, counted or told to fail.
impl Handle {
    /// The bytes of a file, where it is there.
    pub fn file(&self, alloc: Global, name: &str) -> Result<Option<Vec<u8>>> {
        let Ok(mut recorder) = self.shared.try_borrow_mut() else {
            return Err(FAULT);
        };
        recorder.disk.read(alloc, name)
    }

    /// The names in a folder, ascending, with `/` at the end of a folder's.
    pub fn names(&self, alloc: Global, folder: &str) -> Result<Vec<String>> {
        let Ok(mut recorder) = self.shared.try_borrow_mut() else {
            return Err(FAULT);
        };
        let mut names = Vec::new(alloc);
        for entry in recorder.disk.list(alloc, folder)? {
            let mut name = entry.name;
            if entry.is_folder {
                name.push_str("/")?;
            }
            names.push(name)?;
        }
        names.sort()?;
        Ok(names)
    }

    /// What stands on the whole disk, as a number.
    pub fn digest(&self, alloc: Global) -> Result<u64> {
        let Ok(mut recorder) = self.shared.try_borrow_mut() else {
            return Err(FAULT);
        };
        let mut all = Vec::new(alloc);
        for line in Moment::of(alloc, &mut recorder.disk)?.text(alloc)? {
            all.extend_from_slice(line.as_bytes())?;
            all.push(b'\n')?;
        }
        Ok(u64::from_le_bytes(checksum(&all)))
    }

    /// Changes what stands at a name.
    pub fn change(&self, alloc: Global, name: &str, change: Change<'_>) -> Result<()> {
        let Ok(mut recorder) = self.shared.try_borrow_mut() else {
            return Err(FAULT);
        };
        make(alloc, &mut recorder.disk, name, change)
    }
}
