//! A disk in memory that keeps a record of its steps and fails where it is told to.

use crate::moments::{Moment, Step};
use fjall_base::{DirEntry, Disk, Error, Result};
use fjall_disk_memory::MemoryDisk;
use std::alloc::{AllocError, Global};
use std::io::ErrorKind;

/// What a disk answers that was told to fail, or that is in use.
pub(crate) const FAULT: Error = Error::Io(ErrorKind::Other);

/// How much of an append that is to fail goes out first.
#[derive(Clone, Copy)]
pub enum Part {
    /// So many of its bytes, or all.
    Bytes(usize),
    Half,
}

impl Part {
    fn of(self, len: usize) -> usize {
        match self {
            Part::Bytes(bytes) => bytes.min(len),
            Part::Half => len / 2,
        }
    }
}

/// Which call of a disk is to fail.
#[derive(Clone, Copy)]
struct Failing {
    // how many calls are left up to and with that one; at 0 none is to fail
    calls_left: u64,
    part: Part,
    // how many calls failed so
    failed: u64,
}

impl Failing {
    // Counts a call, and says whether it is the one that is to fail.
    fn is_due(&mut self) -> bool {
        if self.calls_left == 0 {
            return false;
        }
        self.calls_left -= 1;
        if self.calls_left > 0 {
            return false;
        }
        self.failed = self.failed.saturating_add(1);
        true
    }
}

/// The steps of a disk since some moment.
#[derive(Drop)]
pub(crate) struct Record {
    pub(crate) start: Moment,
    pub(crate) steps: Vec<Step>,
    /// Whether memory was found for each of them.
    pub(crate) is_whole: bool,
}

/// A step that is of a name alone.
#[derive(Clone, Copy)]
enum NameStep {
    Create,
    Sync,
    Remove,
    MakeFolder,
    SyncFolder,
}

fn name_step(alloc: Global, kind: NameStep, name: &str) -> std::result::Result<Step, AllocError> {
    let name = String::from_str(alloc, name)?;
    Ok(match kind {
        NameStep::Create => Step::Create(name),
        NameStep::Sync => Step::Sync(name),
        NameStep::Remove => Step::Remove(name),
        NameStep::MakeFolder => Step::MakeFolder(name),
        NameStep::SyncFolder => Step::SyncFolder(name),
    })
}

fn append_step(alloc: Global, name: &str, bytes: &[u8]) -> std::result::Result<Step, AllocError> {
    let name = String::from_str(alloc, name)?;
    Ok(Step::Append(name, Vec::from_slice(alloc, bytes)?))
}

fn cut_step(alloc: Global, name: &str, len: usize) -> std::result::Result<Step, AllocError> {
    Ok(Step::Cut(String::from_str(alloc, name)?, len))
}

/// A disk, the record of its steps, and which call is to fail.
#[derive(Drop)]
pub(crate) struct Recorder {
    alloc: Global,
    pub(crate) disk: MemoryDisk,
    pub(crate) record: Option<Record>,
    failing: Failing,
}

impl Recorder {
    /// A disk without a record, of which no call is to fail.
    pub(crate) fn new(alloc: Global, disk: MemoryDisk) -> Recorder {
        Recorder {
            alloc,
            disk,
            record: None,
            failing: Failing {
                calls_left: 0,
                part: Part::Bytes(0),
                failed: 0,
            },
        }
    }

    /// The call of that number from now on is to fail; 0 lets none fail.
    pub(crate) fn fail(&mut self, call: u64, part: Part) {
        self.failing.calls_left = call;
        self.failing.part = part;
    }

    /// How many calls failed since they were told to.
    pub(crate) fn failed(&self) -> u64 {
        self.failing.failed
    }

    // Adds a step to the record.
    fn add(&mut self, step: std::result::Result<Step, AllocError>) {
        let Some(record) = &mut self.record else {
            return;
        };
        let added = match step {
            Ok(step) => record.steps.push(step).is_ok(),
            Err(_) => false,
        };
        record.is_whole = record.is_whole && added;
    }

    // Begins a call that changes nothing; whether it fails.
    fn is_failing_read(&mut self) -> bool {
        self.add(Ok(Step::Read));
        self.failing.is_due()
    }

    // Begins a call of a name alone; whether it fails, and then nothing is done.
    fn is_failing_change(&mut self, kind: NameStep, name: &str) -> bool {
        if self.failing.is_due() {
            self.add(Ok(Step::Read));
            return true;
        }
        let step = name_step(self.alloc, kind, name);
        self.add(step);
        false
    }

    pub(crate) fn read(&mut self, alloc: Global, name: &str) -> Result<Option<Vec<u8>>> {
        if self.is_failing_read() {
            return Err(FAULT);
        }
        self.disk.read(alloc, name)
    }

    pub(crate) fn read_at(
        &mut self,
        alloc: Global,
        name: &str,
        at: usize,
        len: usize,
    ) -> Result<Option<Vec<u8>>> {
        if self.is_failing_read() {
            return Err(FAULT);
        }
        self.disk.read_at(alloc, name, at, len)
    }

    pub(crate) fn list(&mut self, alloc: Global, folder: &str) -> Result<Vec<DirEntry>> {
        if self.is_failing_read() {
            return Err(FAULT);
        }
        self.disk.list(alloc, folder)
    }

    pub(crate) fn create(&mut self, name: &str) -> Result<()> {
        if self.is_failing_change(NameStep::Create, name) {
            return Err(FAULT);
        }
        self.disk.create(name)
    }

    /// Where it is to fail, a part of the bytes goes out.
    pub(crate) fn append(&mut self, name: &str, bytes: &[u8]) -> Result<()> {
        let is_failing = self.failing.is_due();
        let end = if is_failing {
            self.failing.part.of(bytes.len())
        } else {
            bytes.len()
        };
        let out = bytes.get(..end).unwrap_or(bytes);
        let step = append_step(self.alloc, name, out);
        self.add(step);
        let done = self.disk.append(name, out);
        if is_failing { Err(FAULT) } else { done }
    }

    pub(crate) fn sync(&mut self, name: &str) -> Result<()> {
        if self.is_failing_change(NameStep::Sync, name) {
            return Err(FAULT);
        }
        self.disk.sync(name)
    }

    pub(crate) fn cut_sync(&mut self, name: &str, len: usize) -> Result<()> {
        if self.failing.is_due() {
            self.add(Ok(Step::Read));
            return Err(FAULT);
        }
        let step = cut_step(self.alloc, name, len);
        self.add(step);
        self.disk.cut_sync(name, len)
    }

    pub(crate) fn remove(&mut self, name: &str) -> Result<()> {
        if self.is_failing_change(NameStep::Remove, name) {
            return Err(FAULT);
        }
        self.disk.remove(name)
    }

    pub(crate) fn remove_folder(&mut self, name: &str) -> Result<()> {
        if self.is_failing_change(NameStep::Remove, name) {
            return Err(FAULT);
        }
        self.disk.remove_folder(name)
    }

    pub(crate) fn make_folder(&mut self, name: &str) -> Result<()> {
        if self.is_failing_change(NameStep::MakeFolder, name) {
            return Err(FAULT);
        }
        self.disk.make_folder(name)
    }

    pub(crate) fn sync_folder(&mut self, name: &str) -> Result<()> {
        if self.is_failing_change(NameStep::SyncFolder, name) {
            return Err(FAULT);
        }
        self.disk.sync_folder(name)
    }
}
