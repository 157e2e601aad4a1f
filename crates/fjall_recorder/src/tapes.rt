//! Records of what a disk did, and what a crash may leave of each moment of them.

use crate::moments::{Crash, Moment, Step};
use crate::words::{Parsed, size};
use fjall_base::Result;
use fjall_disk_memory::MemoryDisk;
use std::alloc::Global;

/// A way to crash at a moment.
#[derive(Clone, Copy)]
pub enum Way {
    /// Nothing is left of what isn't synced.
    Nothing,
    /// All of it is.
    All,
    /// That of a number, from 0 on.
    Number(usize),
}

impl Way {
    /// A way: `none`, `all` or its number.
    pub fn read(word: &str) -> Parsed<Way> {
        match word {
            "none" => Ok(Way::Nothing),
            "all" => Ok(Way::All),
            _ => Ok(Way::Number(size(word)?)),
        }
    }
}

/// A record: the disk where it began, and its steps. Moment 0 is the beginning; step `n`, from 0 on, is begun at moment `2n + 1`
/// and done at moment `2n + 2`.
#[derive(Drop)]
pub struct Tape {
    alloc: Global,
    start: Moment,
    steps: Vec<Step>,
    // where the tape stands
    at: usize,
    moment: Moment,
    // whether a crash may leave something there that it may not at the moment before
    is_new: bool,
}

impl Tape {
    /// A tape that stands at its beginning.
    pub(crate) fn new(alloc: Global, start: Moment, steps: Vec<Step>) -> Result<Tape> {
        let moment = start.clone()?;
        Ok(Tape {
            alloc,
            start,
            steps,
            at: 0,
            moment,
            is_new: true,
        })
    }

    /// How many moments it has.
    pub fn moments(&self) -> usize {
        self.steps.len().saturating_mul(2).saturating_add(1)
    }

    // Goes on by one moment.
    fn advance(&mut self) -> Result<()> {
        if let Some(step) = self.steps.get(self.at / 2) {
            self.is_new = if self.at.is_multiple_of(2) {
                self.moment.begin(step)
            } else {
                self.moment.take(self.alloc, step)?
            };
        }
        self.at = self.at.saturating_add(1);
        Ok(())
    }

    // Goes to a moment.
    fn seek(&mut self, at: usize) -> Result<()> {
        let end = at.min(self.moments().saturating_sub(1));
        if end < self.at {
            self.moment = self.start.clone()?;
            self.at = 0;
            self.is_new = true;
        }
        for _ in self.at..end {
            self.advance()?;
        }
        Ok(())
    }

    // The ways to crash at a moment: of names, and then of the bytes of an append.
    fn crashes(&mut self, at: usize) -> Result<Vec<Crash>> {
        self.seek(at)?;
        let mut crashes = self.moment.crashes(self.alloc)?;
        if self.at > 0
            && self.at.is_multiple_of(2)
            && let Some(step) = self.steps.get(self.at / 2 - 1)
        {
            for crash in self.moment.cuts(self.alloc, step)? {
                crashes.push(crash)?;
            }
        }
        Ok(crashes)
    }

    /// How many ways there are in which names come back or not, and files keep none or all of their unsynced bytes.
    pub fn names(&mut self, at: usize) -> Result<usize> {
        self.seek(at)?;
        Ok(self.moment.crashes(self.alloc)?.len())
    }

    /// How many ways there are to crash at a moment; none where they are those of the moment before.
    pub fn ways(&mut self, at: usize) -> Result<usize> {
        let count = self.crashes(at)?.len();
        Ok(if self.is_new { count } else { 0 })
    }

    // The crash of a moment in a way.
    fn crash(&mut self, at: usize, way: Way) -> Result<Option<Crash>> {
        match way {
            Way::Number(number) => Ok(self.crashes(at)?.get(number).copied()),
            Way::Nothing => {
                self.seek(at)?;
                Ok(self.moment.ends(self.alloc)?.first().copied())
            }
            Way::All => {
                self.seek(at)?;
                Ok(self.moment.ends(self.alloc)?.last().copied())
            }
        }
    }

    /// The disk that a crash leaves of a moment in a way, where there is such a way.
    pub fn image(&mut self, at: usize, way: Way) -> Result<Option<MemoryDisk>> {
        match self.crash(at, way)? {
            Some(crash) => Ok(Some(self.moment.left(self.alloc, crash)?.disk(self.alloc)?)),
            None => Ok(None),
        }
    }
}
