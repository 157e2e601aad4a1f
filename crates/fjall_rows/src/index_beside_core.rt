//! The same calls of an index over a core and of one over handles.

use crate::fresh_handles::{FIELD, Handles, Machine, index_of, open, pairs_of};
use fjall::{Conflict, IndexError, IndexResult, IndexedWriteTx, KvPair, Slice, Slot};
use fjall_disk_memory::MemoryDisk;
use fjall_index::{CommitOutcome, Config, Core, Indexed, IndexedTx, View};
use std::ops::Bound;
use std::{fmt, result};

/// An index over a core, and one over handles, each on a disk of its own.
#[derive(Drop)]
pub struct Both<'a, R: Machine> {
    rt: &'a R,
    core: Box<Core<MemoryDisk>>,
    below: Indexed<Slot>,
    above: Handles,
}

/// A transaction of each.
#[derive(Drop)]
pub struct Open {
    below: IndexedTx,
    above: IndexedWriteTx<MemoryDisk>,
}

// What a commit over a core is answered, as one over handles is.
fn committed(outcome: CommitOutcome<IndexError>) -> IndexResult<result::Result<(), Conflict>> {
    match outcome {
        CommitOutcome::Ok => Ok(Ok(())),
        CommitOutcome::Conflicted => Ok(Err(Conflict)),
        CommitOutcome::Aborted(error) => Err(error),
    }
}

impl<'a, R: Machine> Both<'a, R> {
    /// Both over new disks.
    pub fn new(rt: &'a R) -> IndexResult<Both<'a, R>> {
        let alloc = rt.alloc();
        let core = Core::open(alloc, Config::new(alloc, "rows")?, MemoryDisk::new(alloc));
        let core = match core {
            Ok(core) => core,
            Err(refused) => return Err(IndexError::Engine(refused.error)),
        };
        let mut core = Box::new(alloc, core)?;
        let below = Indexed::open(alloc, &mut core, b"main", b"index", FIELD)?;
        let above = index_of(rt, &open(rt, alloc, 0)?, "index")?;
        Ok(Both {
            rt,
            core,
            below,
            above,
        })
    }

    // Reads `KEY=VALUE`. The key `long` is one of 65,535 bytes.
    fn read(&self, line: &str) -> IndexResult<(Slice, Slice)> {
        let alloc = self.rt.alloc();
        let (key, value) = line.split_once('=').unwrap_or((line, ""));
        let mut name = key.as_bytes().to_vec(alloc)?;
        if key == "long" {
            name.resize(65_535, b'k')?;
        }
        Ok((
            Slice::new(alloc, &name)?,
            Slice::new(alloc, value.as_bytes())?,
        ))
    }

    // All pairs of both keyspaces over the core.
    fn pairs(&mut self) -> fjall::Result<[Vec<KvPair>; 2]> {
        let all = (Bound::Unbounded, Bound::Unbounded);
        let (view, main, index) = (View::Present, self.below.main(), self.below.index());
        let main = self.core.page_at(view, main, &all, false, usize::MAX)?;
        let index = self.core.page_at(view, index, &all, false, usize::MAX)?;
        Ok([main, index])
    }

    // Prints what a call is answered, and whether both answer the same; how many pairs and entries stand then, and whether they are the same.
    fn tell<T: PartialEq + fmt::Debug>(
        &mut self,
        call: &str,
        one: &T,
        other: &T,
    ) -> fjall::Result<()> {
        let is_same = one == other;
        let (pairs, others) = (self.pairs()?, pairs_of(self.rt, &self.above)?);
        let are_same = pairs == others;
        let [main, index] = others;
        let (main, index) = (main.len(), index.len());
        println!(self.rt; "{call}: {other:?} {is_same}, {main} pairs, {index} entries {are_same}")?;
        Ok(())
    }

    /// Gives a key a value, or none where that is empty: `KEY=VALUE`.
    pub fn change(&mut self, line: &str) -> IndexResult<()> {
        let (key, value) = self.read(line)?;
        if value.is_empty() {
            let other = self.above.del(self.rt, key.as_slice());
            let one = self.below.del(&mut self.core, key);
            return Ok(self.tell(line, &one, &other)?);
        }
        let other = self.above.put(self.rt, key.as_slice(), value.as_slice());
        let one = self.below.put(&mut self.core, key, value);
        Ok(self.tell(line, &one, &other)?)
    }

    /// Finds the pairs with a field, once both indexes are checked.
    pub fn find(&mut self, field: &str) -> IndexResult<()> {
        self.below.check(&mut self.core)?;
        self.above.check(self.rt)?;
        let other = self.above.find(self.rt, field.as_bytes());
        let one = self
            .below
            .find(&mut self.core, View::Present, field.as_bytes());
        Ok(self.tell(field, &one, &other)?)
    }

    /// Begins a transaction of each.
    pub fn begin(&mut self) -> IndexResult<Open> {
        let below = self.below.begin(&mut self.core)?;
        let above = self.above.begin(self.rt)?;
        Ok(Open { below, above })
    }

    /// The same as [`change`](Both::change) within a transaction.
    pub fn change_in(&mut self, open: &mut Open, line: &str) -> IndexResult<()> {
        let (key, value) = self.read(line)?;
        let (above, below) = (&mut open.above, &mut open.below);
        if value.is_empty() {
            let other = self.above.del_in(self.rt, above, key.as_slice());
            let one = self.below.del_in(&mut self.core, below, key);
            return Ok(self.tell(line, &one, &other)?);
        }
        let other = self
            .above
            .put_in(self.rt, above, key.as_slice(), value.as_slice());
        let one = self.below.put_in(&mut self.core, below, key, value);
        Ok(self.tell(line, &one, &other)?)
    }

    /// Commits a transaction.
    pub fn commit(&mut self, open: Open) -> IndexResult<()> {
        let Open { below, above } = open;
        let other = above.commit(self.rt);
        let one = committed(self.below.commit(&mut self.core, below));
        Ok(self.tell("commit", &one, &other)?)
    }
}

// Changes of one key each, and what is found.
fn single_changes<R: Machine>(both: &mut Both<'_, R>) -> IndexResult<()> {
    for line in ["a=xx1", "b=xx2", "short=y", "a=yy1", "a=yy2"] {
        both.change(line)?;
    }
    both.find("xx")?;
    both.find("yy")?;
    for line in ["b=", "b=", "=xx", "long=x", "long=xx"] {
        both.change(line)?;
    }
    both.find("xx")
}

// Transactions: one that is committed, and one that meets another change.
fn transactions<R: Machine>(both: &mut Both<'_, R>) -> IndexResult<()> {
    let mut open = both.begin()?;
    for line in ["d=xx5", "d=zz5", "long=xx", "=xx", "a="] {
        both.change_in(&mut open, line)?;
    }
    both.find("yy")?;
    both.commit(open)?;
    let mut open = both.begin()?;
    both.change_in(&mut open, "e=xx6")?;
    both.change("e=yy6")?;
    both.commit(open)?;
    both.find("yy")
}

/// Single changes, and then transactions.
pub fn both_answer_the_same<R: Machine>(rt: &R) -> IndexResult<()> {
    let mut both = Both::new(rt)?;
    single_changes(&mut both)?;
    transactions(&mut both)
}
