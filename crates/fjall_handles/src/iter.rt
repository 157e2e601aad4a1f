//! Pairs from both ends of a keyspace, in a snapshot of their own.

use crate::snapshot::Snapshot;
use fjall_base::{Disk, Error, Result};
use fjall_disk_folder::FolderDisk;
use fjall_reading::{Cursor, Guard, KeyRange};
use std::alloc::Global;
use std::sync::Wait;

/// The pairs of a range of a keyspace, in the order of their keys, from both ends. It reads a snapshot of its own, so that what is written
/// meanwhile doesn't show, and has two pages of at most 512 pairs in memory at most.
///
/// Where its snapshot, or memory for its bounds, was refused that is its one item. Behind a fault it ends.
pub struct Iter<'a, R: Wait, D: Disk + Drop = FolderDisk> {
    rt: &'a R,
    snapshot: Option<Snapshot<D>>,
    refused: Option<Error>,
    cursor: Cursor,
    // How many items it gives at most, more than any keyspace has.
    left: u64,
}

// Written out, so that no crate above proves the drop of what it owns anew.
impl<R: Wait, D: Disk + Drop> Drop for Iter<'_, R, D> {
    fn drop(self) {
        let Iter {
            rt: _,
            snapshot: _,
            refused: _,
            cursor: _,
            left: _,
        } = self;
    }
}

impl<'a, R: Wait, D: Disk + Drop> Iter<'a, R, D> {
    pub(crate) fn new(
        rt: &'a R,
        alloc: Global,
        id: u64,
        snapshot: Result<Snapshot<D>>,
        range: Result<KeyRange>,
    ) -> Iter<'a, R, D> {
        let unbounded = (std::ops::Bound::Unbounded, std::ops::Bound::Unbounded);
        let (snapshot, refused, range) = match (snapshot, range) {
            (Ok(snapshot), Ok(range)) => (Some(snapshot), None, range),
            (Err(error), _) => (None, Some(error), unbounded),
            (_, Err(error)) => (None, Some(error), unbounded),
        };
        Iter {
            rt,
            snapshot,
            refused,
            cursor: Cursor::new(alloc, id, range),
            left: u64::MAX,
        }
    }
}

impl<'a, R: Wait, D: Disk + Drop> Iterator for Iter<'a, R, D> {
    type Item = Guard;

    ghost use Rattle.std.specs.Iterator.{at_most};

    ghost remaining = { λ iter. at_most iter.left };

    /// The first pair that is left, or a fault.
    fn next(&mut self) -> Option<Guard> {
        if self.left == 0 {
            return None;
        }
        self.left -= 1;
        if let Some(error) = self.refused.take() {
            return Some(Guard::new(Err(error)));
        }
        let snapshot = self.snapshot.as_ref()?;
        let found = self.cursor.next(&mut snapshot.at(self.rt))?;
        Some(Guard::new(found))
    }
}

impl<'a, R: Wait, D: Disk + Drop> DoubleEndedIterator for Iter<'a, R, D> {
    /// The last pair that is left, or a fault.
    fn next_back(&mut self) -> Option<Guard> {
        if self.left == 0 {
            return None;
        }
        self.left -= 1;
        if let Some(error) = self.refused.take() {
            return Some(Guard::new(Err(error)));
        }
        let snapshot = self.snapshot.as_ref()?;
        let found = self.cursor.next_back(&mut snapshot.at(self.rt))?;
        Some(Guard::new(found))
    }
}
