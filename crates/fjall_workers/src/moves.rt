//! Something has moved: who waits for workers looks again.

use std::sync::{Condvar, Mutex, Wait};

/// A count of what workers have brought about, at which who waits for them sleeps. Remember the count, look at what you wait for, and wait
/// past what you remembered: so nothing that moves in between is missed.
///
/// That who waits wakes isn't promised.
#[derive(Drop)]
pub struct Moves {
    count: Mutex<u64>,
    moved: Condvar,
}

impl Moves {
    /// Nothing has moved yet.
    pub fn new() -> Moves {
        Moves {
            count: Mutex::new(0),
            moved: Condvar::new(),
        }
    }

    /// How much has moved.
    pub fn now<R: Wait>(&self, rt: &R) -> u64 {
        *self.count.lock(rt)
    }

    /// Something has moved: all who wait look again.
    pub fn tell<R: Wait>(&self, rt: &R) {
        let mut count = self.count.lock(rt);
        *count = count.wrapping_add(1);
        self.moved.notify_all();
    }

    /// Waits until more has moved than at that count.
    pub fn wait_past<R: Wait>(&self, rt: &R, seen: u64) {
        let _count = self
            .moved
            .wait_while(rt, self.count.lock(rt), |count| *count == seen);
    }
}
