//! Gates that hold jobs, so that what a row shows doesn't rest on the schedule. None holds a job for ever.

use fjall::{Gate, Result};
use std::alloc::Global;
use std::sync::Arc;
use std::sync::atomic::Ordering::SeqCst;
use std::sync::atomic::{AtomicBool, AtomicU64};
use std::thread;

/// So often who waits lets others run at most. Then it goes on all the same.
const MOST_TURNS: u64 = 10_000_000;

// Lets others run until a flag is raised; answers whether it is.
fn is_soon(flag: &AtomicBool) -> bool {
    for _ in 0..MOST_TURNS {
        if flag.load(SeqCst) {
            return true;
        }
        thread::yield_now();
    }
    false
}

/// Where two jobs meet.
#[derive(Drop)]
pub struct Meeting {
    has_first: AtomicBool,
    has_second: AtomicBool,
    has_met: AtomicBool,
}

impl Meeting {
    /// Nobody has come yet.
    pub fn new(alloc: Global) -> Result<Arc<Meeting, Global>> {
        let meeting = Meeting {
            has_first: AtomicBool::new(false),
            has_second: AtomicBool::new(false),
            has_met: AtomicBool::new(false),
        };
        Ok(Arc::new(alloc, meeting)?)
    }

    /// Whether the second job came while the first one waited.
    pub fn has_met(&self) -> bool {
        self.has_met.load(SeqCst)
    }
}

/// A gate at which the first job waits for the second one.
#[derive(Drop)]
pub struct MeetingGate {
    meeting: Arc<Meeting, Global>,
}

impl MeetingGate {
    /// The gate of a meeting.
    pub fn new(meeting: &Arc<Meeting, Global>) -> Result<MeetingGate> {
        Ok(MeetingGate {
            meeting: Arc::try_clone(meeting)?,
        })
    }
}

impl Gate for MeetingGate {
    fn before(&self, _keyspace: u64) {
        let meeting = &*self.meeting;
        if meeting.has_first.swap(true, SeqCst) {
            meeting.has_second.store(true, SeqCst);
            return;
        }
        let has_met = is_soon(&meeting.has_second);
        meeting.has_met.store(has_met, SeqCst);
    }

    fn after(&self, _keyspace: u64) {}
}

/// What holds the jobs of one keyspace until it is opened. It is open at first.
#[derive(Drop)]
pub struct Barrier {
    held: AtomicU64,
    is_open: AtomicBool,
    has_come: AtomicBool,
    has_other_passed: AtomicBool,
}

impl Barrier {
    /// It holds nobody yet.
    pub fn new(alloc: Global) -> Result<Arc<Barrier, Global>> {
        let barrier = Barrier {
            held: AtomicU64::new(0),
            is_open: AtomicBool::new(true),
            has_come: AtomicBool::new(false),
            has_other_passed: AtomicBool::new(false),
        };
        Ok(Arc::new(alloc, barrier)?)
    }

    /// Holds the jobs of this keyspace from now on.
    pub fn hold(&self, keyspace: u64) {
        self.held.store(keyspace, SeqCst);
        self.is_open.store(false, SeqCst);
    }

    /// Holds nobody any more.
    pub fn open(&self) {
        self.is_open.store(true, SeqCst);
    }

    /// Lets others run until a job is held; answers whether one is.
    pub fn wait_for_job(&self) -> bool {
        is_soon(&self.has_come)
    }

    /// Whether a job of another keyspace has run while one was held.
    pub fn has_other_passed(&self) -> bool {
        self.has_other_passed.load(SeqCst)
    }

    // Whether this keyspace's jobs are held.
    fn is_held(&self, keyspace: u64) -> bool {
        !self.is_open.load(SeqCst) && self.held.load(SeqCst) == keyspace
    }
}

/// The gate of a barrier.
#[derive(Drop)]
pub struct BarrierGate {
    barrier: Arc<Barrier, Global>,
}

impl BarrierGate {
    /// The gate of this barrier.
    pub fn new(barrier: &Arc<Barrier, Global>) -> Result<BarrierGate> {
        Ok(BarrierGate {
            barrier: Arc::try_clone(barrier)?,
        })
    }
}

impl Gate for BarrierGate {
    fn before(&self, keyspace: u64) {
        let barrier = &*self.barrier;
        if barrier.is_held(keyspace) {
            barrier.has_come.store(true, SeqCst);
            let _ = is_soon(&barrier.is_open);
        }
    }

    fn after(&self, keyspace: u64) {
        let barrier = &*self.barrier;
        let is_other = !barrier.is_held(keyspace) && !barrier.is_open.load(SeqCst);
        if is_other && barrier.has_come.load(SeqCst) {
            barrier.has_other_passed.store(true, SeqCst);
        }
    }
}
