//! How long a piece of work took.

use std::io;
use std::time::{CpuClock, Duration, Instant};

/// The time that a piece of work took, by the wall's clock and of the processor.
#[derive(Clone, Copy)]
pub struct Spent {
    pub wall: Duration,
    pub processor: Duration,
}

/// Runs since it was made.
#[derive(Clone, Copy)]
pub struct Stopwatch {
    wall: Instant,
    processor: Duration,
}

impl Stopwatch {
    /// Starts now.
    pub fn start(rt: &HostRuntime) -> io::Result<Stopwatch> {
        Ok(Stopwatch {
            wall: Instant::now(rt)?,
            processor: rt.process_cpu_time()?,
        })
    }

    /// The time since the start. Processor time that went back counts as none.
    pub fn spent(&self, rt: &HostRuntime) -> io::Result<Spent> {
        Ok(Spent {
            wall: self.wall.elapsed(rt)?,
            processor: rt.process_cpu_time()?.saturating_sub(self.processor),
        })
    }
}
