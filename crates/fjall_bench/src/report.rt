//! The table of times.

ghost use Rattle.std.specs.Prelude.{◌≡◌, ◌*◌, ◌/◌, ◌^◌, ◌-◌, max, min};

use crate::clock::Spent;
use std::fmt;
use std::time::Duration;

/// The line above the rows.
pub const HEAD: &str = "engine\tworkload\tcount\twall s\tprocessor s\toperations/s";

/// The time that one workload took.
#[derive(Clone, Copy)]
pub struct Row {
    pub engine: &'static str,
    pub workload: &'static str,
    pub count: u64,
    pub spent: Spent,
}

/// How many a second, where so many took this many nanoseconds: at most the greatest `u64`. No time counts as one
/// nanosecond.
pub fn per_second(count: u64, nanos: u128) -> u64
    ensures { result ≡ min (count * 1000000000 / max nanos 1) (2 ^ 64 - 1) }
{
    let rate = u128::from(count) * 1_000_000_000 / nanos.max(1);
    rate.min(u128::from(u64::MAX)) as u64
}

// Seconds, with six digits behind the point.
#[derive(Clone, Copy)]
struct Seconds(Duration);

impl fmt::Display for Seconds {
    fn fmt<W: fmt::Write>(&self, f: &mut fmt::Formatter<W>) -> fmt::Result {
        let whole = self.0.as_secs();
        let micros = self.0.subsec_micros();
        write!(f, "{whole}.{micros:06}")
    }
}

impl fmt::Display for Row {
    /// Engine, workload, count, wall seconds, processor seconds and operations a second, parted by tabs.
    fn fmt<W: fmt::Write>(&self, f: &mut fmt::Formatter<W>) -> fmt::Result {
        let wall = Seconds(self.spent.wall);
        let processor = Seconds(self.spent.processor);
        let rate = per_second(self.count, self.spent.wall.as_nanos());
        write!(
            f,
            "{}\t{}\t{}\t{wall}\t{processor}\t{rate}",
            self.engine, self.workload, self.count
        )
    }
}
