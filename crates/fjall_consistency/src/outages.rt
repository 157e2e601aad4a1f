//! The power of a disk in memory, told in advance.

ghost use Rattle.std.specs.Prelude.{false, IfOk};
ghost use Rattle.fjall_consistency.specs.Links.{IsTurned};
ghost use Rattle.fjall_disk_memory.specs.MemoryDisk.{meaning_in};

use crate::power::Power;
use fjall_base::{Error, Result};
use fjall_disk_memory::MemoryDisk;

/// What happens between two lives, and in the later one.
#[derive(Clone, Copy, Debug)]
pub struct Turn {
    /// The power goes, and each file keeps so many of its unsynced bytes.
    pub keep: Option<usize>,
    /// The call of the disk that fails then, counted from 1; none where it is 0.
    pub fails: u64,
    /// How many bytes go out of it, where it is an append.
    pub part: usize,
}

/// Turns of a disk in memory, and how many of them were made. Behind the last one nothing happens any more.
#[derive(Debug, Drop)]
pub struct Outages {
    pub turns: Vec<Turn>,
    pub made: usize,
}

// The disk after one of them.
fn turned(turn: Option<Turn>, disk: MemoryDisk) -> Result<MemoryDisk>
    ensures { IfOk result (λ after. IsTurned false (meaning_in disk) (meaning_in after)) }
{
    let Some(turn) = turn else {
        return Ok(disk);
    };
    let mut left = match turn.keep {
        Some(keep) => disk.crash(keep)?,
        None => disk,
    };
    left.fail_at(turn.fails, turn.part);
    Ok(left)
}

impl Power for Outages {
    type Disk = MemoryDisk;

    ghost wild = { false };

    ghost turns = { λ outages. outages.made };

    fn turn(&mut self, disk: MemoryDisk) -> Result<MemoryDisk> {
        let Some(made) = self.made.checked_add(1) else {
            return Err(Error::NumbersUsedUp);
        };
        let after = turned(self.turns.get(self.made).copied(), disk)?;
        self.made = made;
        Ok(after)
    }
}
