//! The table of workloads.

use crate::data::{Digested, at_random, in_order};
use std::alloc::{AllocError, Global};

/// So many pairs stand in a batch, and at most so many in a range.
pub const PAIRS_TOGETHER: usize = 100;

// So many writes are synced one by one at most.
const SYNCED_WRITES: usize = 500;

// The order of a random fill is drawn from this seed, and that of all other workloads from the second one.
const FILL_SEED: u128 = 0x0466_6a61_6c6c;

const OTHER_SEED: u128 = 0x0466_6a61_6c6d;

/// What is done to a keyspace.
#[derive(Clone, Copy)]
pub enum Action {
    /// Each number's pair is inserted. The keyspace is flushed whenever its memtable is full.
    Insert,
    /// Each number's pair is inserted, and the journal synced behind it.
    InsertSynced,
    /// The pairs are written in batches.
    InsertBatches,
    /// Each number's pair is deleted.
    Remove,
    /// What is in memory is moved to a table.
    Flush,
    /// What is in memory is moved to a table, and all tables are merged.
    Merge,
    /// Each number's key is looked up.
    ReadHit,
    /// The key behind each number's is looked up, which isn't there.
    ReadMiss,
    /// All pairs are read in the order of their keys.
    ScanForward,
    /// All pairs are read from behind.
    ScanBack,
    /// From each number's key on the next pairs are read.
    ReadRanges,
    /// The database is closed, which is measured, and opened again.
    Close,
    /// The database is closed, and opened again, which is measured.
    Reopen,
    /// The digests that writes of the numbers take are taken, beside the database.
    Digest(Digested),
    /// A record of each number is appended to a file of the closed database's disk.
    Append,
    /// Each number's pair is inserted into a memtable, beside the database.
    FillMemtable,
    /// A pair is made for each number, of one text, beside the database.
    MakePairs,
}

/// Which numbers a workload has, and in which order.
#[derive(Clone, Copy)]
pub enum Choice {
    /// All in ascending order.
    Ordered,
    /// The first few, whose writes are synced.
    Synced,
    /// All in the order of the random fills.
    Shuffled,
    /// All in another order.
    Others,
    /// Of that other order the first fifth.
    Fifth,
    /// Of that other order the first ones, from which ranges are read.
    Starts,
}

impl Choice {
    /// The numbers, where there are so many in all.
    pub fn numbers(self, alloc: Global, count: u64) -> Result<Vec<u64>, AllocError> {
        let mut numbers = match self {
            Choice::Ordered | Choice::Synced => in_order(alloc, count)?,
            Choice::Shuffled => at_random(alloc, count, FILL_SEED)?,
            Choice::Others | Choice::Fifth | Choice::Starts => at_random(alloc, count, OTHER_SEED)?,
        };
        let all = numbers.len();
        numbers.truncate(match self {
            Choice::Synced => SYNCED_WRITES,
            Choice::Fifth => (all / 5).max(1),
            Choice::Starts => (all / PAIRS_TOGETHER).max(1),
            Choice::Ordered | Choice::Shuffled | Choice::Others => all,
        });
        Ok(numbers)
    }
}

/// A row of the table: its name, what is done, and with which numbers.
#[derive(Clone, Copy)]
pub struct Workload(pub &'static str, pub Action, pub Choice);

// Over a database in which the pairs are inserted in order.
const ORDER: [Workload; 2] = [
    Workload("fill in order", Action::Insert, Choice::Ordered),
    Workload(
        "reopen after fill in order",
        Action::Reopen,
        Choice::Ordered,
    ),
];

// Over one in which they are inserted at random.
const RANDOM: [Workload; 12] = [
    Workload("fill at random", Action::Insert, Choice::Shuffled),
    Workload("read hit from memtables", Action::ReadHit, Choice::Others),
    Workload(
        "reopen after fill at random",
        Action::Reopen,
        Choice::Ordered,
    ),
    Workload("flush", Action::Flush, Choice::Ordered),
    Workload(
        "first read hit from tables",
        Action::ReadHit,
        Choice::Others,
    ),
    Workload("read hit from tables", Action::ReadHit, Choice::Others),
    Workload("read miss from tables", Action::ReadMiss, Choice::Others),
    Workload("scan forward", Action::ScanForward, Choice::Ordered),
    Workload("scan back", Action::ScanBack, Choice::Ordered),
    Workload("range of 100", Action::ReadRanges, Choice::Starts),
    Workload("overwrite at random", Action::Insert, Choice::Others),
    Workload("delete at random", Action::Remove, Choice::Others),
];

const BATCHES: [Workload; 1] = [Workload(
    "batches of 100 writes",
    Action::InsertBatches,
    Choice::Shuffled,
)];

const SYNCED: [Workload; 1] = [Workload("one sync a write", Action::InsertSynced, Choice::Synced)];

// What the machine can do at best: a write takes a digest, an append and an insertion into a memtable, a scan its pairs.
const LIMITS: [Workload; 7] = [
    Workload(
        "digest 150 bytes",
        Action::Digest(Digested::Inserts),
        Choice::Ordered,
    ),
    Workload(
        "digest 50 bytes",
        Action::Digest(Digested::Deletions),
        Choice::Ordered,
    ),
    Workload(
        "digest 13713 bytes a hundred",
        Action::Digest(Digested::Batches(PAIRS_TOGETHER)),
        Choice::Ordered,
    ),
    Workload("append 150 bytes", Action::Append, Choice::Ordered),
    Workload(
        "fill a memtable in order",
        Action::FillMemtable,
        Choice::Ordered,
    ),
    Workload(
        "fill a memtable at random",
        Action::FillMemtable,
        Choice::Shuffled,
    ),
    Workload("make pairs", Action::MakePairs, Choice::Ordered),
];

const FILL: [Workload; 1] = [Workload("fill at random", Action::Insert, Choice::Shuffled)];

// A random fill with its flushes and merges, and what is done behind it.
const LONG: [Workload; 6] = [
    Workload("long: fill at random", Action::Insert, Choice::Shuffled),
    Workload("long: major merge", Action::Merge, Choice::Ordered),
    Workload("long: read hit", Action::ReadHit, Choice::Fifth),
    Workload("long: scan forward", Action::ScanForward, Choice::Ordered),
    Workload("long: close", Action::Close, Choice::Ordered),
    Workload("long: reopen", Action::Reopen, Choice::Ordered),
];

/// Workloads over one database, one after another, and the name by which they are asked for.
#[derive(Clone, Copy)]
pub struct Group {
    pub name: &'static str,
    pub workloads: &'static [Workload],
    /// Whether they are run where no name is asked for.
    pub is_usual: bool,
}

/// All groups, in the order in which they are run.
pub const GROUPS: [Group; 7] = [
    Group {
        name: "order",
        workloads: &ORDER,
        is_usual: true,
    },
    Group {
        name: "random",
        workloads: &RANDOM,
        is_usual: true,
    },
    Group {
        name: "batches",
        workloads: &BATCHES,
        is_usual: true,
    },
    Group {
        name: "synced",
        workloads: &SYNCED,
        is_usual: true,
    },
    Group {
        name: "limits",
        workloads: &LIMITS,
        is_usual: true,
    },
    Group {
        name: "fill",
        workloads: &FILL,
        is_usual: false,
    },
    Group {
        name: "long",
        workloads: &LONG,
        is_usual: false,
    },
];

/// Whether a group has this name.
pub fn is_group(name: &str) -> bool {
    GROUPS.iter().any(|group| group.name == name)
}
