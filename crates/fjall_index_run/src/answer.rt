//! What lines are answered.

use fjall_index::{Error, IndexError, KvPair};
use fjall_recorder::LineError;
use std::alloc::{AllocError, AllocFailed};
use std::fmt;

/// What a line is answered that is done.
#[derive(Drop)]
pub enum Answer {
    Done,
    /// The core was open before.
    Open,
    Conflict,
    Transaction(usize),
    Snapshot(usize),
    Pairs(Vec<KvPair>),
    Count(u64),
    /// A tape's number, and how many moments it has.
    Tape(usize, usize),
    /// No record, no such tape, or no such way to crash.
    Nothing,
}

/// Why a line isn't done.
#[derive(Clone, Copy, Debug, PartialEq, Eq)]
pub enum Undone {
    /// It is no command.
    BadLine,
    /// No core is open.
    Shut,
    /// What it asks for is refused.
    Refused(IndexError),
    /// It is refused, and the program ends.
    Ended(IndexError),
}

/// What becomes of a line, or of a part of it.
pub type Tried<T> = Result<T, Undone>;

impl Undone {
    /// The same, where a refusal ends the program.
    pub fn ending(self) -> Undone {
        match self {
            Undone::Refused(error) => Undone::Ended(error),
            undone => undone,
        }
    }
}

impl From<IndexError> for Undone {
    fn from(error: IndexError) -> Undone {
        Undone::Refused(error)
    }
}

impl From<Error> for Undone {
    fn from(error: Error) -> Undone {
        Undone::Refused(IndexError::Engine(error))
    }
}

impl From<LineError> for Undone {
    fn from(error: LineError) -> Undone {
        match error {
            LineError::BadLine => Undone::BadLine,
            LineError::Refused(error) => Undone::from(error),
        }
    }
}

impl From<AllocError> for Undone {
    fn from(_: AllocError) -> Undone {
        Undone::from(Error::OutOfMemory)
    }
}

impl<T: Drop> From<AllocFailed<T>> for Undone {
    fn from(_: AllocFailed<T>) -> Undone {
        Undone::from(Error::OutOfMemory)
    }
}

impl fmt::Display for Undone {
    fn fmt<W: fmt::Write>(&self, f: &mut fmt::Formatter<W>) -> fmt::Result {
        match self {
            Undone::BadLine => f.write_str("error 0 BadLine"),
            Undone::Shut => f.write_str("shut"),
            Undone::Refused(error) | Undone::Ended(error) => {
                write!(f, "error {} {}", error.number(), error.name())
            }
        }
    }
}

// Bytes in lower-case hexadecimal, `-` for none.
fn write_word<W: fmt::Write>(f: &mut fmt::Formatter<W>, bytes: &[u8]) -> fmt::Result {
    if bytes.is_empty() {
        return f.write_str("-");
    }
    for byte in bytes {
        write!(f, "{byte:02x}")?;
    }
    Ok(())
}

// Pairs, each behind a space.
fn write_pairs<W: fmt::Write>(f: &mut fmt::Formatter<W>, pairs: &[KvPair]) -> fmt::Result {
    f.write_str("pairs")?;
    for (key, value) in pairs {
        f.write_str(" ")?;
        write_word(f, key)?;
        f.write_str("=")?;
        write_word(f, value)?;
    }
    Ok(())
}

impl fmt::Display for Answer {
    fn fmt<W: fmt::Write>(&self, f: &mut fmt::Formatter<W>) -> fmt::Result {
        match self {
            Answer::Done => f.write_str("ok"),
            Answer::Open => f.write_str("open"),
            Answer::Conflict => f.write_str("conflict"),
            Answer::Transaction(number) => write!(f, "tx {number}"),
            Answer::Snapshot(number) => write!(f, "snapshot {number}"),
            Answer::Pairs(pairs) => write_pairs(f, pairs),
            Answer::Count(count) => write!(f, "count {count}"),
            Answer::Tape(number, moments) => write!(f, "tape {number} {moments}"),
            Answer::Nothing => f.write_str("none"),
        }
    }
}
