//! A disk in memory that keeps a record of its steps and fails where it is told to; what a crash may leave at each moment of a
//! record; changes of its files by hand; and the words that lines spell all that with.
#![tactic(auto)]

mod by_hand;
mod control;
mod handle;
mod moments;
mod recorder;
mod tapes;
mod words;

pub use by_hand::{Change, entries};
pub use handle::Handle;
pub use recorder::Part;
pub use tapes::{Tape, Way};
pub use words::{LineError, Parsed, byte, bytes, durability, mode, number, op, range, size, value};
