//! The readers of bytes behind the C calling convention, for a fuzzer: each export hands its input to one of them, as it is or
//! framed with right checks, and answers a number.
#![tactic(auto)]

mod answer;
mod blocks;
mod journals;
mod keyspaces;
mod parts;
mod records;
mod small;
mod stored;
mod tables;

pub use blocks::fjall_read_find;
pub use journals::{fjall_read_batches, fjall_read_journal};
pub use keyspaces::{fjall_read_keyspaces, fjall_read_pairs};
pub use records::{fjall_read_current, fjall_read_records};
pub use small::{fjall_read_lines, fjall_read_marker};
pub use stored::{fjall_read_options, fjall_read_policy};
pub use tables::{fjall_read_blocks, fjall_read_table};
