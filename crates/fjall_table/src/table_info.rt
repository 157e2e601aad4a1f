//! What is said of a table.

use crate::level::Level;

/// What a record says of a table.
#[derive(Clone, Copy, Debug, PartialEq, Eq)]
pub struct TableInfo {
    pub id: u64,
    pub level: Level,
    /// In bytes.
    pub file_len: u64,
    pub entry_count: u64,
}
