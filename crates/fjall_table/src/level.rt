//! Where a table stands.

/// The level of a table.
#[derive(Clone, Copy, Debug, PartialEq, Eq)]
pub enum Level {
    /// As a flush made it.
    L0 = 0,
    /// As a merge made it.
    L1 = 1,
}
