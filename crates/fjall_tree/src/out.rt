//! Jobs that are out.

/// A flush that was begun and not finished: how many sealed parts it was begun with, the oldest ones, and their clears.
#[derive(Drop)]
pub(crate) struct FlushOut {
    pub(crate) id: u64,
    pub(crate) watermark: u64,
    pub(crate) count: usize,
    pub(crate) clears: Vec<u64>,
}

/// A merge that was begun and not finished: how many tables and how many of the record's clears it was begun with, the first
/// ones. All that they hold is numbered below the bound, and what came since from it on.
#[derive(Clone, Copy, Debug)]
pub(crate) struct MergeOut {
    pub(crate) id: u64,
    pub(crate) watermark: u64,
    pub(crate) tables: usize,
    pub(crate) clears: usize,
    pub(crate) bound: u64,
}
