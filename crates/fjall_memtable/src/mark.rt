//! Marks, to which the active part goes back.

/// What the active part held once: how many bytes of keys and values, and how many clears, and where its numbers ended.
#[derive(Clone, Copy, Debug)]
pub struct Mark {
    pub(crate) versions: usize,
    pub(crate) clears: usize,
    pub(crate) until: u64,
}
