//! Marks of several trees.

use fjall_memtable::Mark;

/// What the trees from a place on held once: a mark for each of so many of them.
#[derive(Drop)]
pub struct Marks {
    pub(crate) from: usize,
    pub(crate) marks: Vec<Mark>,
}
