//! What recovery does with the end of a journal.

/// What an opening does with what stands behind the whole batches of the active journal.
#[derive(Clone, Copy, Debug, Default, PartialEq, Eq)]
pub enum RecoveryMode {
    /// A torn tail is cut off, since an append that was cut short leaves one; a damage is an error.
    #[default]
    TolerateCorruptTail,
    /// A torn tail of the active journal is an error too: nothing is cut off, and the folder stays as it was.
    RefuseTornTail,
}
