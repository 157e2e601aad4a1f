//! What a look-up finds.

use fjall_base::UserValue;

/// The newest version of a key. Its value is a part of the text of its block, which is kept as long as the value is.
#[derive(Debug, Drop)]
pub struct Found {
    /// The number of the change.
    pub number: u64,
    /// None where the key was removed.
    pub value: Option<UserValue>,
}
