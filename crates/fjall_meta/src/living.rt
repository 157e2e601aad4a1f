//! A keyspace that lives.

use fjall_base::Slice;
use fjall_options::KeyspaceCreateOptions;

/// A keyspace that lives, as the meta keyspace knows it.
#[derive(Debug, Drop)]
pub struct LivingKeyspace {
    /// Its id, at least 1. No other keyspace has or had it.
    pub id: u64,
    /// The number of the change that created it.
    pub number: u64,
    /// Its name, of 1 to 255 bytes.
    pub name: Slice,
    /// What it was created with.
    pub options: KeyspaceCreateOptions,
}
