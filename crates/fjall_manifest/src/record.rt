//! Records of a keyspace's `current`.

use fjall_table::{Level, TableInfo};

/// Which tables a keyspace has, and up to where they hold its changes.
#[derive(Debug, Drop)]
pub struct Record {
    /// The greatest number of a change that need not be replayed.
    pub persisted: Option<u64>,
    /// The greatest number of the keyspace.
    pub highest: Option<u64>,
    /// The id of the next table. Ids are never used again.
    pub next_table_id: u64,
    /// The id of the next keyspace, in the record of keyspace 0; 0 in others.
    pub next_keyspace_id: u64,
    pub tables: Vec<TableInfo>,
    /// The numbers of the clears, ascending.
    pub clears: Vec<u64>,
}

/// What stands before the lists of a record.
#[derive(Clone, Copy)]
pub(crate) struct Numbers {
    pub(crate) persisted: Option<u64>,
    pub(crate) highest: Option<u64>,
    pub(crate) next_table_id: u64,
    pub(crate) next_keyspace_id: u64,
}
