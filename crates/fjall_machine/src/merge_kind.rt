//! Which merges there are.

/// Which merge of a keyspace begins.
#[derive(Debug, Clone, Copy, PartialEq, Eq)]
pub enum MergeKind {
    /// One that is due: where as many tables stand at level 0 as the keyspace's settings say.
    Due,
    /// A major one: where the keyspace has a table.
    Major,
}
