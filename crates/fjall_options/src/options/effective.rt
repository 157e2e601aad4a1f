//! The options that have an effect.

/// What the options of a keyspace say that have an effect. All others are kept and say nothing.
#[derive(Clone, Copy, Debug, PartialEq, Eq)]
pub struct EffectiveSettings {
    /// Whether writes leave it to the caller to persist the journal.
    pub manual_journal_persist: bool,
    /// The bytes of an active memtable above which it is sealed.
    pub max_memtable_size: u64,
    /// How many tables at level 0 start a merge; at least 1.
    pub l0_threshold: u8,
    /// The bytes that a merge aims at in each table; at least 1.
    pub target_size: u64,
}
