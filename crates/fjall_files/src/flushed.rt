//! How far keyspaces have been flushed.

ghost use Rattle.std.specs.Prelude.{◌≡◌, ℕ, Bool};

/// What knows how far each keyspace has been flushed, that is brought to tables.
pub trait Flushed {
    /// Whether no journal is wanted for the changes of a keyspace up to a number: no living keyspace has the id, or all of
    /// them stand in its tables.
    ghost flushed: { Self → ℕ → ℕ → Bool };

    /// Whether no journal is wanted for the changes of the keyspace of this id that are numbered at most `lsn`.
    fn has_flushed(&self, keyspace_id: u64, lsn: u64) -> bool
        ensures { result ≡ flushed self.now keyspace_id lsn };
}
