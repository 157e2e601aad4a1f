//! What names a keyspace.

ghost use Rattle.std.specs.Prelude.{◌≡◌, ℕ};

/// What names a keyspace: its id, or a handle of it.
pub trait Identified {
    /// The id that it has.
    ghost identity: { Self → ℕ };

    /// The keyspace's id.
    fn id(&self) -> u64
        ensures { result ≡ identity self.now };
}

impl Identified for u64 {
    ghost identity = { λ id. id };

    fn id(&self) -> u64 {
        *self
    }
}
