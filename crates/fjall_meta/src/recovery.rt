//! What is persisted of what batches say.

ghost use Rattle.std.specs.Prelude.{◌≡◌, ◌<◌, ◌++◌, ◌∷◌, [], All, OnErr, OnOk};
ghost use Rattle.fjall_meta.specs.Replays.{persisted_at};

use std::alloc::{AllocError, Global};
use std::marker::Model;

/// The number up to which all that batches say of a keyspace is persisted, where there is one.
#[derive(Clone, Copy, Debug, PartialEq, Eq)]
pub struct Persisted {
    pub id: u64,
    pub number: Option<u64>,
}

/// What is persisted of keyspaces, by their ids ascending.
#[derive(Drop)]
pub struct PersistedNumbers {
    numbers: Vec<Persisted>,
}

impl Model for PersistedNumbers {
    ghost use Rattle.std.specs.Prelude.{◌<◌, AllPairs, List};
    ghost use Rattle.fjall_meta.specs.declared.recovery.Persisted.{Persisted};

    ghost Value = { List Persisted };

    ghost view = { λ p. p.numbers.items };

    ghost invariant = { λ p. AllPairs (λ j k. j.id < k.id) p.numbers.items };
}

impl PersistedNumbers {
    /// Of no keyspace.
    pub fn new(alloc: Global) -> PersistedNumbers
        ensures { result ≡ [] }
    {
        PersistedNumbers {
            numbers: Vec::new(alloc),
        }
    }

    /// Tells of one keyspace more, whose id is above those of all others. Only memory may be missing, and then nothing changes.
    pub fn push(&mut self, last: Persisted) -> Result<(), AllocError>
        requires above { All (λ k. k.id < last.id) self.old }
        ensures ok { OnOk result (self.new ≡ self.old ++ last ∷ []) }
        ensures err { OnErr result (self.new ≡ self.old) }
    {
        self.numbers.push(last)?;
        Ok(())
    }

    /// The number up to which all of a keyspace is persisted, where there is one.
    pub fn get(&self, id: u64) -> Option<u64>
        ensures { result ≡ persisted_at id self.now }
    {
        match self
            .numbers
            .binary_search_by_key(&id, |keyspace| keyspace.id)
        {
            Ok(place) => self.numbers[place].number,
            Err(_) => None,
        }
    }
}
