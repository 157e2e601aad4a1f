//! A pair that a read found, or the fault that it met.

ghost use Rattle.std.specs.Prelude.{◌≡◌, Bool, Ok, Err, Some, None, if◌then◌else◌, MatchResult};
ghost use Rattle.std.specs.Fn.{FnReturnsAt};
ghost use Rattle.fjall_reading.specs.Guards.{key_in, size_in, value_in};

use crate::size::size_of;
use fjall_base::{KvPair, Result, UserKey, UserValue};
use std::marker::Model;

/// A pair that a read found, or the fault that it met.
#[derive(Drop)]
pub struct Guard {
    found: Result<KvPair>,
}

impl Model for Guard {
    ghost use Rattle.std.specs.Prelude.{Result};
    ghost use Rattle.fjall_base.specs.Pairs.{Bytes};
    ghost use Rattle.fjall_base.specs.declared.error.Error.{Error};

    ghost Value = { Result (Bytes × Bytes) Error };

    ghost view = { λ guard. guard.found };

    ghost inverse = { λ found. record { found = found } };
}

impl Guard {
    /// The guard of what a read gave.
    pub fn new(found: Result<KvPair>) -> Guard
        ensures { result ≡ found }
    {
        Guard { found }
    }

    /// The pair's key, or the fault.
    pub fn key(self) -> Result<UserKey>
        ensures { result ≡ key_in self }
    {
        match self.found {
            Ok((key, _)) => Ok(key),
            Err(error) => Err(error),
        }
    }

    /// The pair's value, or the fault.
    pub fn value(self) -> Result<UserValue>
        ensures { result ≡ value_in self }
    {
        match self.found {
            Ok((_, value)) => Ok(value),
            Err(error) => Err(error),
        }
    }

    /// How many bytes the pair's value has, or the fault. No keyspace has a value of more than 4,294,967,295 bytes; any
    /// longer one counts as one of these.
    pub fn size(self) -> Result<u32>
        ensures { result ≡ size_in self }
    {
        match self.found {
            Ok((_, value)) => Ok(size_of(&value)),
            Err(error) => Err(error),
        }
    }

    /// The pair, or the fault.
    pub fn into_inner(self) -> Result<KvPair>
        ensures { result ≡ self }
    {
        self.found
    }

    /// The pair's key, and its value where the predicate holds of the key; or the fault.
    pub fn into_inner_if<P: Fn(&UserKey) -> bool>(
        self,
        pred: P,
    ) -> Result<(UserKey, Option<UserValue>)>
        requires { P.IsAlwaysCallable pred }
        ensures { MatchResult self (λ pair. (wanted : Bool) × FnReturnsAt P.Fn pred pair.0 wanted × (result ≡ Ok (pair.0, if wanted then Some pair.1 else None))) (λ error. result ≡ Err error) }
    {
        match self.found {
            Ok((key, value)) => {
                let wanted = pred(&key);
                Ok((key, if wanted { Some(value) } else { None }))
            }
            Err(error) => Err(error),
        }
    }
}
