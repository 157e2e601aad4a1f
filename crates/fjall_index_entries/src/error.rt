//! Why a call of an index is refused.

ghost use Rattle.std.specs.Prelude.{◌≡◌};
ghost use Rattle.fjall_base.specs.declared.error.Error.TheVariants.{OutOfMemory};
ghost use Rattle.fjall_index_entries.specs.Refusals.{name_of, number_of};
ghost use Rattle.fjall_index_entries.specs.declared.error.IndexError.TheVariants.{Engine};

use fjall_base::Error;
use std::alloc::{AllocError, AllocFailed};
use std::fmt;

/// Why a call was refused: as the engine refuses it, or for the index. It displays as `FjallError: KeyEmpty` or as
/// `IndexError: IndexStale`.
#[derive(Clone, Copy, Debug, PartialEq, Eq)]
pub enum IndexError {
    /// As a call of the engine alone.
    Engine(Error),
    /// The index keyspace's map isn't the index of the main keyspace's.
    IndexStale,
    /// The main keyspace and the index keyspace are one.
    SameKeyspace,
}

/// What a call of an index answers: a value or a refusal.
pub type Result<T> = std::result::Result<T, IndexError>;

impl IndexError {
    /// The refusal's number: the engine's, from 1 to 22, or 23 and 24 in the order of the variants. It never changes.
    pub fn number(&self) -> u8
        ensures { result ≡ number_of self.now }
    {
        match self {
            IndexError::Engine(error) => error.number(),
            IndexError::IndexStale => 23,
            IndexError::SameKeyspace => 24,
        }
    }

    /// The refusal's name without what it carries: the engine's, `IndexStale` or `SameKeyspace`.
    pub fn name(&self) -> &'static str
        ensures { result.now ≡ name_of self.now }
    {
        match self {
            IndexError::Engine(error) => error.name(),
            IndexError::IndexStale => "IndexStale",
            IndexError::SameKeyspace => "SameKeyspace",
        }
    }
}

impl fmt::Display for IndexError {
    fn fmt<W: fmt::Write>(&self, f: &mut fmt::Formatter<W>) -> fmt::Result {
        match self {
            IndexError::Engine(error) => write!(f, "{error}"),
            _ => write!(f, "IndexError: {self:?}"),
        }
    }
}

impl std::error::Error for IndexError {}

impl From<Error> for IndexError {
    ghost from_gives = { λ error e. e ≡ Engine error };

    fn from(error: Error) -> IndexError {
        IndexError::Engine(error)
    }
}

impl From<AllocError> for IndexError {
    ghost from_gives = { λ _ e. e ≡ Engine OutOfMemory };

    fn from(_: AllocError) -> IndexError {
        IndexError::Engine(Error::OutOfMemory)
    }
}

impl<T: Drop> From<AllocFailed<T>> for IndexError {
    ghost from_gives = { λ _ e. e ≡ Engine OutOfMemory };

    fn from(_: AllocFailed<T>) -> IndexError {
        IndexError::Engine(Error::OutOfMemory)
    }
}
