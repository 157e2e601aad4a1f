//! Pages of pairs, and ranges of keys that own their bounds.

ghost use Rattle.std.specs.Prelude.{◌≡◌, ℕ, Option, Some, None, IfOk};
ghost use Rattle.std.specs.Result.{result_err};
ghost use Rattle.fjall_base.specs.Pairs.{Pairs, key_range, page, pairs_between};
ghost use Rattle.fjall_base.specs.declared.error.Error.{Error};
ghost use Rattle.fjall_base.specs.declared.error.Error.TheVariants.{OutOfMemory};

use fjall_base::{KeyBounds, KvPair, Result, UserKey};
use std::alloc::Global;
use std::ops::Bound;

/// Where a range of keys begins and where it ends. Between reversed bounds lies no key.
pub type KeyRange = (Bound<UserKey>, Bound<UserKey>);

/// How many pairs the first page has that is fetched ahead. Each has twice as many as the one before.
pub(crate) const FIRST_PAGE: usize = 32;

/// And how many one has at most.
pub(crate) const LARGEST_PAGE: usize = 512;

/// What shows a map of each keyspace, and gives the pairs of it page by page.
pub trait Pages {
    /// Whether it shows this map of a keyspace: then all that it gives of the keyspace is of the map. One that may give anything
    /// shows none.
    ghost shows: { Self → ℕ → Pairs → Type 0 };

    /// How reads of a keyspace go, for whoever asks: what it was, the error that they met where they met one, and what it is then.
    ghost reads: { Self → ℕ → Option Error → Self → Type 0 };

    /// How pages of a keyspace are read, in the same terms. One that takes note of what is read takes none of its pages: whoever
    /// asks for them does.
    ghost paging: { Self → ℕ → Option Error → Self → Type 0 };

    /// What bounds of ranges and pairs are kept in.
    fn alloc(&self) -> Global;

    /// The first pairs of a keyspace between the bounds or, where `back` holds, the last ones; at most `max`, in the
    /// order of their keys in both cases. What it shows stays as it was, also after an `Err`.
    fn page(&mut self, id: u64, range: &KeyRange, back: bool, max: usize) -> Result<Vec<KvPair>>
        ensures ok { (map : Pairs) → shows self.old id map → IfOk result (λ found. found.items ≡ page back max (pairs_between range.now map)) }
        ensures same { (i : ℕ) (map : Pairs) → shows self.old i map → shows self.new i map }
        ensures paging { paging self.old id (result_err result) self.new };

    /// No read changes nothing.
    ghost reads_none: { (reader : Self) (id : ℕ) → reads reader id None reader };

    /// Reads go on from what those before left, of whichever keyspace.
    ghost reads_on: { (old mid new : Self) (first id : ℕ) (error : Option Error) → reads old first None mid → reads mid id error new → reads old id error new };

    /// Behind reads memory may be used up.
    ghost reads_short: { (old new : Self) (id : ℕ) → reads old id None new → reads old id (Some OutOfMemory) new };

    /// No page changes nothing.
    ghost paging_none: { (reader : Self) (id : ℕ) → paging reader id None reader };

    /// Pages go on from what those before left, of whichever keyspace.
    ghost paging_on: { (old mid new : Self) (first id : ℕ) (error : Option Error) → paging old first None mid → paging mid id error new → paging old id error new };

    /// Behind pages memory may be used up.
    ghost paging_short: { (old new : Self) (id : ℕ) → paging old id None new → paging old id (Some OutOfMemory) new };

    /// Whoever reads pages reads.
    ghost paging_reads: { (old new : Self) (id : ℕ) (error : Option Error) → paging old id error new → reads old id error new };
}
