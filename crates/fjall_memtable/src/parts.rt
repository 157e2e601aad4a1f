//! All parts of a keyspace in memory.

ghost use Rattle.std.specs.Prelude.{◌≡◌, ◌-◌, ◌<◌, ◌≤◌, ◌^◌, ◌++◌, ◌∷◌, [], length, take, drop, map, min, not, IfOk, OnOk, OnErr, Ok, true, false};
ghost use Rattle.std.specs.List.{All, sum_by};
ghost use Rattle.std.specs.Option.{option_map};
ghost use Rattle.fjall_table.specs.Blocks.{seen, value_bytes};
ghost use Rattle.fjall_memtable.specs.Entries.{size_of, version, IsAbsent};
ghost use Rattle.fjall_memtable.specs.Presence.{has_entry};
ghost use Rattle.fjall_memtable.specs.Views.{newest};
ghost use Rattle.fjall_memtable.specs.SortedPages.{barrier};
ghost use Rattle.fjall_memtable.specs.Parts.{AreApart, IsHeld, apart_prop, clears_in, empty_from, holds_nothing, parts_of, rotated, versions_in, with_active, with_clear, with_version};
ghost use Rattle.fjall_memtable.specs.Held.{held_of};
ghost use Rattle.fjall_memtable.specs.Shares.{shared};

use crate::mark::Mark;
use crate::part::Part;
use crate::shared::{barrier_of, len_of, newest_of, size_of_all};
use fjall_table::TableEntry;
use std::alloc::{AllocError, Global};
use std::mem;
use std::sync::Arc;

/// All parts of a keyspace in memory: the sealed ones, which stay as they are, the oldest first, and the active one, which
/// is written. Each part's numbers end where the next one's begin, or before.
#[derive(Drop)]
pub struct Parts {
    pub(crate) alloc: Global,
    pub(crate) sealed: Vec<Arc<Part>>,
    pub(crate) active: Part,
    ghost apart: { AreApart (shared sealed.items ++ held_of active ∷ []) } by { apart_prop (shared sealed.items ++ held_of active ∷ []) },
}

impl Parts {
    ghost use Rattle.fjall_memtable.specs.Memories.{memory_at, memory_of, IsMark, KeepsMarks};

    /// No sealed part, and an empty active one for numbers from this one on, which is at most 2^63. It takes no memory.
    pub fn new(alloc: Global, from: u64) -> Parts
        requires { from ≤ 2 ^ 63 }
        ensures { memory_of result ≡ record { sealed = []; active = empty_from from } }
    {
        Parts {
            alloc,
            sealed: Vec::new(alloc),
            active: Part::new(alloc, from),
        }
    }

    /// Adds what the change of that number made of a key to the active part: a value, or None where it removed the key. The
    /// key has 1 to 65,535 bytes and the value at most 4,294,967,295; the active part begins at the number or before, and
    /// has no version of that key and number yet. It is refused for want of memory alone, and an `Err` leaves all as it was.
    pub fn insert(
        &mut self,
        key: &[u8],
        number: u64,
        value: Option<&[u8]>,
    ) -> Result<(), AllocError>
        requires some { 0 < length key.now }
        requires key { length key.now < 2 ^ 16 }
        requires value { length (value_bytes (option_map (λ v. v.now) value)) < 2 ^ 32 }
        requires absent { IsAbsent key.now number (memory_of self.old).active.versions }
        requires from { (memory_of self.old).active.from ≤ number }
        requires small { number < 2 ^ 63 }
        ensures ok { OnOk result (memory_of self.new ≡ with_active (with_version (version key.now number (option_map (λ v. v.now) value.entry)) (memory_of self.old).active) (memory_of self.old)) }
        ensures err { OnErr result (memory_of self.new ≡ memory_of self.old) }
        ensures marks { KeepsMarks self.old self.new }
    {
        self.active.insert(key, number, value)
    }

    /// Adds the same where the active part has no version of that key and number yet, by one look-up, and says so; where it
    /// has one nothing changes, and it answers false. It is refused for want of memory alone, and an `Err` leaves all as it
    /// was.
    pub fn insert_once(
        &mut self,
        key: &[u8],
        number: u64,
        value: Option<&[u8]>,
    ) -> Result<bool, AllocError>
        requires some { 0 < length key.now }
        requires key { length key.now < 2 ^ 16 }
        requires value { length (value_bytes (option_map (λ v. v.now) value)) < 2 ^ 32 }
        requires from { (memory_of self.old).active.from ≤ number }
        requires small { number < 2 ^ 63 }
        ensures told { IfOk result (λ is_new. is_new ≡ not (has_entry key.now number (memory_of self.old).active.versions)) }
        ensures new { result ≡ Ok true → memory_of self.new ≡ with_active (with_version (version key.now number (option_map (λ v. v.now) value.entry)) (memory_of self.old).active) (memory_of self.old) }
        ensures there { result ≡ Ok false → memory_of self.new ≡ memory_of self.old }
        ensures err { OnErr result (memory_of self.new ≡ memory_of self.old) }
        ensures marks { KeepsMarks self.old self.new }
    {
        self.active.insert_once(key, number, value)
    }

    /// Adds a clear to the active part, which begins at its number or before, and whose clears are all below it. It is
    /// refused for want of memory alone, and an `Err` leaves all as it was.
    pub fn clear(&mut self, number: u64) -> Result<(), AllocError>
        requires from { (memory_of self.old).active.from ≤ number }
        requires small { number < 2 ^ 63 }
        requires last { All (λ n. n < number) (memory_of self.old).active.clears }
        ensures ok { OnOk result (memory_of self.new ≡ with_active (with_clear number (memory_of self.old).active) (memory_of self.old)) }
        ensures err { OnErr result (memory_of self.new ≡ memory_of self.old) }
        ensures marks { KeepsMarks self.old self.new }
    {
        self.active.clear(number)
    }

    /// A mark of what it holds now, to which `undo` goes back.
    pub fn mark(&self) -> Mark
        ensures mark { IsMark self.now result }
        ensures memory { memory_at result self.now ≡ memory_of self.now }
    {
        self.active.mark()
    }

    /// Takes back all that was inserted and cleared since a mark. It takes no memory and can't fail, and looks at each
    /// version of the active part.
    pub fn undo(&mut self, mark: Mark)
        requires { IsMark self.old mark }
        ensures { memory_of self.new ≡ memory_at mark self.old }
    {
        self.active.undo(mark);
    }

    /// Seals the active part, and begins an empty one where it ended; false where the active part holds nothing, and then
    /// nothing changes. It is refused for want of memory alone, and an `Err` leaves all as it was.
    pub fn rotate(&mut self) -> Result<bool, AllocError>
        ensures ok { IfOk result (λ is_sealed. is_sealed ≡ not (holds_nothing (memory_of self.old).active)) }
        ensures sealed { result ≡ Ok true → memory_of self.new ≡ rotated (memory_of self.old) }
        ensures empty { result ≡ Ok false → memory_of self.new ≡ memory_of self.old }
        ensures err { OnErr result (memory_of self.new ≡ memory_of self.old) }
    {
        if self.active.is_empty() {
            return Ok(false);
        }
        self.sealed.reserve(1)?;
        let next = Part::new(self.alloc, self.active.until);
        let full = mem::replace(&mut self.active, next);
        match Arc::new(self.alloc, full) {
            Ok(part) => {
                self.sealed.push_reserved(part);
                Ok(true)
            }
            Err(refused) => {
                self.active = refused.value;
                Err(AllocError)
            }
        }
    }

    /// The newest version of a key in all parts that is numbered below an instant; None where no version is. Parts are asked
    /// from the newest on, up to the first that has one. It is refused for want of memory alone.
    pub fn newest(&self, key: &[u8], instant: u64) -> Result<Option<TableEntry<'_>>, AllocError>
        ensures { IfOk result (λ found. option_map seen found ≡ newest key.now instant (versions_in (parts_of (memory_of self.now)))) }
    {
        if let Some(found) = self.active.newest(key, instant)? {
            return Ok(Some(found));
        }
        newest_of(self.sealed.as_slice(), key, instant)
    }

    /// The greatest clear of all parts below an instant, or 0 where there is none. Parts are asked from the newest on, up to
    /// the first that has one.
    pub fn barrier(&self, instant: u64) -> u64
        ensures { result ≡ barrier instant (clears_in (parts_of (memory_of self.now))) }
    {
        let found = self.active.barrier(instant);
        if found != 0 {
            return found;
        }
        barrier_of(self.sealed.as_slice(), instant)
    }

    /// How many versions all parts have; the greatest usize where that is too small.
    pub fn len(&self) -> usize
        ensures { result ≡ min (length (versions_in (parts_of (memory_of self.now)))) (2 ^ 64 - 1) }
    {
        len_of(self.sealed.as_slice()).saturating_add(self.active.len())
    }

    /// How many bytes the versions of all parts count for; the greatest u64 where that is too small.
    pub fn size(&self) -> u64
        ensures { result ≡ min (sum_by size_of (versions_in (parts_of (memory_of self.now)))) (2 ^ 64 - 1) }
    {
        size_of_all(self.sealed.as_slice()).saturating_add(self.active.size())
    }

    /// How many bytes the versions of the active part count for; the greatest u64 where that is too small.
    pub fn active_size(&self) -> u64
        ensures { result ≡ min (sum_by size_of (memory_of self.now).active.versions) (2 ^ 64 - 1) }
    {
        self.active.size()
    }

    /// Whether the active part has no version and no clear.
    pub fn is_active_empty(&self) -> bool
        ensures { result ≡ holds_nothing (memory_of self.now).active }
    {
        self.active.is_empty()
    }

    /// All numbers are below this one.
    pub fn until(&self) -> u64
        ensures until { result ≡ (memory_of self.now).active.until }
        ensures held { All IsHeld (parts_of (memory_of self.now)) }
        ensures apart { AreApart (parts_of (memory_of self.now)) }
    {
        self.active.until
    }

    /// How many sealed parts there are.
    pub fn sealed_count(&self) -> usize
        ensures { result ≡ length (memory_of self.now).sealed }
    {
        self.sealed.as_slice().len()
    }

    /// The sealed parts, the oldest first.
    pub fn sealed(&self) -> &[Arc<Part>]
        ensures { shared result.now ≡ (memory_of self.now).sealed }
    {
        self.sealed.as_slice()
    }

    /// The active part.
    pub fn active(&self) -> &Part
        ensures { held_of result.now ≡ (memory_of self.now).active }
    {
        &self.active
    }

    /// The oldest sealed parts, so many, to be kept as they are. It is refused for want of memory alone, or where one has as
    /// many owners as can be.
    pub fn share(&self, count: usize) -> Result<Vec<Arc<Part>>, AllocError>
        requires { count ≤ length (memory_of self.now).sealed }
        ensures { IfOk result (λ parts. shared parts.items ≡ take count (memory_of self.now).sealed) }
    {
        let mut parts = Vec::with_capacity(self.alloc, count)?;
        let oldest = &self.sealed.as_slice()[..count];
        for part in oldest {
            parts.push(Arc::try_clone(part)?)?;
        }
        Ok(parts)
    }

    /// Removes the oldest sealed parts, so many. It takes no memory and can't fail.
    pub fn remove_sealed(&mut self, count: usize)
        requires { count ≤ length (memory_of self.old).sealed }
        ensures { memory_of self.new ≡ record { sealed = drop count (memory_of self.old).sealed; active = (memory_of self.old).active } }
    {
        self.sealed.drain(..count);
    }
}
