//! A policy: what holds on each level of a keyspace's tree.

ghost use Rattle.std.specs.Prelude.{◌≡◌, ◌<◌, ℕ, List, [], ◌∷◌, ◌++◌, length, Ok, IfOk, IfErr};
ghost use Rattle.std.specs.Slice.Iter.{iter_rest};
ghost use Rattle.fjall_base.specs.declared.error.CompressionType.TheVariants as compressions;
ghost use Rattle.fjall_base.specs.declared.error.Error.TheVariants.{OutOfMemory};
ghost use Rattle.fjall_options.specs.Reading.{Gives};
ghost use Rattle.fjall_options.specs.Policies.{policy_bytes, entries_at, policy_at};

use crate::options::config::{DecodeConfig, EncodeConfig};
use crate::options::entry::PolicyEntry;
use crate::options::filter::FilterPolicyEntry;
use fjall_base::{CompressionType, Error, Result, Slice};
use std::alloc::Global;
use std::io::ErrorKind;
use std::marker::Model;
use std::slice;

/// One entry for each level, from 1 to 255 of them; the last one holds on all further levels.
///
/// Policies whose entries are spelled alike are one type. A policy keeps its bytes beside its entries, so
/// that options take one without taking memory. How each kind is spelled stands on the formats page.
#[derive(Drop)]
pub struct Policy<T: PolicyEntry> {
    entries: Vec<T>,
    bytes: Slice,
}

/// The sizes of data blocks, in bytes.
pub type BlockSizePolicy = Policy<u32>;

/// How large the hash indexes of data blocks are, as ratios in millionths.
pub type HashRatioPolicy = Policy<u32>;

/// How many entries of a block share one restart point.
pub type RestartIntervalPolicy = Policy<u8>;

/// Whether blocks stay in memory.
pub type PinningPolicy = Policy<bool>;

/// Whether blocks are parted.
pub type PartitioningPolicy = PinningPolicy;

/// The filters.
pub type FilterPolicy = Policy<FilterPolicyEntry>;

/// How blocks are compressed.
pub type CompressionPolicy = Policy<CompressionType>;

impl<T: PolicyEntry> Model for Policy<T> {
    ghost use Rattle.std.specs.Prelude.{◌≡◌, ◌<◌, List, ℕ, ◌++◌, length, Ok};
    ghost use Rattle.fjall_options.specs.Policies.{policy_bytes, policy_at};

    ghost Value = { List T };

    ghost view = { λ p. p.entries.items };

    ghost invariant = { λ p. (0 < length p.entries.items) × (length p.entries.items < 256) × (p.bytes ≡ policy_bytes T.spelled p.entries.items)
        × ((rest : List ℕ) → policy_at T.entry_at (p.bytes ++ rest) ≡ Ok p.entries.items) };
}

impl<T: PolicyEntry> Policy<T> {
    /// The policy of these entries, from 1 to 255. It allocates, and fails where memory is used up.
    pub fn new(alloc: Global, entries: &[T]) -> Result<Policy<T>>
        requires some { 0 < length entries.now }
        requires few { length entries.now < 256 }
        ensures ok { IfOk result (λ policy. policy ≡ entries.now) }
        ensures only { IfErr result (λ e. e ≡ OutOfMemory) }
    {
        Policy::of(alloc, Vec::from_slice(alloc, entries)?)
    }

    /// The policy that holds these entries.
    fn of(alloc: Global, entries: Vec<T>) -> Result<Policy<T>>
        requires some { 0 < length entries.items }
        requires few { length entries.items < 256 }
        ensures ok { IfOk result (λ policy. policy ≡ entries.items) }
        ensures only { IfErr result (λ e. e ≡ OutOfMemory) }
    {
        let mut bytes = Vec::new(alloc);
        bytes.push(entries.len() as u8)?;
        for entry in &entries {
            entry.encode_into(&mut bytes)?;
        }
        Ok(Policy {
            bytes: Slice::new(alloc, &bytes)?,
            entries,
        })
    }

    /// The policy with this entry on each level. It allocates, and fails where memory is used up.
    pub fn all(alloc: Global, entry: T) -> Result<Policy<T>>
        ensures ok { IfOk result (λ policy. policy ≡ entry ∷ []) }
        ensures only { IfErr result (λ e. e ≡ OutOfMemory) }
    {
        let mut entries = Vec::new(alloc);
        entries.push(entry)?;
        Policy::of(alloc, entries)
    }

    /// How many entries it has, from 1 to 255.
    pub fn len(&self) -> usize
        ensures count { result ≡ length self.now }
        ensures some { 0 < result }
        ensures few { result < 256 }
    {
        self.entries.len()
    }

    /// The entries, by level.
    pub fn iter(&self) -> slice::Iter<'_, T>
        ensures { iter_rest result ≡ self.now }
    {
        self.entries.iter()
    }

    /// The bytes that it is stored as.
    pub(crate) fn into_bytes(self) -> Slice
        ensures bytes { result ≡ policy_bytes T.spelled self }
        ensures back { policy_at T.entry_at result ≡ Ok self }
    {
        self.bytes
    }
}

impl Policy<CompressionType> {
    /// The policy that compresses nothing. It allocates, and fails where memory is used up.
    pub fn disabled(alloc: Global) -> Result<CompressionPolicy>
        ensures ok { IfOk result (λ policy. policy ≡ compressions.None ∷ []) }
        ensures only { IfErr result (λ e. e ≡ OutOfMemory) }
    {
        Policy::all(alloc, CompressionType::None)
    }
}

impl<T: PolicyEntry> EncodeConfig for Policy<T> {
    ghost config_bytes = { policy_bytes T.spelled };

    fn encode(&self, alloc: Global) -> Result<Slice>
        ensures ok { IfOk result (λ bytes. bytes ≡ policy_bytes T.spelled self.now) }
        // Decoding gives the policy back, whatever stands behind its bytes.
        ensures back { IfOk result (λ bytes. (rest : List ℕ) → policy_at T.entry_at (bytes ++ rest) ≡ Ok self.now) }
        ensures only { IfErr result (λ e. e ≡ OutOfMemory) }
    {
        Ok(Slice::new(alloc, &self.bytes)?)
    }
}

impl<T: PolicyEntry> DecodeConfig for Policy<T> {
    ghost config_at = { policy_at T.entry_at };

    fn decode(alloc: Global, bytes: &[u8]) -> Result<Policy<T>> {
        let [count, rest @ ..] = bytes else {
            return Err(Error::Io(ErrorKind::UnexpectedEof));
        };
        if *count == 0 {
            return Err(Error::InvalidTag(("PolicyLength", 0)));
        }
        let entries = entries_of::<T>(alloc, *count, rest)?;
        Policy::of(alloc, entries)
    }
}

/// So many entries from the front of the bytes.
fn entries_of<T: PolicyEntry>(alloc: Global, count: u8, bytes: &[u8]) -> Result<Vec<T>>
    ensures gives { Gives (λ entries. entries.items) result (entries_at T.entry_at count bytes.now) }
    ensures count { IfOk result (λ entries. length entries.items ≡ count) }
{
    let mut entries = Vec::new(alloc);
    let mut rest = bytes;
    for _ in 0..count {
        let (entry, after) = T::decode_from(rest)?;
        entries.push(entry)?;
        rest = after;
    }
    Ok(entries)
}
