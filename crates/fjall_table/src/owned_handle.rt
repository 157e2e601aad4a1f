//! Where a data block stands, with a key of its own.

ghost use Rattle.std.specs.Prelude.{◌≡◌};
ghost use Rattle.std.specs.Int.{w128, to_be_bytes};
ghost use Rattle.std.specs.Ordering.{is_lt, is_le};
ghost use Rattle.fjall_base.specs.Pairs.{byte_order};
ghost use Rattle.fjall_table.specs.Padded.{padded};

use crate::front::{compare_numbers, front_of};
use crate::keys::compare;
use crate::sought::Sought;
use fjall_base::Slice;
use std::cmp::Ordering;

/// Where a data block stands, and the key of its first entry, which is kept as long as the handle is.
#[derive(Drop)]
pub struct OwnedHandle {
    /// In bytes from the start of the file.
    pub offset: u64,
    /// How many bytes the framed block has.
    pub len: u64,
    /// It has 1 to 65,535 bytes.
    pub first_key: Slice,
    // The key's front, by which most look-ups pass a handle without a look at its key.
    front: u128,
    ghost fronts: { to_be_bytes w128 front ≡ padded 16 first_key },
}

impl OwnedHandle {
    pub(crate) fn new(offset: u64, len: u64, first_key: Slice) -> OwnedHandle
        ensures offset { result.offset ≡ offset }
        ensures len { result.len ≡ len }
        ensures key { result.first_key ≡ first_key }
    {
        let front = front_of(first_key.as_slice());
        OwnedHandle {
            offset,
            len,
            first_key,
            front,
        }
    }

    // How its key compares with one that is looked for.
    #[inline(always)]
    fn compare(&self, sought: &Sought<'_>) -> Ordering
        ensures { result ≡ byte_order self.now.first_key sought.now.key.now }
    {
        let order = compare_numbers(self.front, sought.front);
        if order.is_ne() {
            return order;
        }
        compare(self.first_key.as_slice(), sought.key)
    }

    /// Whether its block begins with a key below it.
    #[inline(always)]
    pub(crate) fn is_below(&self, sought: &Sought<'_>) -> bool
        ensures { result ≡ is_lt (byte_order self.now.first_key sought.now.key.now) }
    {
        self.compare(sought).is_lt()
    }

    /// Whether its block begins with a key at most it.
    #[inline(always)]
    pub(crate) fn is_at_most(&self, sought: &Sought<'_>) -> bool
        ensures { result ≡ is_le (byte_order self.now.first_key sought.now.key.now) }
    {
        self.compare(sought).is_le()
    }
}
