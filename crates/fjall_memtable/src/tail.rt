//! How keys end.

ghost use Rattle.std.specs.Prelude.{◌≡◌, length, take, drop, IfOk};
ghost use Rattle.std.specs.Cmp.Lexicographic.{slice_cmp};
ghost use Rattle.std.specs.Ordering.{nat_cmp, ordering_then};
ghost use Rattle.fjall_memtable.specs.Tails.{rest_of, front_len_of};

use std::alloc::{AllocError, Global};
use std::cmp::Ordering;

/// What a key has beside its first sixteen bytes, its front. It takes no memory for a key of so many bytes or fewer.
#[derive(Drop)]
pub(crate) enum Tail {
    /// The key ends within the front or with it, and has so many of its bytes.
    Within(u8),
    /// The key has the whole front, and these bytes behind it.
    Behind(Box<Vec<u8>>),
}

impl Tail {
    /// The tail of a key.
    pub(crate) fn new(alloc: Global, key: &[u8]) -> Result<Tail, AllocError>
        ensures rest { IfOk result (λ t. rest_of t ≡ drop 16 key.now) }
        ensures len { IfOk result (λ t. front_len_of t ≡ length (take 16 key.now)) }
    {
        if key.len() <= 16 {
            return Ok(Tail::Within(key.len() as u8));
        }
        let rest = Vec::from_slice(alloc, &key[16..])?;
        Ok(Tail::Behind(Box::new(alloc, rest)?))
    }

    /// The bytes behind the front.
    fn rest(&self) -> &[u8]
        ensures { result.now ≡ rest_of self.now }
    {
        match self {
            Tail::Within(_) => &[],
            Tail::Behind(rest) => rest.as_slice(),
        }
    }

    /// How many bytes of the front are the key's.
    fn front_len(&self) -> u8
        ensures { result ≡ front_len_of self.now }
    {
        match self {
            Tail::Within(len) => *len,
            Tail::Behind(_) => 16,
        }
    }

    /// How keys with the same front and these tails compare.
    pub(crate) fn compare(&self, other: &Tail) -> Ordering
        ensures { result ≡ ordering_then (slice_cmp nat_cmp (rest_of self.now) (rest_of other.now)) (nat_cmp (front_len_of self.now) (front_len_of other.now)) }
    {
        let rests = self.rest().cmp(other.rest());
        rests.then(self.front_len().cmp(&other.front_len()))
    }
}
