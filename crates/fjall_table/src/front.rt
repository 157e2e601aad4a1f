//! The front of a key: its first sixteen bytes, as one number.

ghost use Rattle.std.specs.Prelude.{◌≡◌};
ghost use Rattle.std.specs.Int.{w128, to_be_bytes};
ghost use Rattle.fjall_base.specs.Pairs.{byte_order};
ghost use Rattle.fjall_table.specs.Padded.{padded};

use std::cmp::Ordering;

// The first sixteen bytes, with zeros past the end.
fn padded_front(key: &[u8]) -> [u8; 16]
    ensures { result ≡ padded 16 key.now }
{
    match key.first_chunk::<16>() {
        Some(front) => *front,
        None => {
            let mut front = [0u8; 16];
            front[..key.len()].copy_from_slice(key);
            front
        }
    }
}

// The number that sixteen bytes spell, the greatest first.
fn number_of(bytes: &[u8; 16]) -> u128
    ensures { to_be_bytes w128 result ≡ bytes.now }
{
    u128::from_be_bytes(*bytes)
}

/// The number that the first sixteen bytes of a key spell, the greatest first and zeros past its end. Where these of two
/// keys are unlike, the keys compare as they do.
pub fn front_of(key: &[u8]) -> u128
    ensures { to_be_bytes w128 result ≡ padded 16 key.now }
{
    number_of(&padded_front(key))
}

/// How the bytes of two fronts compare: as the numbers that they spell.
#[inline(always)]
pub fn compare_numbers(front: u128, other: u128) -> Ordering
    ensures { result ≡ byte_order (to_be_bytes w128 front) (to_be_bytes w128 other) }
{
    front.cmp(&other)
}
