//! Comparisons of keys, byte by byte, a beginning first.

ghost use Rattle.std.specs.Prelude.{◌≡◌};
ghost use Rattle.fjall_base.specs.Pairs.{byte_order};

use std::cmp::Ordering;

// Eight bytes compare as the number that they spell, the greatest first.
fn compare_words(word: &[u8; 8], other: &[u8; 8]) -> Ordering
    ensures { result ≡ byte_order word.now other.now }
{
    u64::from_be_bytes(*word).cmp(&u64::from_be_bytes(*other))
}

// Sixteen bytes compare so too.
fn compare_fronts(front: &[u8; 16], other: &[u8; 16]) -> Ordering
    ensures { result ≡ byte_order front.now other.now }
{
    u128::from_be_bytes(*front).cmp(&u128::from_be_bytes(*other))
}

// The same, eight bytes at a time, as long as both have so many.
#[inline(never)]
fn compare_by_words(key: &[u8], other: &[u8]) -> Ordering
    ensures { result ≡ byte_order key.now other.now }
{
    let mut rest = key;
    let mut other_rest = other;
    'words: while let Some((word, behind)) = rest.split_first_chunk::<8>() {
        let Some((other_word, other_behind)) = other_rest.split_first_chunk::<8>() else {
            return rest.cmp(other_rest);
        };
        let order = compare_words(word, other_word);
        if order.is_ne() {
            return order;
        }
        rest = behind;
        other_rest = other_behind;
    }
    rest.cmp(other_rest)
}

/// How keys compare: most by their first sixteen bytes alone.
#[inline(always)]
pub(crate) fn compare(key: &[u8], other: &[u8]) -> Ordering
    ensures { result ≡ byte_order key.now other.now }
{
    if let Some((front, _)) = key.split_first_chunk::<16>()
        && let Some((other_front, _)) = other.split_first_chunk::<16>()
    {
        let order = compare_fronts(front, other_front);
        if order.is_ne() {
            return order;
        }
    }
    compare_by_words(key, other)
}
