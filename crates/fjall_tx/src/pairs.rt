//! Pairs in the order of their keys.

ghost use Rattle.std.specs.Prelude.{◌≡◌, ◌∷◌, false, IfNone, IfSome, IsTrue, slice_get};
ghost use Rattle.std.specs.Option.{option_map_or};
ghost use Rattle.std.specs.Ordering.{is_gt, is_le};
ghost use Rattle.fjall_base.specs.Pairs.{byte_order, page};

use fjall_base::{KvPair, UserKey};
use std::collections::VecDeque;

// Whether the first pair's key is at a key or below it, where there is a pair.
fn begins_up_to(pairs: &VecDeque<KvPair>, key: &UserKey) -> bool
    ensures { result ≡ option_map_or (λ pair. is_le (byte_order pair.0 key.now)) (slice_get pairs.now.items 0) false }
{
    match pairs.front() {
        Some(pair) => pair.0.cmp(key).is_le(),
        None => false,
    }
}

/// Takes the first pair out, where its key is at a key or below it.
pub(crate) fn pop_up_to(pairs: &mut VecDeque<KvPair>, key: &UserKey) -> Option<KvPair>
    ensures taken { IfSome result (λ pair. (pairs.old.items ≡ pair ∷ pairs.new.items) × IsTrue (is_le (byte_order pair.0 key.now))) }
    ensures rest { IfNone result (pairs.new.items ≡ pairs.old.items) }
    ensures above { IfNone result (IfSome (slice_get pairs.old.items 0) (λ pair. IsTrue (is_gt (byte_order pair.0 key.now)))) }
{
    if !begins_up_to(pairs, key) {
        return None;
    }
    pairs.pop_front()
}

/// Keeps the first pairs or, where `back` holds, the last ones, at most so many.
pub(crate) fn cut(pairs: &mut Vec<KvPair>, back: bool, max: usize)
    ensures { pairs.new.items ≡ page back max pairs.old.items }
{
    if back {
        let before = pairs.len().saturating_sub(max);
        pairs.drain(..before);
    } else {
        pairs.truncate(max);
    }
}
