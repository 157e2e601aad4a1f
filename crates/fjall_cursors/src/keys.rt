//! Whether keys are the same.

ghost use Rattle.std.specs.Prelude.{◌≡◌};
ghost use Rattle.std.specs.Str.{bytes_eq};

/// Whether two keys are the same. Those of one keyspace mostly end unlike, where they are.
#[inline(always)]
pub(crate) fn is_same(key: &[u8], other: &[u8]) -> bool
    ensures { result ≡ bytes_eq key.now other.now }
{
    if let Some(end) = key.last_chunk::<8>()
        && let Some(other_end) = other.last_chunk::<8>()
        && u64::from_le_bytes(*end) != u64::from_le_bytes(*other_end)
    {
        return false;
    }
    key == other
}
