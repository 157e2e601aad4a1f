//! How long a value is.

ghost use Rattle.std.specs.Prelude.{◌≡◌};
ghost use Rattle.fjall_reading.specs.Guards.{size_of};

use fjall_base::UserValue;

// How many bytes a value has, or the most that one of a keyspace has.
pub(crate) fn size_of(value: &UserValue) -> u32
    ensures { result ≡ size_of value.now }
{
    u32::try_from(value.len()).unwrap_or(u32::MAX)
}
