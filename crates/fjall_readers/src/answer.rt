//! What an export answers.

ghost use Rattle.std.specs.Prelude.{◌≡◌};
ghost use Rattle.fjall_readers.specs.Answers.{refusal};

use fjall_base::Error;

/// Behind a refusal.
const REFUSED: u64 = 1 << 63;

/// The answer to a refusal: its number, and the highest bit.
pub(crate) fn refusal(error: &Error) -> u64
    ensures { result ≡ refusal error.now }
{
    REFUSED + u64::from(error.number())
}
