//! The value of an option as it is kept.

ghost use Rattle.std.specs.Prelude.{◌≡◌};
ghost use Rattle.fjall_options.specs.Options.{kept_bytes};

use fjall_base::Slice;
use std::slice;

/// The value of an option: bytes as they are stored, or those of a number that was set, so that setting one
/// takes no memory.
#[derive(Debug, Drop)]
pub(crate) enum OptionValue {
    Stored(Slice),
    Byte(u8),
    Number([u8; 8]),
}

impl OptionValue {
    /// The bytes that it is stored as.
    pub(crate) fn as_bytes(&self) -> &[u8]
        ensures { result.now ≡ kept_bytes self.now }
    {
        match self {
            OptionValue::Stored(bytes) => bytes,
            OptionValue::Byte(byte) => slice::from_ref(byte),
            OptionValue::Number(bytes) => bytes,
        }
    }
}
