//! Options as bytes, and back.

ghost use Rattle.std.specs.Prelude.{◌≡◌, ℕ, List, IfOk, IfErr};
ghost use Rattle.fjall_base.specs.declared.error.Error.TheVariants.{OutOfMemory};
ghost use Rattle.fjall_options.specs.Reading.{Gives, Read};

use fjall_base::{Result, Slice};
use std::alloc::Global;

/// What is stored as bytes.
pub trait EncodeConfig {
    /// The bytes that it is stored as.
    ghost config_bytes: { Self → List ℕ };

    /// The bytes that it is stored as. It allocates, and fails where memory is used up.
    fn encode(&self, alloc: Global) -> Result<Slice>
        ensures ok { IfOk result (λ bytes. bytes ≡ config_bytes self.now) }
        ensures only { IfErr result (λ e. e ≡ OutOfMemory) };
}

/// What is read from the bytes that it is stored as.
pub trait DecodeConfig {
    /// What bytes are read as, or the first fault in them.
    ghost config_at: { List ℕ → Read Self };

    /// What the bytes mean, or the first fault in them: `Io(UnexpectedEof)` where they end within a
    /// field, `InvalidTag` where a byte means nothing in its field. It allocates.
    fn decode(alloc: Global, bytes: &[u8]) -> Result<Self>
    where
        Self: Sized,
        ensures { Gives (λ x. x) result (config_at bytes.now) };
}
