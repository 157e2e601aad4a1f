//! Which field a pair has.

ghost use Rattle.std.specs.Prelude.{◌≡◌, IfOk, IsOkUnless};
ghost use Rattle.fjall_base.specs.declared.error.Error.TheVariants.{OutOfMemory};
ghost use Rattle.fjall_index_entries.specs.Index.{FieldOf, bytes_of};

use fjall_base::Result;
use std::alloc::Global;

/// What tells the field of a pair by which it is found. It is a function of the key and the value: whenever it is asked, the
/// same pair has the same field.
pub trait Extract {
    /// The field of a key and a value, where they have one.
    ghost field_of: { Self → FieldOf };

    /// The field of this key with this value, where it has one. It is refused for want of memory alone.
    fn field(&self, alloc: Global, key: &[u8], value: &[u8]) -> Result<Option<Vec<u8>>>
        ensures ok { IfOk result (λ found. bytes_of found ≡ field_of self.now key.now value.now) }
        ensures only { IsOkUnless result OutOfMemory };
}

/// The field that is `len` bytes of the value from the byte `at` on, counted from 0. A shorter value has no field.
#[derive(Clone, Copy, Debug, PartialEq, Eq)]
pub struct Slot {
    pub at: u32,
    pub len: u32,
}

impl Extract for Slot {
    ghost use Rattle.fjall_index_entries.specs.Index.{slot_field};

    ghost field_of = { λ slot key value. slot_field slot.at slot.len value };

    fn field(&self, alloc: Global, _key: &[u8], value: &[u8]) -> Result<Option<Vec<u8>>> {
        let (at, len) = (self.at as usize, self.len as usize);
        if value.len() < at + len {
            return Ok(None);
        }
        Ok(Some(value[at..at + len].to_vec(alloc)?))
    }
}
