//! Records of `current`.

ghost use Rattle.std.specs.Prelude.{ℕ, List};
ghost use Rattle.fjall_manifest.specs.Records.{Fields, IsRecords};
ghost use Rattle.fjall_readers.specs.Answers.{Tells};

use crate::answer::refusal;
use crate::parts::parts_of;
use fjall_base::{Error, Result};
use fjall_manifest::read_current;
use fjall_table::put_check;
use std::alloc::Global;

/// Reads the bytes of a `current`. It answers where the whole records end.
#[unsafe(no_mangle)]
pub extern "C" fn fjall_read_current(alloc: Global, bytes: &[u8]) -> u64
    ensures { (rs : List Fields) (end : ℕ) → IsRecords bytes.now rs end → Tells result end }
{
    match read_current(alloc, bytes) {
        Ok(current) => current.end as u64,
        Err(error) => refusal(&error),
    }
}

/// A `current` of frames with these parts, each with a right check.
fn current_of(alloc: Global, parts: &[&[u8]]) -> Result<Vec<u8>> {
    let mut bytes = Vec::new(alloc);
    for part in parts {
        let Ok(len) = u32::try_from(part.len()) else {
            return Err(Error::TooManyItems);
        };
        let before = bytes.len();
        bytes.extend_from_slice(&len.to_le_bytes())?;
        bytes.extend_from_slice(part)?;
        put_check(&mut bytes, before)?;
    }
    Ok(bytes)
}

/// Reads a `current` whose records hold the parts of the input, behind right checks. It answers as for the bytes of one.
#[unsafe(no_mangle)]
pub extern "C" fn fjall_read_records(alloc: Global, input: &[u8]) -> u64 {
    let parts = match parts_of(alloc, input) {
        Ok(parts) => parts,
        Err(error) => return refusal(&error),
    };
    match current_of(alloc, &parts) {
        Ok(bytes) => fjall_read_current(alloc, &bytes),
        Err(error) => refusal(&error),
    }
}
