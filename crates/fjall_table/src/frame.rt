//! A payload between its length and the check of both.

ghost use Rattle.std.specs.Prelude.{◌≡◌, ◌⊎◌, ◌+◌, ◌++◌, OnOk, OnErr, IsOkUnless};
ghost use Rattle.fjall_table.specs.Frame.{framed};
ghost use Rattle.fjall_base.specs.Fields.{ShowsRead, number_at};
ghost use Rattle.fjall_table.specs.Reading.{frame_at};

use crate::check::is_check;
use fjall_base::{Error, Result, bytes_of, checksum, u32_of, u64_of};

/// A length of that many bytes, four or eight.
fn len_of(bytes: &[u8], width: usize) -> Option<(usize, &[u8])>
    requires { (width ≡ 4) ⊎ (width ≡ 8) }
    ensures { ShowsRead (λ x. (x.0, x.1.now)) result (number_at width bytes.now) }
{
    if width == 4 {
        let Some((len, rest)) = u32_of(bytes) else {
            return None;
        };
        Some((len as usize, rest))
    } else {
        let Some((len, rest)) = u64_of(bytes) else {
            return None;
        };
        Some((len as usize, rest))
    }
}

/// The payload of the frame at the front, and the bytes after the frame, where its check is right.
#[tactic(auto, unfolding(crate::specs::Reading::frame_at))]
pub fn frame_of(bytes: &[u8], width: usize) -> Option<(&[u8], &[u8])>
    requires { (width ≡ 4) ⊎ (width ≡ 8) }
    ensures { ShowsRead (λ x. (x.0.now, x.1.now)) result (frame_at width bytes.now) }
{
    let Some((len, rest)) = len_of(bytes, width) else {
        return None;
    };
    let Some((payload, rest)) = bytes_of(rest, len) else {
        return None;
    };
    let Some((sum, rest)) = bytes_of(rest, 8) else {
        return None;
    };
    if !is_check(sum, &bytes[..width + len]) {
        return None;
    }
    Some((payload, rest))
}

/// Adds a payload behind its length, of eight bytes, and then the check of both. An `Err` adds nothing. The formats page
/// has the layout.
pub fn put_frame(out: &mut Vec<u8>, payload: &[u8]) -> Result<()>
    ensures ok { OnOk result (out.new.items ≡ out.old.items ++ framed 8 payload.now) }
    ensures err { OnErr result (out.new.items ≡ out.old.items) }
    ensures only { IsOkUnless result Error.OutOfMemory }
{
    let before = out.len();
    let len = (payload.len() as u64).to_le_bytes();
    if out.reserve(16 + payload.len()).is_err()
        || out.extend_from_slice(&len).is_err()
        || out.extend_from_slice(payload).is_err()
    {
        return Err(Error::OutOfMemory);
    }
    let sum = checksum(&out[before..]);
    if out.extend_from_slice(&sum).is_err() {
        return Err(Error::OutOfMemory);
    }
    Ok(())
}
