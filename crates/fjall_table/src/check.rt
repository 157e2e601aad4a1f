//! The check that stands behind bytes.

ghost use Rattle.std.specs.Prelude.{◌≡◌, ◌≤◌, ◌++◌, length, drop, OnOk, OnErr, IsOkUnless};
ghost use Rattle.std.specs.Str.{bytes_eq};
ghost use Rattle.fjall_base.specs.Check.{check};

use fjall_base::{Error, Result, checksum};

/// Whether these eight bytes are the check of the others.
pub(crate) fn is_check(found: &[u8], bytes: &[u8]) -> bool
    ensures { result ≡ bytes_eq found.now (check bytes.now) }
{
    let sum = checksum(bytes);
    found == sum.as_slice()
}

/// Adds the check of all that stands from an index on.
pub fn put_check(out: &mut Vec<u8>, from: usize) -> Result<()>
    requires { from ≤ length out.old.items }
    ensures ok { OnOk result (out.new.items ≡ out.old.items ++ check (drop from out.old.items)) }
    ensures err { OnErr result (out.new.items ≡ out.old.items) }
    ensures only { IsOkUnless result Error.OutOfMemory }
{
    let sum = checksum(&out[from..]);
    out.extend_from_slice(&sum)?;
    Ok(())
}
