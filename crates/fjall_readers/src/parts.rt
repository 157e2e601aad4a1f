//! An input cut into parts.

ghost use Rattle.std.specs.Prelude.{◌<◌, IfSome, length};

use fjall_base::{Result, u16_of};
use std::alloc::Global;

/// The first part, and what follows it: behind a length of two bytes, so many, or all that are left. None where no length stands.
fn first_part(input: &[u8]) -> Option<(&[u8], &[u8])>
    ensures { IfSome result (λ x. length x.1.now < length input.now) }
{
    let Some((len, rest)) = u16_of(input) else {
        return None;
    };
    Some(rest.split_at(usize::from(len).min(rest.len())))
}

/// The parts of an input, in order.
pub(crate) fn parts_of(alloc: Global, input: &[u8]) -> Result<Vec<&[u8]>> {
    let mut parts = Vec::new(alloc);
    let mut rest = input;
    while let Some((part, after)) = first_part(rest) {
        parts.push(part)?;
        rest = after;
    }
    Ok(parts)
}
