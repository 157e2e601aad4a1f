//! Keys that are looked for.

ghost use Rattle.std.specs.Prelude.{◌≡◌};
ghost use Rattle.std.specs.Int.{w128, to_be_bytes};
ghost use Rattle.fjall_table.specs.Padded.{padded};

use crate::front::front_of;

/// A key that is looked for, and its front, which is made once for all handles that it is compared with.
#[derive(Clone, Copy)]
pub(crate) struct Sought<'a> {
    pub(crate) key: &'a [u8],
    pub(crate) front: u128,
    ghost fronts: { to_be_bytes w128 front ≡ padded 16 key.now },
}

impl<'a> Sought<'a> {
    pub(crate) fn new(key: &'a [u8]) -> Sought<'a>
        ensures { result.key.now ≡ key.now }
    {
        Sought {
            key,
            front: front_of(key),
        }
    }
}
