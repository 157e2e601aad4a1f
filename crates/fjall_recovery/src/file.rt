//! Files read whole.

ghost use Rattle.std.specs.Prelude.{◌≡◌, [], IsTrue, IfOk};
ghost use Rattle.fjall_base.specs.Disk.{HasCause, Took};
ghost use Rattle.fjall_files.specs.Texts.{text_in};
ghost use Rattle.fjall_files.specs.Calls.{seen, AllServed};

use fjall_base::{Disk, Result};
use std::alloc::Global;

/// The bytes of a file, none where there is no file.
pub fn read_text<D: Disk>(alloc: Global, disk: &mut D, name: &str) -> Result<Vec<u8>>
    ensures text { IsTrue D.honest → IfOk result (λ text. text.items ≡ text_in (seen (D.meaning disk.old) name.now)) }
    ensures same { IsTrue D.honest → Took (D.meaning disk.old) (D.meaning disk.new) [] }
    ensures served { IsTrue D.honest → AllServed (D.meaning disk.old) (D.meaning disk.new) }
    ensures cause { HasCause (D.meaning disk.old) (D.meaning disk.new) result }
{
    match disk.read(alloc, name)? {
        Some(text) => Ok(text),
        None => Ok(Vec::new(alloc)),
    }
}
