//! Writes text to an output.

ghost use Rattle.std.specs.Prelude.{OnErr, OnOk};
ghost use Rattle.std.specs.Io.KnownBytes.{Appends};
ghost use Rattle.fjall_script.specs.Outputs.{AppendsFront};

use std::io;
use std::io::{ErrorKind, Write};

// Writes all of a text. Where that fails, a beginning of it was written.
pub(crate) fn write_text<W: Write>(text: &[u8], output: &mut W) -> io::Result<()>
    ensures ok { OnOk result (Appends (W.contents output.old) (W.contents output.new) text.now) }
    ensures err { OnErr result (AppendsFront (W.contents output.old) (W.contents output.new) text.now) }
{
    let mut rest = text;
    for _ in 0..usize::MAX {
        if rest.is_empty() {
            return output.flush();
        }
        match output.write(rest) {
            Ok(0) => break,
            Ok(count) => rest = &rest[count..],
            Err(error) if error.kind() == ErrorKind::Interrupted => {}
            Err(error) => return Err(error),
        }
    }
    Err(io::Error::from(ErrorKind::WriteZero))
}
