//! The marker of a folder, which names the version of its format.

ghost use Rattle.std.specs.Prelude.{◌≡◌, ◌++◌, IfSome, IsOkUnless, OnErr, OnOk, Some};
ghost use Rattle.std.specs.Option.{option_copied};
ghost use Rattle.fjall_base.specs.Errors.{version_byte};
ghost use Rattle.fjall_base.specs.declared.error.FormatVersion.{FormatVersion};
ghost use Rattle.fjall_base.specs.declared.error.FormatVersion.TheVariants.{V3};
ghost use Rattle.fjall_files.specs.Marker.{header, is_cut_short, marker_tells, version_at};

use fjall_base::{Error, FormatVersion, Result};

/// The header of the version that is written, and the whole of the file `version`.
const HEADER: [u8; 4] = [b'F', b'J', b'L', 3];

/// What the marker says of its folder.
#[derive(Clone, Copy, Debug, PartialEq, Eq)]
pub enum Marker {
    /// The folder was made to its end, in the version that is read.
    Whole,
    /// The folder's creation ended before its marker was written whole.
    Unfinished,
}

/// The version that a byte names: 1, 2 or 3.
pub fn version_of(byte: u8) -> Option<FormatVersion>
    ensures named { IfSome result (λ version. byte ≡ version_byte version) }
    ensures all_found { (version : FormatVersion) → byte ≡ version_byte version → result ≡ Some version }
{
    match byte {
        1 => Some(FormatVersion::V1),
        2 => Some(FormatVersion::V2),
        3 => Some(FormatVersion::V3),
        _ => None,
    }
}

/// The version whose header the first four bytes are: `46 4a 4c` and 1, 2 or 3. What follows them isn't
/// looked at; `None` also where fewer are there.
pub fn parse_file_header(bytes: &[u8]) -> Option<FormatVersion>
    ensures { result ≡ version_at bytes.now }
{
    match bytes {
        [b'F', b'J', b'L', version, ..] => version_of(*version),
        _ => None,
    }
}

/// Adds the header of version 3, `46 4a 4c 03`. Where memory runs out, the output is as it was.
pub fn write_file_header(output: &mut Vec<u8>) -> Result<()>
    ensures ok { OnOk result (output.new.items ≡ output.old.items ++ header V3) }
    ensures err { OnErr result (output.new.items ≡ output.old.items) }
    ensures only { IsOkUnless result Error.OutOfMemory }
{
    output.extend_from_slice(&HEADER)?;
    Ok(())
}

// Whether the bytes are a beginning of the header, and not all of it.
fn is_cut_short(bytes: &[u8]) -> bool
    ensures { result ≡ is_cut_short bytes.now }
{
    bytes.len() < HEADER.len() && HEADER.starts_with(bytes)
}

/// What a marker says, by the bytes of the file `version`, `None` where there is no such file.
///
/// A marker that is missing or cut short is of an unfinished creation. Otherwise it is refused with
/// `InvalidVersion`, unless it begins with the header of version 3: with the version that it names, or
/// with `None` where it names none.
pub fn read_marker(marker: Option<&[u8]>) -> Result<Marker>
    ensures { result ≡ marker_tells (option_copied marker.entry) }
{
    let Some(bytes) = marker else {
        return Ok(Marker::Unfinished);
    };
    if is_cut_short(bytes) {
        return Ok(Marker::Unfinished);
    }
    match parse_file_header(bytes) {
        Some(FormatVersion::V3) => Ok(Marker::Whole),
        version => Err(Error::InvalidVersion(version)),
    }
}
