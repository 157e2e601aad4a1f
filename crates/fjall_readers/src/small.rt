//! The marker, and the lines of a script.

ghost use Rattle.std.specs.Prelude.{◌≡◌, Some};
ghost use Rattle.fjall_files.specs.Marker.{marker_tells};
ghost use Rattle.fjall_readers.specs.Answers.{of_marker};

use crate::answer::refusal;
use fjall_base::Error;
use fjall_files::{Marker, read_marker};
use fjall_lines::commands;
use std::alloc::Global;

/// Reads a marker. It answers 0 for one that is whole, 1 for one that is cut short.
#[unsafe(no_mangle)]
pub extern "C" fn fjall_read_marker(bytes: &[u8]) -> u64
    ensures { result ≡ of_marker (marker_tells (Some bytes.now)) }
{
    match read_marker(Some(bytes)) {
        Ok(Marker::Whole) => 0,
        Ok(Marker::Unfinished) => 1,
        Err(error) => refusal(&error),
    }
}

/// Reads the lines of a script. It answers how many of them are commands.
#[unsafe(no_mangle)]
pub extern "C" fn fjall_read_lines(alloc: Global, text: &[u8]) -> u64 {
    match commands(alloc, text, true) {
        Ok(found) => found.iter().filter(|command| command.is_some()).count() as u64,
        Err(_) => refusal(&Error::OutOfMemory),
    }
}
