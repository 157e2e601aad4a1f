//! Cuts an input into lines, and reads each as a command.

ghost use Rattle.std.specs.Prelude.{◌≡◌, ◌<◌, ◌∷◌, ◌==◌, IfOk, length, position};
ghost use Rattle.std.specs.List.{AllZip};
ghost use Rattle.fjall_lines.specs.Lines.{lines_of};
ghost use Rattle.fjall_lines.specs.Hearing.{heard, Hears};

use crate::command::Command;
use crate::parsing::parse;
use std::alloc::{AllocError, Global};

// Where the first line feed stands.
fn line_end(text: &[u8]) -> Option<usize>
    ensures { result ≡ position (λ b. b == 10) text.now }
{
    text.iter().position(|b| *b == b'\n')
}

// The first line of a text, and what follows its line feed.
fn first_line(text: &[u8]) -> (&[u8], &[u8])
    requires { 0 < length text.now }
    ensures line { lines_of text.now ≡ result.0.now ∷ lines_of result.1.now }
    ensures shorter { length result.1.now < length text.now }
{
    match line_end(text) {
        Some(end) => (&text[..end], &text[end + 1..]),
        None => (text, &[]),
    }
}

// What a line asks for, where crashes are heard or not.
fn heard(found: Option<Command>, crashes: bool) -> Option<Command>
    ensures { result ≡ heard crashes found }
{
    match found {
        Some(Command::Crash(_)) if !crashes => None,
        Some(Command::CrashWild(_)) if !crashes => None,
        _ => found,
    }
}

/// The commands of a text, one for each line, and none for a line that is no command, as a crash is where `crashes` is
/// false. A line ends with a line feed, the last one also with the text.
pub fn commands(
    alloc: Global,
    text: &[u8],
    crashes: bool,
) -> Result<Vec<Option<Command>>, AllocError>
    ensures { IfOk result (λ commands. AllZip (Hears crashes) (lines_of text.now) commands.items) }
{
    let mut commands = Vec::new(alloc);
    let mut rest = text;
    while !rest.is_empty() {
        let (line, after) = first_line(rest);
        commands.push(heard(parse(alloc, line)?, crashes))?;
        rest = after;
    }
    Ok(commands)
}
