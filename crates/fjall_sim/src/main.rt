//! `fjall-sim` reads lines from standard input, runs them over the engine on a recorded disk in memory, and prints a line for each.
#![tactic(auto)]

mod answer;
mod calls;
mod earlier;
mod files;
mod items;
mod list;
mod lives;
mod opening;
mod own;
mod records;
mod session;

use fjall_base::{Error, Result};
use session::Session;
use std::alloc::Global;
use std::io::{Read, Write};
use std::process::ExitCode;

// Adds the answers of all lines of a text.
fn answer_lines(alloc: Global, text: &[u8], out: &mut String) -> Result<()> {
    let mut session = Session::new(alloc)?;
    let lines = text.strip_suffix(b"\n").unwrap_or(text);
    for line in lines.split(|byte| *byte == b'\n') {
        // what is no text has no word of a command
        session.take(str::from_utf8(line).unwrap_or(""), out)?;
    }
    session.serve(out)
}

// Reads all lines, and prints their answers, also where it can't go on.
fn serve<R: Read, W: Write>(alloc: Global, input: &mut R, output: &mut W) -> Result<()> {
    let mut text = Vec::new(alloc);
    input.read_to_end(&mut text)?;
    let mut out = String::new(alloc);
    let done = if text.is_empty() {
        Ok(())
    } else {
        answer_lines(alloc, &text, &mut out)
    };
    output.write_all(out.as_bytes())?;
    output.flush()?;
    done
}

fn main(rt: HostRuntime) -> ExitCode {
    match serve(rt.alloc(), &mut rt.stdin(), &mut rt.stdout()) {
        Ok(()) => ExitCode::from(0),
        Err(Error::OutOfMemory) => ExitCode::from(3),
        Err(_) => ExitCode::from(1),
    }
}
