//! `fjall-index-run` reads lines from standard input, runs them over an index and its engine on a recorded disk in memory, and
//! prints a line for each.
#![tactic(auto)]

mod answer;
mod disk;
mod index_lines;
mod keyspaces;
mod numbered;
mod opening;
mod session;

use answer::Undone;
use fjall_index::{Error, IndexError};
use session::Session;
use std::alloc::Global;
use std::env;
use std::io::{self, ErrorKind, Read, Write};
use std::process::ExitCode;
use std::rt::Env;

// What wrong arguments are answered.
const USAGE: &str = "usage: fjall-index-run";

// Adds the answer to a line, wholly or not at all.
fn answer_line(session: &mut Session, line: &str, out: &mut String) -> Result<(), IndexError> {
    let alloc = session.alloc;
    let told = match session.take(line) {
        Ok(answer) => format!(in alloc; "{answer}\n")?,
        Err(Undone::Ended(error)) => return Err(error),
        Err(undone) => format!(in alloc; "{undone}\n")?,
    };
    out.push_str(told.as_str())?;
    Ok(())
}

// Adds the answers to the lines of a text, up to one that ends the program.
fn answer_lines(session: &mut Session, text: &[u8], out: &mut String) -> Result<(), IndexError> {
    if text.is_empty() {
        return Ok(());
    }
    let lines = text.strip_suffix(b"\n").unwrap_or(text);
    for line in lines.split(|byte| *byte == b'\n') {
        // what is no text has no word of a command
        answer_line(session, str::from_utf8(line).unwrap_or(""), out)?;
    }
    Ok(())
}

fn read_text<R: Read>(alloc: Global, input: &mut R) -> Result<Vec<u8>, Error> {
    let mut text = Vec::new(alloc);
    input.read_to_end(&mut text)?;
    Ok(text)
}

fn print<W: Write>(output: &mut W, text: &str) -> Result<(), Error> {
    output.write_all(text.as_bytes())?;
    output.flush()?;
    Ok(())
}

// Opens the core, reads all lines, prints their answers, also where it can't go on, and closes the core.
fn serve<R: Read, W: Write>(
    alloc: Global,
    input: &mut R,
    output: &mut W,
) -> Result<(), IndexError> {
    let mut session = Session::open_new(alloc)?;
    let text = read_text(alloc, input)?;
    let mut out = String::new(alloc);
    let answered = answer_lines(&mut session, &text, &mut out);
    print(output, &out)?;
    answered?;
    session.end()
}

// Whether there are arguments behind the program's name.
fn has_arguments<R: Env + AllocGlobal>(rt: &R) -> io::Result<bool> {
    Ok(env::args(rt)?.nth(1).is_some())
}

// Tells how the program is called.
fn usage<E: Write>(errors: &mut E) -> ExitCode {
    let _ = writeln!(errors, "{USAGE}");
    ExitCode::from(2)
}

// Tells why the program can't go on.
fn fail<E: Write>(errors: &mut E, error: IndexError) -> ExitCode {
    let _ = writeln!(errors, "{}", Undone::Ended(error));
    ExitCode::from(1)
}

fn main(rt: HostRuntime) -> ExitCode {
    let mut errors = rt.stderr();
    match has_arguments(&rt) {
        Ok(false) => {}
        Ok(true) => return usage(&mut errors),
        Err(error) if error.kind() == ErrorKind::InvalidData => return usage(&mut errors),
        Err(error) => return fail(&mut errors, IndexError::Engine(Error::from(error))),
    }
    match serve(rt.alloc(), &mut rt.stdin(), &mut rt.stdout()) {
        Ok(()) => ExitCode::from(0),
        Err(error) => fail(&mut errors, error),
    }
}
