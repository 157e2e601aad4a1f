//! `fjall-shell memory|FOLDER [plain|optimistic|single] [WORKERS]` opens a database through its handles, reads lines from standard input, and
//! answers each by one line as it comes.
#![tactic(auto)]

mod answers;
mod kinds;
mod lines;
mod medium;
mod reads;
mod session;
mod words;

use answers::{refusal, told};
use fjall::{Error, FolderDisk, Result};
use fjall_disk_memory::MemoryDisk;
use kinds::Settings;
use lines::Kind;
use medium::{Machine, Medium};
use session::Session;
use std::alloc::Global;
use std::io::{BufRead, BufReader, ErrorKind, Read, Write};
use std::process::ExitCode;
use std::rt::Env;
use std::{env, io};

/// What wrong arguments are answered.
const USAGE: &str = "usage: fjall-shell memory|FOLDER [plain|optimistic|single] [WORKERS]";

// The arguments behind the program's name.
fn arguments<R: Env + AllocGlobal>(rt: &R) -> io::Result<Vec<String>> {
    let words = env::args(rt)?;
    Ok(words.skip(1).collect(rt.alloc())?)
}

// The kind of databases that a word names.
fn kind_of(word: &str) -> Option<Kind> {
    match word {
        "plain" => Some(Kind::Plain),
        "optimistic" => Some(Kind::Optimistic),
        "single" => Some(Kind::Single),
        _ => None,
    }
}

// How a database is opened by these arguments.
fn read_settings(alloc: Global, arguments: &[String]) -> Result<Option<Settings>> {
    let (path, kind, workers) = match arguments {
        [path] => (path, Some(Kind::Plain), Some(4)),
        [path, word] => (path, kind_of(word.as_str()), Some(4)),
        [path, word, workers] => (path, kind_of(word.as_str()), workers.parse().ok()),
        _ => return Ok(None),
    };
    let (Some(kind), Some(workers)) = (kind, workers) else {
        return Ok(None);
    };
    let path = String::from_str(alloc, path.as_str())?;
    Ok(Some(Settings {
        kind,
        path,
        workers,
    }))
}

// Answers all lines of an input.
fn answer_lines<R: Machine + Send + 'static, D: Medium + Send + 'static>(
    rt: &R,
    session: &mut Session<D>,
) -> Result<()> {
    let alloc = session.alloc;
    let mut output = rt.host().stdout();
    for line in BufReader::new(alloc, rt.host().stdin())?.split(alloc, b'\n') {
        // what is no text has no word of a command
        let line = line?;
        let done = session.take(rt, str::from_utf8(&line).unwrap_or(""));
        let mut text = told(alloc, &done)?;
        text.push_str("\n")?;
        output.write_all(text.as_bytes())?;
        output.flush()?;
    }
    Ok(())
}

// Opens a database, answers all lines, and closes it.
fn serve<R: Machine + Send + 'static, D: Medium + Send + 'static>(
    rt: &R,
    alloc: Global,
    settings: Settings,
) -> Result<()> {
    let mut session: Session<D> = Session::open(rt, alloc, settings)?;
    let answered = answer_lines(rt, &mut session);
    let ended = session.end(rt);
    answered?;
    ended
}

// Tells how the program is called.
fn usage<E: Write>(errors: &mut E) -> ExitCode {
    let _ = writeln!(errors, "{USAGE}");
    ExitCode::from(2)
}

// Tells why the program can't go on.
fn fail<E: Write>(alloc: Global, errors: &mut E, error: Error) -> ExitCode {
    if let Ok(text) = refusal(alloc, error) {
        let _ = writeln!(errors, "{}", text.as_str());
    }
    ExitCode::from(1)
}

fn main(rt: HostRuntime) -> ExitCode {
    let alloc = rt.alloc();
    let mut errors = rt.stderr();
    let words = match arguments(&rt) {
        Ok(words) => words,
        Err(error) if error.kind() == ErrorKind::InvalidData => return usage(&mut errors),
        Err(error) => return fail(alloc, &mut errors, Error::from(error)),
    };
    let settings = match read_settings(alloc, words.as_slice()) {
        Ok(Some(settings)) => settings,
        Ok(None) => return usage(&mut errors),
        Err(error) => return fail(alloc, &mut errors, error),
    };
    let served = if settings.path.as_str() == "memory" {
        serve::<HostRuntime, MemoryDisk>(&rt, alloc, settings)
    } else {
        serve::<HostRuntime, FolderDisk>(&rt, alloc, settings)
    };
    match served {
        Ok(()) => ExitCode::from(0),
        Err(error) => fail(alloc, &mut errors, error),
    }
}
