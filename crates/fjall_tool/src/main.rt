//! `fjall-tool COMMAND ..` looks at the database of a folder, and changes it, from a terminal.
#![tactic(auto)]

mod bulk;
mod calls;
mod check;
mod database;
mod dump;
mod help;
mod ingest;
mod load;
mod options;
mod pairs;
mod spelling;
mod stat;
mod values;

ghost use Rattle.std.specs.Prelude.{◌≡◌};

use database::Machine;
use fjall::Host;
use fjall_base::Error;
use fjall_script::{Status, fail};
use help::{HELP, USAGE, VERSION};
use options::Format;
use std::io::{ErrorKind, Write};
use std::process::ExitCode;
use std::rt::Env;
use std::{env, io};

/// Tells how the program is called.
pub fn usage<E: Write>(errors: &mut E) -> Status
    ensures { result ≡ Status.Usage }
{
    let _ = writeln!(errors, "{USAGE}");
    Status::Usage
}

// The arguments behind the program's name.
fn arguments<R: Env + AllocGlobal>(rt: &R) -> io::Result<Vec<String>> {
    let words = env::args(rt)?;
    Ok(words.skip(1).collect(rt.alloc())?)
}

// Runs a command of those that tell by themselves why they fail.
fn run_told<R: Machine + Send + 'static>(
    rt: &R,
    command: &str,
    arguments: &[String],
) -> anyhow::Result<Status> {
    match command {
        "check" => check::run(rt.host(), arguments),
        "stat" => stat::run(rt.host(), arguments),
        "dump" => dump::run(rt, Format::Lines, arguments),
        "scan" => dump::run(rt, Format::Text, arguments),
        "load" => load::run(rt, arguments),
        "get" => values::get(rt, arguments),
        "put" => values::put(rt, arguments),
        "del" => values::del(rt, arguments),
        "keyspaces" => values::keyspaces(rt, arguments),
        "merge" => values::merge(rt, arguments),
        "help" | "--help" | "-h" => {
            println!(rt.host(); "{HELP}")?;
            Ok(Status::Success)
        }
        "version" | "--version" => {
            println!(rt.host(); "{VERSION}")?;
            Ok(Status::Success)
        }
        _ => Ok(Status::Usage),
    }
}

// Runs the command that the first argument names on those behind it.
fn run<R: Machine + Send + 'static, E: Write>(
    rt: &R,
    arguments: &[String],
    errors: &mut E,
) -> Status {
    let Some((command, arguments)) = arguments.split_first() else {
        return usage(errors);
    };
    let host = rt.host();
    match command.as_str() {
        "ingest" => bulk::run(
            host,
            arguments,
            &mut host.stdin(),
            &mut host.stdout(),
            errors,
        ),
        "calls" => calls::run(
            host,
            arguments,
            &mut host.stdin(),
            &mut host.stdout(),
            errors,
        ),
        command => match run_told(rt, command, arguments) {
            Ok(Status::Usage) => usage(errors),
            Ok(status) => status,
            Err(error) => {
                let _ = writeln!(errors, "fjall-tool: {error:#}");
                Status::Failure
            }
        },
    }
}

fn main(rt: HostRuntime) -> ExitCode {
    let mut errors = rt.stderr();
    let status = match arguments(&rt) {
        Ok(words) => run(&rt, words.as_slice(), &mut errors),
        Err(error) if error.kind() == ErrorKind::InvalidData => usage(&mut errors),
        Err(error) => fail(Error::from(error), &mut errors),
    };
    ExitCode::from(status)
}
