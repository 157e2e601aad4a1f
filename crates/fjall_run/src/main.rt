//! `fjall-run memory` reads commands from standard input, one a line, runs them over the engine, and
//! prints a line for each. `fjall-run FOLDER` does so over a folder of files.
#![tactic(auto)]

use fjall_base::Error;
use fjall_script::{fail, run, usage};
use std::io::ErrorKind;
use std::process::ExitCode;
use std::rt::Env;
use std::{env, io};

// The arguments behind the program's name.
fn arguments<R: Env + AllocGlobal>(rt: &R) -> io::Result<Vec<String>> {
    let words = env::args(rt)?;
    Ok(words.skip(1).collect(rt.alloc())?)
}

fn main(rt: HostRuntime) -> ExitCode {
    let mut errors = rt.stderr();
    let status = match arguments(&rt) {
        Ok(words) => run(
            &rt,
            words.as_slice(),
            &mut rt.stdin(),
            &mut rt.stdout(),
            &mut errors,
        ),
        Err(error) if error.kind() == ErrorKind::InvalidData => usage(&mut errors),
        Err(error) => fail(Error::from(error), &mut errors),
    };
    ExitCode::from(status)
}
