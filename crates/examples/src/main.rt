//! `examples NAME FOLDER` runs an example of a program over a database in that folder, `examples readme` the one of the
//! repository's README, and `examples all FOLDER` each of the five.
#![tactic(auto)]

mod account_book;
mod job_queue;
mod machine;
mod readme;
mod session_store;
mod users_by_city;

use anyhow::Result;
use machine::Machine;
use std::env;
use std::process::ExitCode;

/// What wrong arguments are answered.
const USAGE: &str = "usage: examples account-book|job-queue|session-store|users-by-city FOLDER
       examples readme
       examples all FOLDER";

// Runs the example with this name in a folder. False where none has it.
fn run_in<R: Machine>(rt: &R, name: &str, folder: &str) -> Result<bool> {
    match name {
        "account-book" => account_book::run(rt, folder)?,
        "job-queue" => job_queue::run(rt, folder)?,
        "session-store" => session_store::run(rt, folder)?,
        "users-by-city" => users_by_city::run(rt.host(), folder)?,
        _ => return Ok(false),
    }
    Ok(true)
}

// Runs each example below a line with its name. Each has its own folder in this one, but for that of the README, which
// names its folder itself.
fn run_all<R: Machine>(rt: &R, folder: &str) -> Result<()> {
    println!(rt; "== readme ==")?;
    readme::run(*rt)?;
    for name in [
        "account-book",
        "job-queue",
        "session-store",
        "users-by-city",
    ] {
        println!(rt; "\n== {name} ==")?;
        let own = format!(in rt.alloc(); "{folder}/{name}")?;
        run_in(rt, name, own.as_str())?;
    }
    Ok(())
}

// Runs what the arguments ask for. False where they are wrong.
fn run<R: Machine>(rt: &R, words: &[String]) -> Result<bool> {
    match words {
        [name] if name.as_str() == "readme" => readme::run(*rt)?,
        [name, folder] if name.as_str() == "all" => run_all(rt, folder.as_str())?,
        [name, folder] => return run_in(rt, name.as_str(), folder.as_str()),
        _ => return Ok(false),
    }
    Ok(true)
}

fn main(rt: HostRuntime) -> Result<ExitCode> {
    let words: Vec<String> = env::args(&rt)?.skip(1).collect(rt.alloc())?;
    if run(&rt, words.as_slice())? {
        return Ok(ExitCode::SUCCESS);
    }
    eprintln!(&rt; "{USAGE}")?;
    Ok(ExitCode::from(2))
}
