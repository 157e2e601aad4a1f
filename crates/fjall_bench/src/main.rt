//! `fjall-bench FOLDER N [GROUP]` fills, reads and opens databases in a folder again, with keys of 16 bytes and values of 100,
//! and says how long that took. `fjall-bench memory N [GROUP]` does so in memory, and `fjall-bench FOLDER N threads THREADS WORKERS` by threads
//! that share a database with workers, and `fjall-bench memory|FOLDER N index` finds pairs by an index.
#![tactic(auto)]

mod clock;
mod data;
mod database;
mod indexed;
mod limits;
mod reads;
mod report;
mod rows;
mod suite;
mod threads;
mod writes;

use anyhow::Result;
use indexed::run_indexed;
use rows::is_group;
use std::env;
use std::process::ExitCode;
use suite::{Measuring, run};
use threads::{Sharing, run_shared};

/// What wrong arguments are answered.
const USAGE: &str = "usage: fjall-bench memory|FOLDER N [GROUP]
       fjall-bench memory|FOLDER N index
       fjall-bench FOLDER N threads THREADS WORKERS
N and THREADS are above 0; GROUP is order, random, batches, synced or limits, and without it all of these, or fill or long";

// What is asked for: groups of workloads one after another, an index over so many pairs, or threads that share a database.
enum Asked<'a> {
    Groups(Measuring<'a>),
    Index(&'a str, u64),
    Threads(Sharing<'a>),
}

// A number that is above 0.
fn positive(word: &str) -> Option<u64> {
    let number: u64 = word.parse().ok()?;
    if number == 0 { None } else { Some(number) }
}

// What the arguments ask for, or none where they are wrong.
fn read_arguments(words: &[String]) -> Option<Asked<'_>> {
    let (place, count, group) = match words {
        [place, count] => (place, count, None),
        [place, count, name] if name.as_str() == "index" => {
            return Some(Asked::Index(place.as_str(), positive(count.as_str())?));
        }
        [place, count, group] => (place, count, Some(group.as_str())),
        [place, count, name, threads, workers] if name.as_str() == "threads" => {
            return Some(Asked::Threads(Sharing {
                folder: place.as_str(),
                pairs: positive(count.as_str())?,
                threads: usize::try_from(positive(threads.as_str())?).ok()?,
                workers: workers.parse().ok()?,
            }));
        }
        _ => return None,
    };
    if group.is_some_and(|name| !is_group(name)) {
        return None;
    }
    Some(Asked::Groups(Measuring {
        place: place.as_str(),
        count: positive(count.as_str())?,
        group,
    }))
}

fn main(rt: HostRuntime) -> Result<ExitCode> {
    let words: Vec<String> = env::args(&rt)?.skip(1).collect(rt.alloc())?;
    match read_arguments(words.as_slice()) {
        Some(Asked::Groups(measuring)) => run(&rt, measuring)?,
        Some(Asked::Index(place, count)) => run_indexed(&rt, place, count)?,
        Some(Asked::Threads(sharing)) => run_shared(&rt, rt.alloc(), sharing)?,
        None => {
            eprintln!(&rt; "{USAGE}")?;
            return Ok(ExitCode::from(2));
        }
    }
    Ok(ExitCode::SUCCESS)
}
