//! The commands that print pairs: `dump` and `scan`.

use crate::database::{self, Machine};
use crate::options::{Format, Options};
use crate::spelling::{bytes_of, digits_of, word_of};
use anyhow::Result;
use fjall::{Database, Keyspace};
use fjall_script::Status;
use std::alloc::Global;
use std::io::{BufWriter, Write};
use std::ops::Bound;

// Writes one pair.
fn write_pair<W: Write>(
    alloc: Global,
    output: &mut W,
    format: Format,
    key: &[u8],
    value: &[u8],
) -> Result<()> {
    match format {
        Format::Lines => {
            let (key, value) = (digits_of(alloc, key)?, digits_of(alloc, value)?);
            writeln!(output, "{} {}", key.as_str(), value.as_str())?;
        }
        Format::Json => {
            let (key, value) = (hex::encode(alloc, key)?, hex::encode(alloc, value)?);
            writeln!(
                output,
                "{{\"key\":\"{}\",\"value\":\"{}\"}}",
                key.as_str(),
                value.as_str()
            )?;
        }
        Format::Text => {
            let (key, value) = (word_of(alloc, key)?, word_of(alloc, value)?);
            writeln!(output, "{}\t{}", key.as_str(), value.as_str())?;
        }
    }
    Ok(())
}

// The bound at a key, where one is given: the key lies within.
fn bound(key: Option<&[u8]>) -> Bound<&[u8]> {
    match key {
        Some(key) => Bound::Included(key),
        None => Bound::Unbounded,
    }
}

// The bytes of an option's value, where it is given.
fn given(alloc: Global, word: Option<&str>) -> Result<Option<Vec<u8>>> {
    match word {
        Some(word) => Ok(Some(bytes_of(alloc, word)?)),
        None => Ok(None),
    }
}

// Writes the pairs of a keyspace that are asked for.
fn write_pairs<R: Machine, W: Write>(
    rt: &R,
    output: &mut W,
    keyspace: &Keyspace,
    options: Options<'_>,
) -> Result<()> {
    let alloc = rt.host().alloc();
    let (from, to) = (given(alloc, options.from)?, given(alloc, options.to)?);
    let mut pairs = match options.prefix {
        Some(prefix) => keyspace.prefix(rt, &bytes_of(alloc, prefix)?),
        None => keyspace.range(rt, (bound(from.as_deref()), bound(to.as_deref()))),
    };
    for _ in 0..options.limit {
        let found = if options.is_reversed {
            pairs.next_back()
        } else {
            pairs.next()
        };
        let Some(guard) = found else {
            break;
        };
        let (key, value) = guard.into_inner()?;
        write_pair(alloc, output, options.format, &key, &value)?;
    }
    Ok(())
}

// Writes the line ahead of the pairs of a keyspace, where the pairs of more than one are asked for.
fn write_name<W: Write>(alloc: Global, output: &mut W, format: Format, name: &str) -> Result<()> {
    if format == Format::Json {
        let name = hex::encode(alloc, name)?;
        writeln!(output, "{{\"keyspace\":\"{}\"}}", name.as_str())?;
    } else {
        let name = word_of(alloc, name.as_bytes())?;
        writeln!(output, "keyspace {}", name.as_str())?;
    }
    Ok(())
}

// Prints the pairs of one keyspace, or of each one behind its name.
fn show_pairs<R: Machine>(
    rt: &R,
    db: &Database,
    name: Option<&str>,
    options: Options<'_>,
) -> Result<Status> {
    let alloc = rt.host().alloc();
    let mut output = BufWriter::new(alloc, rt.host().stdout())?;
    if let Some(name) = name {
        let keyspace = database::keyspace(rt, db, name)?;
        write_pairs(rt, &mut output, &keyspace, options)?;
    } else {
        for name in &db.list_keyspace_names(rt)? {
            let keyspace = database::keyspace(rt, db, name)?;
            write_name(alloc, &mut output, options.format, name)?;
            write_pairs(rt, &mut output, &keyspace, options)?;
        }
    }
    output.flush()?;
    Ok(Status::Success)
}

// The name that stands ahead of options, where there is one, and the options.
fn parted(words: &[String]) -> (Option<&str>, &[String]) {
    match words {
        [name, options @ ..] if !name.starts_with("--") => (Some(name.as_str()), options),
        options => (None, options),
    }
}

/// `FOLDER [NAME] [OPTION ..]` of the commands `dump`, whose lines `load` reads, and `scan`, whose lines are for people: prints the pairs
/// of a keyspace, or those of each keyspace behind a line `keyspace NAME`.
pub fn run<R: Machine + Send + 'static>(
    rt: &R,
    format: Format,
    arguments: &[String],
) -> Result<Status> {
    let [folder, words @ ..] = arguments else {
        return Ok(Status::Usage);
    };
    let (name, words) = parted(words);
    let Some(options) = Options::read(format, words) else {
        return Ok(Status::Usage);
    };
    let db = database::open(rt, folder)?;
    let done = show_pairs(rt, &db, name, options);
    database::close(rt, db, done)
}
