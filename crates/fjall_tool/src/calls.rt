//! The command `calls`: each line of an input is a call of the disk, and is answered by a line.

use crate::usage;
use fjall_base::{DirEntry, Disk, Error, Result};
use fjall_disk_folder::FolderDisk;
use fjall_script::Status;
use std::alloc::{AllocError, Global};
use std::io::{Read, Write};

// Changes what the call of this name changes.
fn change(disk: &mut FolderDisk, call: &str, name: &str) -> Option<Result<()>> {
    match call {
        "create" => Some(disk.create(name)),
        "sync" => Some(disk.sync(name)),
        "remove" => Some(disk.remove(name)),
        "remove_folder" => Some(disk.remove_folder(name)),
        "make_folder" => Some(disk.make_folder(name)),
        "sync_folder" => Some(disk.sync_folder(name)),
        _ => None,
    }
}

// The bytes that were read, where there are any.
fn bytes_text(alloc: Global, bytes: Option<Vec<u8>>) -> Result<String> {
    match bytes {
        Some(bytes) => Ok(format!(in alloc; "bytes {}", String::from_utf8_lossy(alloc, &bytes)?)?),
        None => Ok(String::from_str(alloc, "none")?),
    }
}

// The names of these, in order, each with a blank before it, and folders with a slash behind.
fn names_text(alloc: Global, entries: &[DirEntry]) -> Result<String> {
    let mut names = Vec::new(alloc);
    for entry in entries {
        let slash = if entry.is_folder { "/" } else { "" };
        names.push(format!(in alloc; " {}{slash}", entry.name.as_str())?)?;
    }
    names.sort()?;
    let mut text = String::from_str(alloc, "names")?;
    for name in &names {
        text.push_str(name.as_str())?;
    }
    Ok(text)
}

// The number of a word, or the greatest one.
fn number(word: &str) -> usize {
    word.parse().unwrap_or(usize::MAX)
}

// Reads what the call of this name reads.
fn look(alloc: Global, disk: &mut FolderDisk, call: &str, name: &str) -> Result<String> {
    match call {
        "read" => bytes_text(alloc, disk.read(alloc, name)?),
        "list" => names_text(alloc, &disk.list(alloc, name)?),
        _ => Ok(String::from_str(alloc, "no call")?),
    }
}

// Makes a call that takes more than a name.
fn make_long(alloc: Global, disk: &mut FolderDisk, words: &[&str]) -> Result<String> {
    match words {
        ["append", name, text] => disk.append(name, text.as_bytes())?,
        ["cut", name, len] => disk.cut_sync(name, number(len))?,
        ["read_at", name, at, len] => {
            return bytes_text(alloc, disk.read_at(alloc, name, number(at), number(len))?);
        }
        ["faults"] => return Ok(format!(in alloc; "faults {}", disk.faults())?),
        _ => return Ok(String::from_str(alloc, "no call")?),
    }
    Ok(String::from_str(alloc, "ok")?)
}

// Makes the call that these words name.
fn make(alloc: Global, disk: &mut FolderDisk, words: &[&str]) -> Result<String> {
    let [call, name] = words else {
        return make_long(alloc, disk, words);
    };
    match change(disk, call, name) {
        Some(changed) => {
            changed?;
            Ok(String::from_str(alloc, "ok")?)
        }
        None => look(alloc, disk, call, name),
    }
}

// What a line is answered: `ok`, `none`, `bytes` or `names` with what was found, or the refusal.
fn answer(
    alloc: Global,
    disk: &mut FolderDisk,
    line: &str,
) -> std::result::Result<String, AllocError> {
    let words: Vec<&str> = line.split(' ').collect(alloc)?;
    match make(alloc, disk, &words) {
        Ok(answer) => Ok(answer),
        Err(error) => format!(in alloc; "{error}"),
    }
}

// Makes the calls of an input over a folder, and prints the answer to each.
fn serve<R: Read, W: Write>(
    rt: &HostRuntime,
    folder: &str,
    input: &mut R,
    output: &mut W,
) -> Result<()> {
    let alloc = rt.alloc();
    let mut disk = FolderDisk::open(rt, alloc, folder)?;
    let mut text = String::new(alloc);
    input.read_to_string(&mut text)?;
    for line in text.lines() {
        let answer = answer(alloc, &mut disk, line)?;
        writeln!(output, "{}", answer.as_str())?;
    }
    Ok(output.flush()?)
}

/// Runs the command on its arguments: a folder's path. A refused opening, and an input or an output that fails, end it.
pub fn run<R: Read, W: Write, E: Write>(
    rt: &HostRuntime,
    arguments: &[String],
    input: &mut R,
    output: &mut W,
    errors: &mut E,
) -> Status {
    let [folder] = arguments else {
        return usage(errors);
    };
    match serve(rt, folder.as_str(), input, output) {
        Ok(()) => Status::Success,
        Err(error) => {
            let _ = writeln!(errors, "Error: {error}");
            Status::Failure
        }
    }
}
