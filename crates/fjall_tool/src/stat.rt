//! The command `stat`.

use crate::spelling::word_of;
use anyhow::{Context, Result, bail};
use fjall_base::Disk;
use fjall_disk_folder::FolderReader;
use fjall_files::journal_name;
use fjall_inspect::{KeyspaceSurvey, TableCounts, survey};
use fjall_journal::RecoveryMode;
use fjall_recovery::{RecoveredFolder, read_folder};
use fjall_script::Status;
use std::alloc::Global;

// Prints a number, or a word where there is none.
fn print_number(rt: &HostRuntime, number: Option<u64>, none: &str) -> Result<()> {
    match number {
        Some(number) => print!(rt; "{number}")?,
        None => print!(rt; "{none}")?,
    }
    Ok(())
}

// Prints what a keyspace has, as a line for people.
fn tell_keyspace(rt: &HostRuntime, found: &KeyspaceSurvey) -> Result<()> {
    let name = word_of(rt.alloc(), found.name.as_slice())?;
    print!(rt;
        "keyspace {}: id {}, made under {}, persisted up to ",
        name.as_str(),
        found.id,
        found.number
    )?;
    print_number(rt, found.persisted, "none")?;
    let TableCounts {
        tables,
        entries,
        bytes,
    } = found.tables;
    let (new, merged) = (found.level_0.tables, found.level_1.tables);
    print!(rt; "; tables {tables} ({new} at level 0, {merged} at level 1) of {bytes} bytes")?;
    println!(rt; " with {entries} versions; clears {}", found.clears)?;
    Ok(())
}

// Prints what tables have as fields of an object of JSON.
fn print_counts(rt: &HostRuntime, name: &str, counts: TableCounts) -> Result<()> {
    let TableCounts {
        tables,
        entries,
        bytes,
    } = counts;
    print!(rt; ",\"{name}\":{{\"tables\":{tables},\"versions\":{entries},\"bytes\":{bytes}}}")?;
    Ok(())
}

// Prints the same as an object of JSON.
fn print_keyspace(rt: &HostRuntime, found: &KeyspaceSurvey) -> Result<()> {
    let name = hex::encode(rt.alloc(), found.name.as_slice())?;
    print!(rt;
        "{{\"keyspace\":\"{}\",\"id\":{},\"number\":{}",
        name.as_str(),
        found.id,
        found.number
    )?;
    print!(rt; ",\"persisted\":")?;
    print_number(rt, found.persisted, "null")?;
    print!(rt; ",\"clears\":{}", found.clears)?;
    print_counts(rt, "all", found.tables)?;
    print_counts(rt, "level_0", found.level_0)?;
    print_counts(rt, "level_1", found.level_1)?;
    println!(rt; "}}")?;
    Ok(())
}

// How long the active journal is.
fn active_bytes<D: Disk>(alloc: Global, disk: &mut D, folder: &RecoveredFolder) -> Result<u64> {
    let Some(id) = folder.journal_ids.last() else {
        return Ok(0);
    };
    let name = journal_name(alloc, *id)?;
    Ok(match disk.read(alloc, name.as_str())? {
        Some(text) => text.len() as u64,
        None => 0,
    })
}

// Prints what is known of the database as a whole.
fn tell_database<D: Disk>(
    rt: &HostRuntime,
    disk: &mut D,
    folder: &RecoveredFolder,
    is_json: bool,
) -> Result<()> {
    let active = active_bytes(rt.alloc(), disk, folder)?;
    let sealed = folder.journals.sealed.disk_space_used();
    let bytes = sealed.saturating_add(active);
    let (keyspaces, journals) = (folder.homes.len(), folder.journal_ids.len());
    let number = folder.number();
    if is_json {
        print!(rt; "{{\"keyspaces\":{keyspaces},\"next_number\":{number}")?;
        println!(rt; ",\"journals\":{journals},\"journal_bytes\":{bytes}}}")?;
    } else {
        print!(rt; "keyspaces {keyspaces}; the next number {number}")?;
        println!(rt; "; journals {journals} of {bytes} bytes")?;
    }
    Ok(())
}

// Prints what is known of each keyspace, or of the one that has a name. It tells whether there is one.
fn tell_keyspaces(
    rt: &HostRuntime,
    folder: &RecoveredFolder,
    name: Option<&str>,
    is_json: bool,
) -> Result<bool> {
    let mut is_told = false;
    for found in &survey(rt.alloc(), folder)? {
        if name.is_some_and(|name| name.as_bytes() != found.name.as_slice()) {
            continue;
        }
        is_told = true;
        if is_json {
            print_keyspace(rt, found)?;
        } else {
            tell_keyspace(rt, found)?;
        }
    }
    Ok(is_told)
}

// Prints what is asked for of the database in a folder.
fn tell(rt: &HostRuntime, folder: &str, name: Option<&str>, is_json: bool) -> Result<()> {
    let alloc = rt.alloc();
    let mut disk = FolderReader::open(rt, alloc, folder).context(format_args!("{folder}"))?;
    let found = read_folder(alloc, &mut disk, RecoveryMode::TolerateCorruptTail);
    let Some(found) = found.context(format_args!("{folder}"))? else {
        bail!("{folder}: no database stands there, or its making was cut short");
    };
    match name {
        None => {
            tell_database(rt, &mut disk, &found, is_json)?;
            tell_keyspaces(rt, &found, None, is_json)?;
        }
        Some(name) if !tell_keyspaces(rt, &found, Some(name), is_json)? => {
            bail!("{name}: no keyspace has that name");
        }
        Some(_) => {}
    }
    Ok(())
}

/// `stat FOLDER [NAME] [--json]` prints what a database's records and journals tell of it, or of one keyspace. The folder stays as it is.
pub fn run(rt: &HostRuntime, arguments: &[String]) -> Result<Status> {
    let (words, is_json) = match arguments {
        [words @ .., flag] if flag.as_str() == "--json" => (words, true),
        words => (words, false),
    };
    match words {
        [folder] => tell(rt, folder, None, is_json)?,
        [folder, name] => tell(rt, folder, Some(name.as_str()), is_json)?,
        _ => return Ok(Status::Usage),
    }
    Ok(Status::Success)
}
