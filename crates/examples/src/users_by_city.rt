//! Keeps users in a folder, and finds them by their city.

mod directory;

use anyhow::Result;
use directory::Directory;
use fjall_index::View;
use std::str;

// Prints the users of two cities.
fn show(rt: &HostRuntime, directory: &mut Directory, view: View) -> Result<()> {
    for code in ["LIS", "OSL"] {
        print!(rt; "  {code}:")?;
        for (name, user) in &directory.of_city(view, code)? {
            let (name, user) = (str::from_utf8(name)?, str::from_utf8(user)?);
            print!(rt; " {name} ({user})")?;
        }
        println!(rt; "")?;
    }
    Ok(())
}

// Moves a user and removes another one in one transaction, and shows that a snapshot stays as it was.
fn change_two(rt: &HostRuntime, directory: &mut Directory) -> Result<()> {
    let before = View::At(directory.core.snapshot()?);
    let mut tx = directory.users.begin(&mut directory.core)?;
    directory.put_in(&mut tx, "ada", "OSL Ada Pires")?;
    let ben = directory.slice("ben")?;
    directory.users.del_in(&mut directory.core, &mut tx, ben)?;
    let outcome = directory.users.commit(&mut directory.core, tx);
    println!(rt; "\nAda moves to Oslo and Ben leaves, in one transaction: {outcome:?}")?;
    show(rt, directory, View::Present)?;
    println!(rt; "and in the snapshot of before")?;
    show(rt, directory, before)
}

/// Runs the example in a folder.
pub fn run(rt: &HostRuntime, folder: &str) -> Result<()> {
    let mut morning = Directory::open(rt, folder)?;
    morning.put("ada", "LIS Ada Pires")?;
    morning.put("ben", "OSL Ben Moe")?;
    morning.put("cleo", "LIS Cleo Reis")?;
    println!(rt; "Users by their city")?;
    show(rt, &mut morning, View::Present)?;
    change_two(rt, &mut morning)?;
    let Directory { core, .. } = morning;
    let (disk, closed) = Box::into_inner(core).close();
    drop(disk);
    closed?;
    println!(rt; "\nThe folder is closed, and opened again")?;
    let mut evening = Directory::open(rt, folder)?;
    evening
        .core
        .insert(evening.users.main(), b"dan", b"LIS Dan Sousa")?;
    println!(rt;
        "Dan is written past the index: {:?}",
        evening.users.check(&mut evening.core)
    )?;
    evening.users.rebuild(&mut evening.core)?;
    println!(rt;
        "and it is rebuilt: {:?}",
        evening.users.check(&mut evening.core)
    )?;
    show(rt, &mut evening, View::Present)?;
    let Directory { core, .. } = evening;
    Ok(Box::into_inner(core).close().1?)
}
