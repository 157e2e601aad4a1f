//! Keeps accounts in a folder: transfers are optimistic transactions, and a snapshot shows all of one instant.

mod book;

use crate::machine::Machine;
use anyhow::Result;
use book::Book;
use fjall::{KeyspaceCreateOptions, OptimisticTxDatabase, Snapshot};
use std::sync::Wait;

// Makes a transfer, and prints what came of it.
fn pay<R: Wait + Print>(rt: &R, book: &Book, from: &str, to: &str, amount: u64) -> Result<()> {
    let outcome = book.transfer(rt, from, to, amount)?;
    println!(rt; "{from} pays {to} {amount}: {outcome:?}")?;
    Ok(())
}

// Prints what each account holds in a snapshot, and what all hold together.
fn show<R: Wait + Print>(rt: &R, book: &Book, at: &Snapshot) -> Result<()> {
    let mut total: u64 = 0;
    for name in ["Ada", "Ben", "Cleo"] {
        let held = book.balance(&mut at.at(rt), name)?.unwrap_or(0);
        print!(rt; "  {name} {held}")?;
        total = total.saturating_add(held);
    }
    println!(rt; "  together {total}")?;
    Ok(())
}

// Begins a transfer, and makes another one before it is finished, which leaves too little for it.
fn cross_transfers<R: Wait + Print>(rt: &R, book: &Book) -> Result<()> {
    println!(rt; "\nAda begins to pay Ben 60, and meanwhile")?;
    let mut entry = book.db.write_tx(rt)?;
    book.transfer_within(rt, &mut entry, "Ada", "Ben", 60)?;
    pay(rt, book, "Ada", "Cleo", 40)?;
    let finished = entry.commit(rt)?;
    println!(rt; "Ada's payment to Ben is finished: {finished:?}, and tried again")?;
    pay(rt, book, "Ada", "Ben", 60)?;
    pay(rt, book, "Ada", "Ben", 50)
}

/// Runs the example in a folder.
pub fn run<R: Machine>(rt: &R, folder: &str) -> Result<()> {
    let alloc = rt.alloc();
    let db = OptimisticTxDatabase::builder(alloc, folder)?.open(rt)?;
    let accounts = db.keyspace(rt, "accounts", KeyspaceCreateOptions::default(alloc)?)?;
    for (name, held) in [("Ada", 100u64), ("Ben", 50), ("Cleo", 0)] {
        accounts.insert(rt, name.as_bytes(), &held.to_be_bytes())?;
    }
    let book = Book { db, accounts };
    let before = book.db.read_tx(rt)?;
    pay(rt, &book, "Ada", "Cleo", 10)?;
    pay(rt, &book, "Ada", "Dan", 10)?;
    cross_transfers(rt, &book)?;
    show(rt, &book, &book.db.read_tx(rt)?)?;
    println!(rt; "and in the snapshot of before")?;
    show(rt, &book, &before)?;
    let (_disk, closed) = book.db.close(rt);
    Ok(closed?)
}
