//! The example of the repository's README: a database in the folder `example-database`. The README has what stands
//! between the two marks word for word, but for the head of the function: there it is `main`, which no code may call.

use crate::machine::Machine;

// README: from here
use fjall::{Database, KeyspaceCreateOptions, PersistMode, Readable, Result};

pub fn run<R: Machine>(rt: R) -> Result<()> {
    let alloc = rt.alloc();
    let db = Database::builder(alloc, "example-database")?.open(&rt)?;
    let items = db.keyspace(&rt, "items", KeyspaceCreateOptions::default(alloc)?)?;
    items.insert(&rt, b"apple", b"1")?;
    let before = db.snapshot(&rt)?;

    let mut batch = db.batch()?.durability(Some(PersistMode::SyncAll));
    batch.insert(&items, b"apple", b"2")?;
    batch.insert(&items, b"apricot", b"3")?;
    batch.commit(&rt)?; // both or none, and synced

    let old = before.at(&rt).get(&items, b"apple")?;
    let new = items.get(&rt, b"apple")?;
    println!(rt; "{old:?}, then {new:?}")?; // Some(b"1"), then Some(b"2")

    for guard in items.prefix(&rt, b"ap") {
        let (key, value) = guard.into_inner()?;
        println!(rt; "{key:?} has {value:?}")?; // b"apple", then b"apricot"
    }
    let (_disk, closed) = db.close(&rt);
    closed
}
// README: to here
