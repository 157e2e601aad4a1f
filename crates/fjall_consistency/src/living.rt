//! Lives of engines, one after another.

ghost use Rattle.std.specs.Prelude.{◌≡◌, ◌+◌, IfOk, IsTrue, OnOk, length, true};
ghost use Rattle.fjall_base.specs.Store.{Store};
ghost use Rattle.fjall_consistency.specs.Consistency.{AreLives, no_store};
ghost use Rattle.fjall_consistency.specs.Links.{EndsAs, IsFresh, PassesOn, ServesOn};

use crate::life::{Life, Told};
use crate::power::Power;
use fjall_base::{Disk, Refused, Result};
use fjall_calls::{Config, Core, run};
use std::alloc::Global;

// Ends an engine: closes it, or lets it go. It tells whether it closed, and gives the disk back.
fn ended<D: Disk>(core: Core<D>, closes: bool) -> (bool, D)
    ensures ends { IsTrue D.honest → EndsAs core.engine result.0 (D.meaning result.1) }
    ensures asked { result.0 ≡ true → closes ≡ true }
{
    if !closes {
        return (false, core.into_disk());
    }
    match core.close() {
        (disk, Ok(())) => (true, disk),
        (disk, Err(_)) => (false, disk),
    }
}

// What an engine that has opened makes of a life.
fn served<D: Disk>(alloc: Global, core: Core<D>, life: Life) -> (Result<Told>, D)
    ensures { IsTrue D.honest → ServesOn core.engine core.transactions life result.0 (D.meaning result.1) }
{
    let mut core = core;
    let Life { calls, closes } = life;
    match run(alloc, &mut core, calls) {
        Ok(replies) => {
            let (closed, disk) = ended(core, closes);
            (Ok(Told { replies, closed }), disk)
        }
        Err(error) => (Err(error), core.into_disk()),
    }
}

// One life on a disk.
fn lived<D: Disk>(alloc: Global, disk: D, life: Life) -> (Result<Told>, D)
    ensures { IsTrue D.honest → PassesOn (D.meaning disk) life result.0 (D.meaning result.1) }
{
    let config = match Config::new(alloc, "") {
        Ok(config) => config,
        Err(error) => return (Err(error), disk),
    };
    match Core::open(alloc, config, disk) {
        Ok(core) => served(alloc, core, life),
        Err(refused) => {
            let Refused { error, value } = refused;
            (Err(error), value)
        }
    }
}

/// Lives one after another on a disk on which nothing was ever put, the power of which may go between any two: each opens an engine on
/// what the one before it left, makes its calls, and closes it or lets it go. What each told is returned; a life whose opening, or
/// whose list of calls, was refused as a whole told why.
///
/// It is refused where there is no memory for what is told, or no disk to go on with.
pub fn live<P: Power>(
    alloc: Global,
    power: &mut P,
    disk: P::Disk,
    lives: Vec<Life>,
) -> Result<Vec<Result<Told>>>
    requires fresh { IsTrue P.Disk.honest → IsFresh (P.Disk.meaning disk) }
    ensures lives { IsTrue P.Disk.honest → IfOk result (λ told. (end : Store) × AreLives P.wild no_store lives.items told.items end) }
    ensures turns { OnOk result (P.turns power.new ≡ P.turns power.old + length lives.items) }
{
    let mut disk = disk;
    let mut told = Vec::with_capacity(alloc, lives.len())?;
    for life in lives {
        let (tells, left) = lived(alloc, disk, life);
        told.push(tells)?;
        disk = power.turn(left)?;
    }
    Ok(told)
}
