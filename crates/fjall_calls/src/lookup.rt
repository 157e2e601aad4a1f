//! The transactions that are open in a list of calls, found by their names.

ghost use Rattle.std.specs.Prelude.{◌≡◌, ◌+◌, ◌≤◌, ◌≢◌, None, position, vec_capacity, vec_len};
ghost use Rattle.fjall_calls.specs.Names.{Takes, is_of_kind, is_wanted};

use crate::call::Kind;
use crate::named::Named;
use fjall_base::Disk;
use fjall_core::{Core, Transaction};

// Whether a transaction is of this kind, or any kind will do.
fn is_of_kind(transaction: &Transaction, kind: Option<Kind>) -> bool
    ensures { result ≡ is_of_kind kind transaction.now }
{
    match kind {
        Some(Kind::Optimistic) => !transaction.is_single(),
        Some(Kind::Single) => transaction.is_single(),
        None => true,
    }
}

// Whether it is the transaction of this name and kind, and open.
fn is_wanted<D: Disk>(core: &Core<D>, named: &Named, name: u64, kind: Option<Kind>) -> bool
    ensures { result ≡ is_wanted core.now.engine.memory.tickets name kind named.now }
{
    named.place == name
        && is_of_kind(&named.transaction, kind)
        && core.instant_of(named.transaction.ticket()).is_some()
}

// Where the transaction of this name and kind stands among these.
fn place_of<D: Disk>(
    core: &Core<D>,
    listed: &[Named],
    name: u64,
    kind: Option<Kind>,
) -> Option<usize>
    ensures { result ≡ position (λ named. is_wanted core.now.engine.memory.tickets name kind named) listed.now }
{
    listed
        .iter()
        .position(|named| is_wanted(core, named, name, kind))
}

/// Takes the open transaction of this name and kind out of a list, where there is one.
pub(crate) fn take_named<D: Disk>(
    core: &Core<D>,
    listed: &mut Vec<Named>,
    name: u64,
    kind: Option<Kind>,
) -> Option<Named>
    ensures takes { Takes (is_wanted core.now.engine.memory.tickets name kind) listed.old.items result listed.new.items }
    ensures room { vec_capacity listed.new ≡ vec_capacity listed.old }
    ensures len { vec_len listed.new ≤ vec_len listed.old }
    ensures less { result ≢ None → vec_len listed.new + 1 ≡ vec_len listed.old }
{
    let place = place_of(core, listed, name, kind)?;
    Some(listed.remove(place))
}
