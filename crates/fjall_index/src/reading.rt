//! What is read: the value of a key, pairs by their field, and whether an index keyspace has the index of a main keyspace.

ghost use Rattle.std.specs.Prelude.{IfErr, IfOk, IsTrue, ℕ, ◌↔◌, ◌≡◌, ◌≤◌};
ghost use Rattle.fjall_base.specs.Pairs.{Pairs, lookup};
ghost use Rattle.fjall_base.specs.Store.{map_at};
ghost use Rattle.fjall_history.specs.declared.ticket.View.TheVariants.{Present};
ghost use Rattle.fjall_machine.specs.Machine.{maps_in};
ghost use Rattle.fjall_core.specs.CoreStanding.{ReadsOn};
ghost use Rattle.fjall_core.specs.Leaving.{LeavesStanding};
ghost use Rattle.fjall_core.specs.Shown.{IsRefusedFor, Shows};
ghost use Rattle.fjall_core.specs.Standing.{StandFor, CoreState};
ghost use Rattle.fjall_index_entries.specs.Index.{FieldOf, found_in, index_of};
ghost use Rattle.fjall_index_entries.specs.Keeping.{IsIndexed};
ghost use Rattle.fjall_index.specs.Refusing.{IsRefusedForEither, OfEngine};
ghost use Rattle.fjall_index.specs.Standing.{KeepsIndexed, nothing};

use crate::indexed::Indexed;
use fjall_base::{Disk, KvPair, Result, UserValue};
use fjall_core::{Core, Engine, Reader, View};
use fjall_index_entries::{Extract, find_pairs, is_index};
use fjall_reading::Readable;
use std::alloc::Global;

// The value that a reader shows of a key. The engine stays lent, and what stood over it stands.
fn value_by<D: Disk>(reader: &mut Reader<'_, D>, id: u64, key: &[u8]) -> Result<Option<UserValue>>
    ensures found { (map : Pairs) → Shows D.honest reader.old.core.now reader.old.view id map → IfOk result (λ found. found ≡ lookup map key.now) }
    ensures stand { LeavesStanding D.honest reader.old.core.now reader.new.core.now }
    ensures lent { reader.new.core.ghost_name ≡ reader.old.core.ghost_name }
    ensures cause { IfErr result (IsRefusedFor reader.old.core.now reader.old.view id reader.new.core.now) }
{
    reader.get(&id, key)
}

/// The value that a key of a keyspace has in a view. What stood over the engine stands.
pub(crate) fn value_in<D: Disk>(
    alloc: Global,
    engine: &mut Engine<D>,
    view: View,
    id: u64,
    key: &[u8],
) -> Result<Option<UserValue>>
    ensures found { (map : Pairs) → Shows D.honest engine.old view id map → IfOk result (λ found. found ≡ lookup map key.now) }
    ensures stand { LeavesStanding D.honest engine.old engine.new }
    ensures cause { IfErr result (IsRefusedFor engine.old view id engine.new) }
{
    let mut reader = Reader::new(alloc, engine, view);
    let found = value_by(&mut reader, id, key);
    reader.into_core();
    found
}

// The pairs that a core's reader shows with this field. The core stays lent, and what stood over it stands.
fn find_by<D: Disk>(
    reader: &mut Reader<'_, D>,
    main: u64,
    index: u64,
    field: &[u8],
) -> Result<Vec<KvPair>>
    ensures found { (of : FieldOf) (map : Pairs) → Shows D.honest reader.old.core.now reader.old.view main map → Shows D.honest reader.old.core.now reader.old.view index (index_of of map)
        → IfOk result (λ found. found.items ≡ found_in of field.now map) }
    ensures stand { LeavesStanding D.honest reader.old.core.now reader.new.core.now }
    ensures lent { reader.new.core.ghost_name ≡ reader.old.core.ghost_name }
    ensures cause { IfErr result (IsRefusedForEither reader.old.core.now reader.old.view main index reader.new.core.now) }
{
    find_pairs(reader, &main, &index, field)
}

// The pairs that an engine shows in a view with this field. What stood over the engine stands.
fn find_in<D: Disk>(
    alloc: Global,
    engine: &mut Engine<D>,
    view: View,
    main: u64,
    index: u64,
    field: &[u8],
) -> Result<Vec<KvPair>>
    ensures found { (of : FieldOf) (map : Pairs) → Shows D.honest engine.old view main map → Shows D.honest engine.old view index (index_of of map)
        → IfOk result (λ found. found.items ≡ found_in of field.now map) }
    ensures stand { LeavesStanding D.honest engine.old engine.new }
    ensures cause { IfErr result (IsRefusedForEither engine.old view main index engine.new) }
{
    let mut reader = Reader::new(alloc, engine, view);
    let found = find_by(&mut reader, main, index, field);
    reader.into_core();
    found
}

impl<E: Extract> Indexed<E> {
    /// The pairs of a view that have this field, in the order of their keys.
    ///
    /// It is refused as reads of the two keyspaces are, and nothing changes. It has all that it finds in memory.
    pub fn find<D: Disk>(
        &self,
        core: &mut Core<D>,
        view: View,
        field: &[u8],
    ) -> fjall_index_entries::Result<Vec<KvPair>>
        ensures found { IsTrue D.honest → (t : CoreState) → StandFor core.old.engine core.old.transactions t → ReadsOn core.old.engine t.state
            → IsIndexed (E.field_of self.now.extract) self.now.main self.now.index (maps_in t.state view)
            → IfOk result (λ found. found.items ≡ found_in (E.field_of self.now.extract) field.now (map_at (maps_in t.state view) self.now.main)) }
        ensures keeps { IsTrue D.honest → KeepsIndexed (E.field_of self.now.extract) self.now.main self.now.index nothing
            core.old.engine core.old.transactions core.new.engine core.new.transactions }
        ensures cause { IfErr result (OfEngine (IsRefusedForEither core.old.engine view self.now.main self.now.index core.new.engine)) }
        ensures same { core.new.transactions ≡ core.old.transactions }
    {
        let found = find_in(self.alloc, core, view, self.main, self.index, field)?;
        Ok(found)
    }
}

// Whether a core's reader shows the index of the main keyspace's map. The core stays lent, and what stood over it stands.
fn shows_index<D: Disk, E: Extract>(
    reader: &mut Reader<'_, D>,
    extract: &E,
    main: u64,
    index: u64,
) -> Result<bool>
    ensures ok { (map found : Pairs) → Shows D.honest reader.old.core.now reader.old.view main map → Shows D.honest reader.old.core.now reader.old.view index found
        → IfOk result (λ yes. IsTrue yes ↔ (found ≡ index_of (E.field_of extract.now) map)) }
    ensures stand { LeavesStanding D.honest reader.old.core.now reader.new.core.now }
    ensures lent { reader.new.core.ghost_name ≡ reader.old.core.ghost_name }
    ensures cause { IfErr result (IsRefusedForEither reader.old.core.now reader.old.view main index reader.new.core.now) }
{
    is_index(reader, extract, main, index)
}

/// Whether the index keyspace has the index of the main one at the present of an engine. What stood over it stands.
pub(crate) fn is_index_in<D: Disk, E: Extract>(
    alloc: Global,
    engine: &mut Engine<D>,
    extract: &E,
    main: u64,
    index: u64,
) -> Result<bool>
    ensures ok { (map found : Pairs) → Shows D.honest engine.old Present main map → Shows D.honest engine.old Present index found
        → IfOk result (λ yes. IsTrue yes ↔ (found ≡ index_of (E.field_of extract.now) map)) }
    ensures stand { LeavesStanding D.honest engine.old engine.new }
    ensures cause { IfErr result (IsRefusedForEither engine.old Present main index engine.new) }
{
    let mut reader = Reader::new(alloc, engine, View::Present);
    let told = shows_index(&mut reader, extract, main, index);
    reader.into_core();
    told
}
