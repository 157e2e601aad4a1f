//! Reads of keyspaces in a view, from memory and from tables on a disk.

ghost use Rattle.std.specs.Prelude.{◌≡◌, [], ℕ, List, None, Some, ⊤, IfErr, IfOk, IsTrue, OnOk};
ghost use Rattle.fjall_base.specs.Pairs.{lookup, page, pairs_between};
ghost use Rattle.fjall_base.specs.declared.error.Error.{Error as Told};
ghost use Rattle.fjall_table.specs.Blocks.{Entry};
ghost use Rattle.fjall_table_reader.specs.Readers.{LooksOn, SomeTableIsWrong};
ghost use Rattle.fjall_trees.specs.Tables.{AreReadOn, AreSameTrees, shape_in};
ghost use Rattle.fjall_trees.specs.Maps.{pairs_in};
ghost use Rattle.fjall_trees.specs.MapTables.{pairs_with};
ghost use Rattle.fjall_machine.specs.Machine.{first_due, view_refusals};
ghost use Rattle.fjall_machine.specs.Reads.{IsReadRefusal};
ghost use Rattle.fjall_machine.specs.Remembered.{facts_of, instant_in, with_trees};

use crate::engine_state::EngineState;
use fjall_base::{Disk, KvPair, Result, UserValue};
use fjall_history::View;
use fjall_reading::{KeyRange, bounds_of};
use std::alloc::Global;

impl EngineState {
    /// The value that a key of a keyspace has in a view, where it has one. A deleted keyspace is read as long as handles of it
    /// are counted. Blocks of tables that were read are kept, also after a refusal; nothing else changes.
    ///
    /// Refusals: `SnapshotClosed`, `UnknownKeyspace`, `KeyspaceDeleted`, and then, in the order in which they are met, `Io` where the
    /// disk fails, `Storage(TableDamaged)` where a block of one of its tables is wrong in which the key would stand, `OutOfMemory`.
    pub fn get<D: Disk>(
        &mut self,
        disk: &mut D,
        view: View,
        id: u64,
        key: &[u8],
    ) -> Result<Option<UserValue>>
        ensures due { OnOk result (first_due (view_refusals (facts_of self.old 0) view id) ≡ None) }
        ensures held { self.new ≡ with_trees self.new.trees self.old }
        ensures trees { AreSameTrees self.old.trees self.new.trees }
        // Where the keyspace has no table, or a refusal is due, the disk isn't asked.
        ensures bare { (shape_in id self.old.trees).tables ≡ []
            → (self.new ≡ self.old) × (D.meaning disk.new ≡ D.meaning disk.old) × IfOk result (λ found. found ≡ lookup (pairs_in id (instant_in self.old view) self.old.trees) key.now) }
        ensures waits { (error : Told) → first_due (view_refusals (facts_of self.old 0) view id) ≡ Some error
            → (self.new ≡ self.old) × (D.meaning disk.new ≡ D.meaning disk.old) }
        ensures found { IsTrue D.honest → (entries : ℕ → List (List Entry)) → AreReadOn (D.meaning disk.old) self.old.trees entries
            → IfOk result (λ found. found ≡ lookup (pairs_with entries id (instant_in self.old view) self.old.trees) key.now) }
        ensures reads { IsTrue D.honest → (entries : ℕ → List (List Entry)) → AreReadOn (D.meaning disk.old) self.old.trees entries
            → AreReadOn (D.meaning disk.new) self.new.trees entries }
        ensures refused { IsTrue D.honest → (entries : ℕ → List (List Entry)) → AreReadOn (D.meaning disk.old) self.old.trees entries
            → IfErr result (IsReadRefusal (first_due (view_refusals (facts_of self.old 0) view id)) (SomeTableIsWrong (D.meaning disk.old) (shape_in id self.old.trees).tables)
            (shape_in id self.old.trees).tables (D.meaning disk.old) (D.meaning disk.new)) }
        ensures cause { IfErr result (IsReadRefusal (first_due (view_refusals (facts_of self.old 0) view id)) ⊤
            (shape_in id self.old.trees).tables (D.meaning disk.old) (D.meaning disk.new)) }
        ensures disk { LooksOn D.honest (D.meaning disk.old) (D.meaning disk.new) }
    {
        if let Some(error) = self.view_refusal(view, id) {
            return Err(error);
        }
        let instant = self.instant_of(view);
        if self.trees.table_count(id) == 0 {
            return self.trees.get_in_memory(id, key, instant);
        }
        self.trees.get(disk, id, key, instant)
    }

    /// The first or, from behind, the last pairs of a keyspace between the bounds in a view, at most `max`, in the keys' order.
    /// Blocks of tables that were read are kept, also after a refusal; nothing else changes.
    ///
    /// It is refused as [`get`](EngineState::get), where a block is wrong that the page wants.
    pub fn page<D: Disk>(
        &mut self,
        alloc: Global,
        disk: &mut D,
        view: View,
        id: u64,
        range: &KeyRange,
        back: bool,
        max: usize,
    ) -> Result<Vec<KvPair>>
        ensures due { OnOk result (first_due (view_refusals (facts_of self.old 0) view id) ≡ None) }
        ensures held { self.new ≡ with_trees self.new.trees self.old }
        ensures trees { AreSameTrees self.old.trees self.new.trees }
        ensures bare { (shape_in id self.old.trees).tables ≡ []
            → (self.new ≡ self.old) × (D.meaning disk.new ≡ D.meaning disk.old)
            × IfOk result (λ found. found.items ≡ page back max (pairs_between range.now (pairs_in id (instant_in self.old view) self.old.trees))) }
        ensures waits { (error : Told) → first_due (view_refusals (facts_of self.old 0) view id) ≡ Some error
            → (self.new ≡ self.old) × (D.meaning disk.new ≡ D.meaning disk.old) }
        ensures found { IsTrue D.honest → (entries : ℕ → List (List Entry)) → AreReadOn (D.meaning disk.old) self.old.trees entries
            → IfOk result (λ found. found.items ≡ page back max (pairs_between range.now (pairs_with entries id (instant_in self.old view) self.old.trees))) }
        ensures reads { IsTrue D.honest → (entries : ℕ → List (List Entry)) → AreReadOn (D.meaning disk.old) self.old.trees entries
            → AreReadOn (D.meaning disk.new) self.new.trees entries }
        ensures refused { IsTrue D.honest → (entries : ℕ → List (List Entry)) → AreReadOn (D.meaning disk.old) self.old.trees entries
            → IfErr result (IsReadRefusal (first_due (view_refusals (facts_of self.old 0) view id)) (SomeTableIsWrong (D.meaning disk.old) (shape_in id self.old.trees).tables)
            (shape_in id self.old.trees).tables (D.meaning disk.old) (D.meaning disk.new)) }
        ensures cause { IfErr result (IsReadRefusal (first_due (view_refusals (facts_of self.old 0) view id)) ⊤
            (shape_in id self.old.trees).tables (D.meaning disk.old) (D.meaning disk.new)) }
        ensures disk { LooksOn D.honest (D.meaning disk.old) (D.meaning disk.new) }
    {
        if let Some(error) = self.view_refusal(view, id) {
            return Err(error);
        }
        let instant = self.instant_of(view);
        let bounds = bounds_of(range);
        if self.trees.table_count(id) == 0 {
            return self
                .trees
                .page_in_memory(alloc, id, bounds, instant, back, max);
        }
        self.trees.page(alloc, disk, id, bounds, instant, back, max)
    }
}
