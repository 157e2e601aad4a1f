//! The trees of keyspaces, and what their tables count for.

ghost use Rattle.std.specs.Prelude.{◌≡◌};
ghost use Rattle.std.specs.Option.{option_copied, option_map};
ghost use Rattle.fjall_journal.specs.Writer.{counted};
ghost use Rattle.fjall_tree.specs.Shapes.{shape_of};
ghost use Rattle.fjall_trees.specs.Forests.{IsForest, tree_at};
ghost use Rattle.fjall_trees.specs.Maps.{store_of};
ghost use Rattle.fjall_trees.specs.Tables.{shape_in};
ghost use Rattle.fjall_machine.specs.Machine.{table_space, tables_space};

use crate::engine_state::EngineState;
use fjall_tree::Tree;

impl EngineState {
    /// The tree of a keyspace, where it has one.
    pub fn tree(&self, id: u64) -> Option<&Tree>
        ensures tree { option_map shape_of (option_copied result) ≡ tree_at id self.now.trees }
        ensures lawful { IsForest self.now.trees }
    {
        self.trees.tree(id)
    }

    /// How many bytes the files of a keyspace's tables have, added up; the greatest `u64` where that is too small.
    pub fn table_space(&self, id: u64) -> u64
        ensures { result ≡ table_space (shape_in id self.now.trees) }
    {
        self.trees.disk_space(id)
    }

    /// The same of all keyspaces that live, added up; the greatest `u64` where that is too small.
    pub fn tables_space(&self) -> u64
        ensures { result ≡ counted (tables_space (store_of self.now.keyspaces self.now.trees) self.now.trees) }
    {
        let mut total: u64 = 0;
        for keyspace in self.living() {
            total = total.saturating_add(self.trees.disk_space(keyspace.id));
        }
        total
    }
}
