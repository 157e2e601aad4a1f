//! Batches and clears, and what takes them back.

ghost use Rattle.std.specs.Prelude.{◌≡◌, ◌∷◌, ◌<◌, ◌^◌, [], IfOk, OnOk, OnErr};
ghost use Rattle.fjall_journal.specs.Ops.{op_of};
ghost use Rattle.fjall_tree.specs.Trees.{emptied};
ghost use Rattle.fjall_trees.specs.Forests.{AreBefore, altered_at};
ghost use Rattle.fjall_trees.specs.Writes.{MayPush, pushed};

use crate::marks::Marks;
use crate::trees::{Trees, place_of};
use fjall_journal::{BatchItem, OpRef};
use std::alloc::AllocError;

impl Trees {
    ghost use Rattle.fjall_trees.specs.Views.{AreMarksOfAll, AreMarksOfTrees, KeepAllMarks, forest_before, forest_of};

    /// Makes the versions of a batch of that number, above all that is in memory: of two items of one key the later one
    /// counts, and one of a keyspace without a tree is passed over. It answers marks of the trees as they were. It is
    /// refused for want of memory alone, and an `Err` leaves all as it was.
    pub fn push_items(&mut self, items: &[BatchItem], number: u64) -> Result<Marks, AllocError>
        requires { MayPush number items.now (forest_of self.old) }
        ensures ok { OnOk result (forest_of self.new ≡ pushed number items.now (forest_of self.old)) }
        ensures marks { IfOk result (λ marks. AreMarksOfTrees self.new marks × (forest_before marks self.new ≡ forest_of self.old)) }
        ensures err { OnErr result (forest_of self.new ≡ forest_of self.old) }
    {
        if let [(id, key, op)] = items {
            return self.push_one(*id, key.as_slice(), op.lend(), number);
        }
        let marks = self.all_marks()?;
        match self.push_all(items, number) {
            Ok(()) => Ok(marks),
            Err(refused) => {
                self.take_back(marks);
                Err(refused)
            }
        }
    }

    /// The same of one item, whose key and value are lent, with a mark of its tree alone.
    pub fn push_one(
        &mut self,
        id: u64,
        key: &[u8],
        op: OpRef<'_>,
        number: u64,
    ) -> Result<Marks, AllocError>
        requires { MayPush number ((id, key.now, op_of op) ∷ []) (forest_of self.old) }
        ensures ok { OnOk result (forest_of self.new ≡ pushed number ((id, key.now, op_of op.entry) ∷ []) (forest_of self.old)) }
        ensures marks { IfOk result (λ marks. AreMarksOfTrees self.new marks × (forest_before marks self.new ≡ forest_of self.old)) }
        ensures err { OnErr result (forest_of self.new ≡ forest_of self.old) }
    {
        let mut marks = Vec::with_capacity(self.alloc, 1)?;
        let Some(place) = place_of(self.trees.as_slice(), id) else {
            return Ok(Marks { from: 0, marks });
        };
        let tree = &mut self.trees[place].tree;
        marks.push_reserved(tree.mark());
        tree.put(key, number, op.value())?;
        Ok(Marks { from: place, marks })
    }

    /// Empties a keyspace by the change of that number, above all that its tree holds; without a tree nothing changes. It
    /// answers marks of the trees as they were. It is refused for want of memory alone, and an `Err` leaves all as it was.
    pub fn clear(&mut self, id: u64, number: u64) -> Result<Marks, AllocError>
        requires before { AreBefore number (forest_of self.old) }
        requires small { number < 2 ^ 63 }
        ensures ok { OnOk result (forest_of self.new ≡ altered_at id (emptied number) (forest_of self.old)) }
        ensures marks { IfOk result (λ marks. AreMarksOfTrees self.new marks × (forest_before marks self.new ≡ forest_of self.old)) }
        ensures err { OnErr result (forest_of self.new ≡ forest_of self.old) }
    {
        let mut marks = Vec::with_capacity(self.alloc, 1)?;
        let Some(place) = place_of(self.trees.as_slice(), id) else {
            return Ok(Marks { from: 0, marks });
        };
        let tree = &mut self.trees[place].tree;
        marks.push_reserved(tree.mark());
        tree.clear(number)?;
        Ok(Marks { from: place, marks })
    }

    // A mark of each tree.
    fn all_marks(&self) -> Result<Marks, AllocError>
        ensures { IfOk result (λ marks. AreMarksOfAll self.now marks × (forest_before marks self.now ≡ forest_of self.now)) }
    {
        let trees = self.trees.as_slice();
        let mut marks = Vec::with_capacity(self.alloc, trees.len())?;
        for planted in trees {
            marks.push(planted.tree.mark())?;
        }
        Ok(Marks { from: 0, marks })
    }

    // Puts each item, the last one first; where one is refused, those behind it are made. Items that follow one another
    // mostly are of one keyspace, so that each is looked for where the last one was.
    fn push_all(&mut self, items: &[BatchItem], number: u64) -> Result<(), AllocError>
        requires { MayPush number items.now (forest_of self.old) }
        ensures ok { OnOk result (forest_of self.new ≡ pushed number items.now (forest_of self.old)) }
        ensures marks { KeepAllMarks self.old self.new }
    {
        let mut rest = items;
        let mut place = 0;
        while let Some((item, before)) = rest.split_last() {
            let (id, key, op) = item;
            place = self.put_near(place, *id, key.as_slice(), number, op.lend().value())?;
            rest = before;
        }
        Ok(())
    }

    /// Makes the trees what they were at these marks. It takes no memory and can't fail, and looks at each version of the
    /// active parts of the trees that have a mark.
    pub fn take_back(&mut self, marks: Marks)
        requires { AreMarksOfTrees self.old marks }
        ensures { forest_of self.new ≡ forest_before marks self.old }
    {
        let Marks { from, marks } = marks;
        for at in 0..marks.len() {
            self.trees[from + at].tree.undo(marks[at]);
        }
    }
}
