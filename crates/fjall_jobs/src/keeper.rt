//! What a job keeps of its input, one version after another.

ghost use Rattle.std.specs.Prelude.{◌≡◌, ◌∷◌, List, None, IfOk, OnOk, IsOkUnless, drop, map};
ghost use Rattle.fjall_table.specs.Blocks.{Entry, IsEntry, IsOrdered, seen};
ghost use Rattle.fjall_memtable.specs.Jobs.{is_old_removal};
ghost use Rattle.fjall_memtable.specs.Kept.{is_behind, is_followed, is_kept};
ghost use Rattle.fjall_memtable.specs.Sorted.{flat, sorted};
ghost use Rattle.fjall_jobs.specs.Sequences.{MakesTables};
ghost use Rattle.fjall_jobs.specs.Keeping.{AreSorted, HasLooked, KeepsVersions, before_of, kept_by};

use crate::made_table::MadeTable;
use crate::sequence::TableSequence;
use fjall_base::{Error, Result};
use fjall_cursors::{Run, first_of};
use fjall_table::TableEntry;
use std::alloc::Global;

// Whether the version before, of this key and number, is of the same key.
fn is_behind(key: &[u8], number: Option<u64>, version: &TableEntry<'_>) -> bool
    ensures { result ≡ is_behind (before_of key.now number) (seen version.now) }
{
    match number {
        Some(_) => key == version.key,
        None => false,
    }
}

// Whether the version before is of the same key and numbered up to the watermark.
fn is_followed(key: &[u8], number: Option<u64>, version: &TableEntry<'_>, watermark: u64) -> bool
    ensures { result ≡ is_followed watermark (before_of key.now number) (seen version.now) }
{
    match number {
        Some(number) => key == version.key && number <= watermark,
        None => false,
    }
}

// Whether it is a removal that the watermark reaches.
fn is_old_removal(version: &TableEntry<'_>, watermark: u64) -> bool
    ensures { result ≡ is_old_removal watermark (seen version.now) }
{
    version.value.is_none() && version.number <= watermark
}

/// By which rule a job keeps versions.
#[derive(Clone, Copy)]
pub(crate) struct Rule {
    /// No view up to it is asked for any more.
    pub(crate) watermark: u64,
    /// All that is numbered below it is cleared at the watermark.
    pub(crate) bound: u64,
    /// Whether removals are left out too that the watermark reaches and that are the newest of their key.
    pub(crate) spends: bool,
}

/// Writes what a job keeps of versions that come in order.
#[derive(Drop)]
pub(crate) struct Keeper {
    pub(crate) rule: Rule,
    pub(crate) tables: TableSequence,
    pub(crate) last_key: Vec<u8>,
    /// The number of the version before, whether it was kept or not, under `last_key`.
    pub(crate) last_number: Option<u64>,
}

impl Rule {
    // Whether a version is kept that stands behind one of this key and number.
    fn keeps(&self, key: &[u8], number: Option<u64>, version: &TableEntry<'_>) -> bool
        ensures { result ≡ is_kept self.now.spends self.now.watermark self.now.bound (before_of key.now number) (seen version.now) }
    {
        let cleared = version.number < self.bound;
        let followed = is_followed(key, number, version, self.watermark);
        let removal = is_old_removal(version, self.watermark);
        let behind = is_behind(key, number, version);
        !(cleared || followed) && !(self.spends && (removal && !behind))
    }
}

impl Keeper {
    pub(crate) fn new(alloc: Global, rule: Rule, target: Option<u64>) -> Keeper
        ensures keeps { (versions : List Entry) → IsOrdered (kept_by rule None versions) → KeepsVersions result versions (kept_by rule None versions) }
        ensures target { result.tables.target ≡ target }
    {
        Keeper {
            rule,
            tables: TableSequence::new(alloc, target),
            last_key: Vec::new(alloc),
            last_number: None,
        }
    }

    // Writes the version where it is kept.
    fn write(&mut self, version: &TableEntry<'_>) -> Result<()>
        ensures ok { (rest whole : List Entry) → KeepsVersions self.old (seen version.now ∷ rest) whole → OnOk result (HasLooked self.new (seen version.now) rest whole) }
        ensures target { self.new.tables.target ≡ self.old.tables.target }
        ensures only { (rest whole : List Entry) → IsEntry (seen version.now) → KeepsVersions self.old (seen version.now ∷ rest) whole → IsOkUnless result Error.OutOfMemory }
    {
        let key = self.last_key.as_slice();
        if self.rule.keeps(key, self.last_number, version) {
            return self.tables.write(version);
        }
        Ok(())
    }

    /// Looks at the next version.
    fn take(&mut self, version: &TableEntry<'_>) -> Result<()>
        ensures ok { (rest whole : List Entry) → KeepsVersions self.old (seen version.now ∷ rest) whole → OnOk result (KeepsVersions self.new rest whole) }
        ensures target { self.new.tables.target ≡ self.old.tables.target }
        ensures only { (rest whole : List Entry) → IsEntry (seen version.now) → KeepsVersions self.old (seen version.now ∷ rest) whole → IsOkUnless result Error.OutOfMemory }
    {
        self.write(version)?;
        self.last_key.clear();
        self.last_key.extend_from_slice(version.key)?;
        self.last_number = Some(version.number);
        Ok(())
    }

    /// Takes the first version off a run.
    fn take_from<R: Run>(&mut self, run: &mut R) -> Result<()>
        ensures ok { (v : Entry) (left rest whole : List Entry) → R.left run.old ≡ v ∷ left → KeepsVersions self.old (v ∷ rest) whole → OnOk result (KeepsVersions self.new rest whole) }
        ensures passed { OnOk result (R.left run.new ≡ drop 1 (R.left run.old)) }
        ensures target { self.new.tables.target ≡ self.old.tables.target }
        ensures only { (v : Entry) (left rest whole : List Entry) → R.left run.old ≡ v ∷ left → IsEntry v → KeepsVersions self.old (v ∷ rest) whole → IsOkUnless result Error.OutOfMemory }
    {
        let Some(version) = run.first() else {
            return Ok(());
        };
        self.take(&version)?;
        run.pass();
        Ok(())
    }
}

/// What a rule keeps of the versions of several runs, as tables. Where the runs are in order, no key has two versions of one
/// number in them, and each version is one that a table can hold, it is refused for want of memory alone.
pub(crate) fn keep<R: Run>(
    alloc: Global,
    runs: &mut [R],
    rule: Rule,
    target: Option<u64>,
) -> Result<Vec<MadeTable>>
    ensures made { AreSorted (map R.left runs.old) → IfOk result (λ tables. MakesTables target tables.items (kept_by rule None (sorted (flat (map R.left runs.old))))) }
    ensures only { AreSorted (map R.left runs.old) → IsOkUnless result Error.OutOfMemory }
{
    let mut keeper = Keeper::new(alloc, rule, target);
    'versions: while let Some(at) = first_of(runs, false) {
        keeper.take_from(&mut runs[at])?;
    }
    keeper.tables.finish()
}
