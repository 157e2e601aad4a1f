//! What a folder holds, keyspace by keyspace.

ghost use Rattle.std.specs.Prelude.{◌≡◌, ◌++◌, ◌∷◌, [], List, IfOk, IsOkUnless};
ghost use Rattle.std.specs.List.{filter};
ghost use Rattle.fjall_base.specs.Disk.{Image};
ghost use Rattle.fjall_table.specs.declared.table_info.TableInfo.{TableInfo};
ghost use Rattle.fjall_recovery.specs.Folders.{IsFinished};
ghost use Rattle.fjall_inspect.specs.Surveys.{AreCounts, AreSurveysOf, IsSurveyOf, is_at};

use fjall_base::{Error, Result, Slice};
use fjall_manifest::LoadedHome;
use fjall_meta::LivingKeyspace;
use fjall_recovery::RecoveredFolder;
use fjall_table::{Level, TableInfo};
use std::alloc::Global;

/// What a record tells of tables, all together. Each count stops at the greatest `u64`.
#[derive(Clone, Copy, Debug, PartialEq, Eq)]
pub struct TableCounts {
    /// How many tables there are.
    pub tables: u64,
    /// How many entries they have: versions of keys.
    pub entries: u64,
    /// How long their files are, in bytes.
    pub bytes: u64,
}

/// What a folder holds of a keyspace that lives.
#[derive(Debug, Drop)]
pub struct KeyspaceSurvey {
    pub id: u64,
    pub name: Slice,
    /// The number of the change that created it.
    pub number: u64,
    /// The greatest number of a change that its tables hold, so that it need not be replayed.
    pub persisted: Option<u64>,
    /// How many clears its last record tells.
    pub clears: usize,
    /// All of its tables.
    pub tables: TableCounts,
    /// Those as flushes made them.
    pub level_0: TableCounts,
    /// Those as merges made them.
    pub level_1: TableCounts,
}

/// Whether a table is at this level; where none is given, each one is.
fn is_at(table: &TableInfo, level: Option<Level>) -> bool
    ensures { result ≡ is_at level table.now }
{
    match (table.level, level) {
        (_, None) | (Level::L0, Some(Level::L0)) | (Level::L1, Some(Level::L1)) => true,
        _ => false,
    }
}

/// Counts a table too, where it is at this level.
fn counts_with(counts: TableCounts, table: &TableInfo, level: Option<Level>) -> TableCounts
    ensures { (tables : List TableInfo) → AreCounts (filter (is_at level) tables) counts → AreCounts (filter (is_at level) (tables ++ table.now ∷ [])) result }
{
    if !is_at(table, level) {
        return counts;
    }
    TableCounts {
        tables: counts.tables.saturating_add(1),
        entries: counts.entries.saturating_add(table.entry_count),
        bytes: counts.bytes.saturating_add(table.file_len),
    }
}

/// Counts those of these tables that are at this level.
fn count_at(tables: &[TableInfo], level: Option<Level>) -> TableCounts
    ensures { AreCounts (filter (is_at level) tables.now) result }
{
    let mut counts = TableCounts {
        tables: 0,
        entries: 0,
        bytes: 0,
    };
    for table in tables {
        counts = counts_with(counts, table, level);
    }
    counts
}

/// What a keyspace's home holds. It allocates a copy of the name.
fn survey_of(keyspace: &LivingKeyspace, home: &LoadedHome) -> Result<KeyspaceSurvey>
    ensures survey { IfOk result (IsSurveyOf keyspace.now home.now) }
    ensures only { IsOkUnless result Error.OutOfMemory }
{
    let record = &home.record;
    Ok(KeyspaceSurvey {
        id: keyspace.id,
        name: keyspace.name.clone()?,
        number: keyspace.number,
        persisted: record.persisted,
        clears: record.clears.len(),
        tables: count_at(&record.tables, None),
        level_0: count_at(&record.tables, Some(Level::L0)),
        level_1: count_at(&record.tables, Some(Level::L1)),
    })
}

/// What each keyspace that lives has in a folder that was read, by id ascending. It refuses for want of memory alone.
pub fn survey(alloc: Global, folder: &RecoveredFolder) -> Result<Vec<KeyspaceSurvey>>
    ensures surveys { (image : Image) → IsFinished image folder.now
        → IfOk result (λ surveys. AreSurveysOf folder.now.catalog.keyspaces.living folder.now.homes.items surveys.items) }
    ensures only { IsOkUnless result Error.OutOfMemory }
{
    let living = folder.catalog.keyspaces.living();
    let homes = folder.homes.as_slice();
    let count = living.len().min(homes.len());
    let mut surveys = Vec::new(alloc);
    for place in 0..count {
        let one = survey_of(&living[place], &homes[place])?;
        surveys.push(one)?;
    }
    Ok(surveys)
}
