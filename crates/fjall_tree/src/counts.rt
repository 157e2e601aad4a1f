//! How much several tables hold.

ghost use Rattle.std.specs.Prelude.{◌≡◌, ◌-◌, ◌^◌, min, count_by};
ghost use Rattle.std.specs.List.{sum_by};
ghost use Rattle.fjall_table_reader.specs.Readers.{all_aged, all_unread, kept_sizes, recent_sizes};
ghost use Rattle.fjall_tree.specs.Trees.{is_l0};

use fjall_table::Level;
use fjall_table_reader::TableReader;

pub(crate) fn entries_in(tables: &[TableReader]) -> u64
    ensures { result ≡ min (sum_by (λ t. t.info.entry_count) tables.now) (2 ^ 64 - 1) }
{
    let mut total = 0u64;
    for table in tables {
        total = total.saturating_add(table.info().entry_count);
    }
    total
}

pub(crate) fn bytes_on_disk(tables: &[TableReader]) -> u64
    ensures { result ≡ min (sum_by (λ t. t.info.file_len) tables.now) (2 ^ 64 - 1) }
{
    let mut total = 0u64;
    for table in tables {
        total = total.saturating_add(table.info().file_len);
    }
    total
}

pub(crate) fn bytes_kept(tables: &[TableReader]) -> u64
    ensures { result ≡ min (kept_sizes tables.now) (2 ^ 64 - 1) }
{
    let mut total = 0u64;
    for table in tables {
        total = total.saturating_add(table.kept_bytes());
    }
    total
}

pub(crate) fn bytes_recent(tables: &[TableReader]) -> u64
    ensures { result ≡ min (recent_sizes tables.now) (2 ^ 64 - 1) }
{
    let mut total = 0u64;
    for table in tables {
        total = total.saturating_add(table.recent_bytes());
    }
    total
}

pub(crate) fn count_of_l0(tables: &[TableReader]) -> usize
    ensures { result ≡ count_by (λ t. is_l0 t.info.level) tables.now }
{
    tables
        .iter()
        .filter(|table| table.info().level == Level::L0)
        .count()
}

// Keeps no block of any table.
pub(crate) fn drop_all_blocks(tables: &mut [TableReader])
    ensures { tables.new ≡ all_unread tables.old }
{
    for at in 0..tables.len() {
        tables[at].drop_blocks();
    }
}

// Keeps no older block of any table; the recent ones are older from now on.
pub(crate) fn let_all_older_go(tables: &mut [TableReader])
    ensures { tables.new ≡ all_aged tables.old }
{
    for at in 0..tables.len() {
        tables[at].let_older_go();
    }
}
