//! What holds of entries to which one more is added.

ghost use Rattle.std.specs.Prelude.{◌≡◌, ◌≢◌, ◌<◌, ◌≤◌, ◌∷◌, ℕ, List};
ghost use Rattle.std.specs.List.{All};
ghost use Rattle.fjall_table.specs.Blocks.{Entry};
ghost use Rattle.fjall_table.specs.Tables.{versions_at};
ghost use Rattle.fjall_memtable.specs.Entries.{inserted};

/// An entry whose number is above all others of its key stands first among the key's versions, at any instant above it.
pub fn newest_stands_first()
    ensures { (e : Entry) (entries : List Entry) (instant : ℕ) → All (λ x. x.key ≡ e.key → x.number < e.number) entries → e.number < instant
        → versions_at e.key instant (inserted e entries) ≡ e ∷ versions_at e.key instant entries }
{}

/// An entry changes no version of another key, and none at an instant up to its number.
pub fn other_versions_stay()
    ensures keys { (e : Entry) (entries : List Entry) (key : List ℕ) (instant : ℕ) → e.key ≢ key
        → versions_at key instant (inserted e entries) ≡ versions_at key instant entries }
    ensures instants { (e : Entry) (entries : List Entry) (key : List ℕ) (instant : ℕ) → instant ≤ e.number
        → versions_at key instant (inserted e entries) ≡ versions_at key instant entries }
{}
