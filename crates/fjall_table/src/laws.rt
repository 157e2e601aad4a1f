//! What holds of tables.

ghost use Rattle.std.specs.Prelude.{◌≡◌, ℕ, ◌<◌, ◌^◌, List, ◌++◌, length};
ghost use Rattle.fjall_table.specs.Blocks.{Entry, payload_of, block_text, IsBlock};
ghost use Rattle.fjall_table.specs.Tables.{entries_of, handles_of, AreBlocks, IsTable, HasIndex};

/// A table's bytes hold one list of entries.
pub fn one_list_of_entries()
    ensures { (bytes : List ℕ) (es fs : List Entry) → IsTable bytes es → IsTable bytes fs → es ≡ fs }
{}

/// A list of entries has one text: where its blocks end is determined.
pub fn one_text_of_entries()
    ensures { (es : List Entry) (bytes other : List ℕ) → IsTable bytes es → IsTable other es → bytes ≡ other }
{}

/// No block's text begins another's.
pub fn blocks_stand_apart()
    ensures { (vs ws : List Entry) (x y : List ℕ) → IsBlock vs → IsBlock ws → length (payload_of vs) < 2 ^ 64 → length (payload_of ws) < 2 ^ 64
        → block_text vs ++ x ≡ block_text ws ++ y → (vs ≡ ws) × (x ≡ y) }
{}

/// A table ends with the index over its blocks, and a footer that tells how many entries it has.
pub fn tables_have_an_index()
    ensures { (bytes : List ℕ) (es : List Entry) → IsTable bytes es
        → (blocks : List (List Entry)) × AreBlocks blocks × (entries_of blocks ≡ es) × HasIndex bytes (handles_of 0 blocks) (length es) }
{}
