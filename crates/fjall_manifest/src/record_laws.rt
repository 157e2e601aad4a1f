//! What holds of the definitions.

ghost use Rattle.std.specs.Prelude.{◌≡◌, ℕ, List, Some, [], ◌∷◌, ◌++◌, length};
ghost use Rattle.std.specs.List.{flat_map, AllByRecursion};
ghost use Rattle.fjall_base.specs.Lists.{last_of};
ghost use Rattle.fjall_manifest.specs.Records.{Fields, IsRecord, IsRecords, HasContradiction, record_text, KeptRecords};

/// A file holds one list of records, with one end.
pub fn one_list_of_records()
    ensures { (bytes : List ℕ) (rs others : List Fields) (end other : ℕ) → IsRecords bytes rs end → IsRecords bytes others other
        → (rs ≡ others) × (end ≡ other) }
{}

/// A file with a contradiction behind its records holds no list of records.
pub fn no_records_with_a_contradiction()
    ensures { (bytes : List ℕ) (rs : List Fields) (end : ℕ) → HasContradiction bytes → IsRecords bytes rs end → ⊥ }
{}

/// The texts of records are records up to their end.
pub fn texts_are_records()
    ensures { (rs : List Fields) → AllByRecursion IsRecord rs → IsRecords (flat_map record_text rs) rs (length (flat_map record_text rs)) }
{}

/// A record appended behind whole records is the last.
pub fn records_grow()
    ensures { (bytes : List ℕ) (rs : List Fields) (r : Fields) → IsRecords bytes rs (length bytes) → IsRecord r
        → IsRecords (bytes ++ record_text r) (rs ++ r ∷ []) (length (bytes ++ record_text r)) × (last_of (rs ++ r ∷ []) ≡ Some r) }
{}

/// Records cut anywhere read as the first of them.
pub fn cut_reads()
    ensures { (rs : List Fields) (bytes lost : List ℕ) → AllByRecursion IsRecord rs → bytes ++ lost ≡ flat_map record_text rs → KeptRecords rs bytes }
{}
