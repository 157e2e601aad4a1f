//! Numbers in decimal, as in names and commands.

ghost use Rattle.std.specs.Prelude.{◌≡◌, ℕ, IfSome, Some, decimal};
ghost use Rattle.fjall_files.specs.Names.{IsNameOf};

/// The number that a word spells: decimal digits with no sign and no leading zero.
pub fn parse_number(word: &str) -> Option<u64>
    ensures spelled { IfSome result (IsNameOf decimal word.now) }
    ensures all_found { (n : ℕ) → IsNameOf decimal word.now n → result ≡ Some n }
{
    let first = *word.as_bytes().first()?;
    if first == b'+' || (first == b'0' && word.len() > 1) {
        return None;
    }
    word.parse().ok()
}
