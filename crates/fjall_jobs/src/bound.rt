//! What clears hide.

ghost use Rattle.std.specs.Prelude.{◌≡◌, max, nat_lt, if◌then◌else◌};
ghost use Rattle.fjall_memtable.specs.SortedPages.{barrier};

// The greater of a bound and a clear, where that is below an instant.
fn raised(bound: u64, number: u64, instant: u64) -> u64
    ensures { result ≡ (if nat_lt number instant then max number bound else bound) }
{
    if number < instant {
        return number.max(bound);
    }
    bound
}

/// The greatest of these clears below an instant, or 0 where none is.
pub(crate) fn bound_of(clears: &[u64], instant: u64) -> u64
    ensures { result ≡ barrier instant clears.now }
{
    let mut bound = 0;
    'clears: for number in clears {
        bound = raised(bound, *number, instant);
    }
    bound
}
