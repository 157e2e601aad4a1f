//! Where a key and its value stand.

ghost use Rattle.std.specs.Prelude.{◌≡◌, nat_le};

/// Where a key and, right behind it, its value stand in a memtable's text.
#[derive(Clone, Copy, Debug)]
pub struct Place {
    pub(crate) at: usize,
    pub(crate) value_len: u32,
    pub(crate) key_len: u16,
    pub(crate) is_value: bool,
}

impl Place {
    ghost use Rattle.fjall_memtable.specs.Places.{end_of};

    /// Whether it ends at a mark at the latest.
    pub(crate) fn ends_by(&self, mark: usize) -> bool
        ensures { result ≡ nat_le (end_of self.now) mark }
    {
        self.at <= mark && self.key_len as usize + self.value_len as usize <= mark - self.at
    }
}
