//! How many bytes all write buffers have.

ghost use Rattle.std.specs.Prelude.{◌≡◌, ◌+◌, ◌-◌, ◌^◌, min};

use std::marker::Model;

/// Counts the bytes of all write buffers.
#[derive(Debug, Drop)]
pub struct WriteBufferManager {
    bytes: u64,
}

impl Model for WriteBufferManager {
    ghost use Rattle.std.specs.Prelude.{ℕ};

    ghost Value = { ℕ };

    ghost view = { λ m. m.bytes };

    ghost inverse = { λ bytes. record { bytes = bytes } };
}

impl WriteBufferManager {
    /// The count of buffers that have no byte yet.
    pub fn new() -> WriteBufferManager
        ensures { result ≡ 0 }
    {
        WriteBufferManager { bytes: 0 }
    }

    /// How many bytes they have.
    pub fn get(&self) -> u64
        ensures { result ≡ self.now }
    {
        self.bytes
    }

    /// They have `n` bytes more. The count stops at the greatest `u64`. It answers the new count.
    pub fn allocate(&mut self, n: u64) -> u64
        ensures counted { self.new ≡ min (self.old + n) (2 ^ 64 - 1) }
        ensures value { result ≡ self.new }
    {
        self.bytes = self.bytes.saturating_add(n);
        self.bytes
    }

    /// They have `n` bytes less. The count stops at 0. It answers the new count.
    pub fn free(&mut self, n: u64) -> u64
        ensures counted { self.new ≡ self.old - n }
        ensures value { result ≡ self.new }
    {
        self.bytes = self.bytes.saturating_sub(n);
        self.bytes
    }
}

impl Default for WriteBufferManager {
    ghost is_default = { λ m. m ≡ 0 };

    fn default() -> WriteBufferManager {
        WriteBufferManager::new()
    }
}
