//! Pairs in the making: those that are settled, and the last key, which may get one.

ghost use Rattle.std.specs.Prelude.{◌≡◌, [], None, Some, length, reverse, OnOk};
ghost use Rattle.std.specs.Option.{option_map};
ghost use Rattle.fjall_cursors.specs.Keyed.{key_of, settled};

use crate::front_page::FIRST_PAIRS;
use fjall_base::{KvPair, UserKey, UserValue};
use std::alloc::{AllocError, Global};
use std::marker::Model;
use std::mem;

/// Pairs, and behind them the key that was set last, with its value if it has one. Contracts see the pairs and that key.
#[derive(Drop)]
pub(crate) struct KeyedPairs {
    pairs: Vec<KvPair>,
    last: Option<(UserKey, Option<UserValue>)>,
}

impl Model for KeyedPairs {
    ghost use Rattle.fjall_cursors.specs.Keyed.{Keyed};

    ghost Value = { Keyed };

    ghost view = { λ k. record { before = k.pairs.items; last = k.last } };
}

impl KeyedPairs {
    /// No pairs, and no key. It takes no memory.
    pub fn new(alloc: Global) -> KeyedPairs
        ensures before { result.before ≡ [] }
        ensures last { result.last ≡ None }
    {
        KeyedPairs {
            pairs: Vec::new(alloc),
            last: None,
        }
    }

    /// How many pairs stand before the last key.
    pub fn count_before(&self) -> usize
        ensures { result ≡ length self.now.before }
    {
        self.pairs.len()
    }

    /// The last key, if there is one.
    #[inline(always)]
    pub fn last_key(&self) -> Option<&[u8]>
        ensures { option_map (λ key. key.now) result ≡ key_of self.now.last }
    {
        match &self.last {
            Some((key, _)) => Some(key.as_slice()),
            None => None,
        }
    }

    /// Settles the last key: its pair is one of the pairs, if it has one, and it is the last key no more.
    #[inline(always)]
    pub fn settle(&mut self) -> Result<(), AllocError>
        ensures { OnOk result (self.new ≡ settled self.old) }
    {
        let Some(last) = mem::replace(&mut self.last, None) else {
            return Ok(());
        };
        let (key, value) = last;
        let Some(value) = value else {
            return Ok(());
        };
        if self.pairs.is_empty() {
            self.pairs.reserve(FIRST_PAIRS)?;
        }
        self.pairs.push((key, value))?;
        Ok(())
    }

    /// Sets the last key, in place of the one that is there, with its value if it has one.
    #[inline(always)]
    pub fn set_last(&mut self, key: UserKey, value: Option<UserValue>)
        ensures before { self.new.before ≡ self.old.before }
        ensures last { self.new.last ≡ Some (key, value) }
    {
        self.last = Some((key, value));
    }

    /// The pairs before the last key, the last one first.
    pub fn finish(self) -> Vec<KvPair>
        ensures { result.items ≡ reverse self.before }
    {
        let KeyedPairs { mut pairs, .. } = self;
        pairs.as_mut_slice().reverse();
        pairs
    }
}
