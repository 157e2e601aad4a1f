//! How the tables of a keyspace are merged.

ghost use Rattle.std.specs.Prelude.{◌≡◌, ◌<◌, length, IfOk, IfErr};
ghost use Rattle.fjall_base.specs.declared.error.Error.TheVariants.{OutOfMemory};
ghost use Rattle.fjall_options.specs.Options.{default_strategy};

use crate::options::policy::Policy;
use fjall_base::Result;
use std::alloc::Global;
use std::marker::Model;

/// Merges by levels, the one strategy that there is.
#[derive(Drop)]
pub struct Leveled {
    pub(crate) l0_threshold: u8,
    pub(crate) target_size: u64,
    pub(crate) level_ratios: Policy<u32>,
}

/// Another spelling.
pub type Levelled = Leveled;

impl Model for Leveled {
    ghost use Rattle.std.specs.Prelude.{◌<◌};
    ghost use Rattle.fjall_options.specs.Options.{Strategy};

    ghost Value = { Strategy };

    ghost view = { λ a. record { l0_threshold = a.l0_threshold; target_size = a.target_size; level_ratios = a.level_ratios } };

    ghost invariant = { λ a. (0 < a.l0_threshold) × (0 < a.target_size) };
}

impl Leveled {
    /// A merge from 4 tables at level 0 on, tables of 67,108,864 bytes, each level ten times as large
    /// as the one above. It allocates, and fails where memory is used up.
    pub fn default(alloc: Global) -> Result<Leveled>
        ensures ok { IfOk result (λ strategy. strategy ≡ default_strategy) }
        ensures only { IfErr result (λ e. e ≡ OutOfMemory) }
    {
        Ok(Leveled {
            l0_threshold: 4,
            target_size: 64 * 1024 * 1024,
            level_ratios: Policy::all(alloc, 10_000_000)?,
        })
    }

    /// Starts a merge where so many tables, at least 1, stand at level 0.
    pub fn with_l0_threshold(mut self, threshold: u8) -> Leveled
        requires { 0 < threshold }
        ensures { result ≡ record self { l0_threshold = threshold } }
    {
        self.l0_threshold = threshold;
        self
    }

    /// Aims at tables of so many bytes, at least 1.
    pub fn with_table_target_size(mut self, bytes: u64) -> Leveled
        requires { 0 < bytes }
        ensures { result ≡ record self { target_size = bytes } }
    {
        self.target_size = bytes;
        self
    }

    /// How much larger each level is than the one above, in millionths, from 1 to 255 of them. Kept
    /// without effect. It allocates, and fails where memory is used up.
    pub fn with_level_ratio_policy(mut self, alloc: Global, ratios: &[u32]) -> Result<Leveled>
        requires some { 0 < length ratios.now }
        requires few { length ratios.now < 256 }
        ensures ok { IfOk result (λ strategy. strategy ≡ record self { level_ratios = ratios.now }) }
        ensures only { IfErr result (λ e. e ≡ OutOfMemory) }
    {
        self.level_ratios = Policy::new(alloc, ratios)?;
        Ok(self)
    }
}
