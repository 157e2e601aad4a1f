//! Transactions that are open in a list of calls.

use fjall_core::Transaction;

/// A transaction that is open in a list, under the place of the call that began it.
#[derive(Drop)]
pub struct Named {
    pub place: u64,
    pub transaction: Transaction,
}
