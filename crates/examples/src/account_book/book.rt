//! The account book: a keyspace of balances by name, which transactions alone change.

ghost use Rattle.std.specs.Prelude.{◌≡◌, ◌+◌, ◌^◌, ◌<◌, ◌≤◌, Err, IfOk, IsOk};

use fjall::{
    OptimisticTxDatabase, OptimisticTxKeyspace, OptimisticWriteTx, Readable, Result, StorageError,
};
use std::result;
use std::sync::Wait;

/// How often a transfer is tried before it is given up.
const TRIES: u32 = 5;

/// What came of a transfer. Unless it is entered nothing has changed.
#[derive(Clone, Copy, Debug, PartialEq, Eq)]
pub enum Outcome {
    Entered,
    NoAccount,
    SameAccount,
    NotEnough,
    TooMuch,
    Conflicted,
}

/// Accounts by name, each with what it holds: eight bytes, the highest first.
#[derive(Drop)]
pub struct Book {
    pub db: OptimisticTxDatabase,
    pub accounts: OptimisticTxKeyspace,
}

// What two accounts hold after an amount went from the first to the second: as much together as before.
fn moved(from: u64, to: u64, amount: u64) -> result::Result<(u64, u64), Outcome>
    ensures together { IfOk result (λ after. after.0 + after.1 ≡ from + to) }
    ensures moves { amount ≤ from → to + amount < 2 ^ 64 → IsOk result }
    ensures not_enough { from < amount → result ≡ Err Outcome.NotEnough }
{
    let left = from.checked_sub(amount).ok_or(Outcome::NotEnough)?;
    let raised = to.checked_add(amount).ok_or(Outcome::TooMuch)?;
    Ok((left, raised))
}

impl Book {
    /// What an account holds for a reader, where it is in the book.
    pub fn balance<T: Readable>(&self, reader: &mut T, name: &str) -> Result<Option<u64>> {
        let Some(value) = reader.get(&self.accounts, name.as_bytes())? else {
            return Ok(None);
        };
        let bytes = <[u8; 8]>::try_from(value.as_slice()).ok();
        Ok(Some(u64::from_be_bytes(bytes.ok_or(StorageError::RecordDamaged)?)))
    }

    /// Moves an amount from one account to another one, wholly or not at all; anew where the transaction conflicts.
    pub fn transfer<R: Wait>(&self, rt: &R, from: &str, to: &str, amount: u64) -> Result<Outcome> {
        for _ in 0..TRIES {
            let mut entry = self.db.write_tx(rt)?;
            let outcome = self.transfer_within(rt, &mut entry, from, to, amount)?;
            if entry.try_commit(rt)? {
                return Ok(outcome);
            }
        }
        Ok(Outcome::Conflicted)
    }

    /// Makes a transfer within a transaction. Its commit conflicts where another one wrote meanwhile what this one reads.
    pub fn transfer_within<R: Wait>(
        &self,
        rt: &R,
        entry: &mut OptimisticWriteTx,
        from: &str,
        to: &str,
        amount: u64,
    ) -> Result<Outcome> {
        let payer = self.balance(&mut entry.at(rt), from)?;
        let payee = self.balance(&mut entry.at(rt), to)?;
        let (Some(payer), Some(payee)) = (payer, payee) else {
            return Ok(Outcome::NoAccount);
        };
        let (left, raised) = match moved(payer, payee, amount) {
            _ if from == to => return Ok(Outcome::SameAccount),
            Ok(after) => after,
            Err(outcome) => return Ok(outcome),
        };
        entry.insert(&self.accounts, from.as_bytes(), &left.to_be_bytes())?;
        entry.insert(&self.accounts, to.as_bytes(), &raised.to_be_bytes())?;
        Ok(Outcome::Entered)
    }
}
