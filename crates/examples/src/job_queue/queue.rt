//! The queue: jobs that wait and jobs that are claimed, each in a keyspace under ascending numbers.

use fjall::{
    Error, OptimisticTxDatabase, OptimisticTxKeyspace, OptimisticWriteTx, Readable, Result, Slice,
    StorageError, UserKey,
};
use std::sync::Wait;

/// Jobs that workers share: each waits, then a worker claims it, and then it is finished, and is gone.
#[derive(Drop)]
pub struct Queue {
    pub db: OptimisticTxDatabase,
    pub waiting: OptimisticTxKeyspace,
    pub claimed: OptimisticTxKeyspace,
    pub numbers: OptimisticTxKeyspace,
}

/// The number that eight bytes are, the highest first: so keys ascend as the numbers do.
pub fn read_number(bytes: &Slice) -> Result<u64> {
    let bytes = <[u8; 8]>::try_from(bytes.as_slice()).ok();
    Ok(u64::from_be_bytes(bytes.ok_or(StorageError::RecordDamaged)?))
}

impl Queue {
    /// Adds a job behind all others, and answers its number.
    pub fn enqueue<R: Wait>(&self, rt: &R, text: &str) -> Result<u64> {
        for _ in rt.forever() {
            let mut transaction = self.db.write_tx(rt)?;
            let last = match transaction.at(rt).get(&self.numbers, b"last")? {
                Some(bytes) => read_number(&bytes)?,
                None => 0,
            };
            let number = last.checked_add(1).ok_or(Error::NumbersUsedUp)?;
            let key = number.to_be_bytes();
            transaction.insert(&self.numbers, b"last", &key)?;
            transaction.insert(&self.waiting, &key, text.as_bytes())?;
            if transaction.try_commit(rt)? {
                return Ok(number);
            }
        }
        unreachable!()
    }

    /// Claims the first job that waits, and answers its key. The commit conflicts with all that changes meanwhile which jobs wait.
    pub fn claim<R: Wait>(&self, rt: &R, claim: &mut OptimisticWriteTx) -> Result<Option<UserKey>> {
        let Some(first) = claim.at(rt).first_key_value(&self.waiting) else {
            return Ok(None);
        };
        let (key, text) = first.into_inner()?;
        claim.remove(&self.waiting, key.as_slice())?;
        claim.insert(&self.claimed, key.as_slice(), text.as_slice())?;
        Ok(Some(key))
    }

    /// Claims and finishes jobs until none waits, and answers how many it finished. A claim that conflicts is made anew.
    pub fn work_off<R: Wait>(&self, rt: &R) -> Result<u64> {
        let mut finished: u64 = 0;
        for _ in rt.forever() {
            let mut claim = self.db.write_tx(rt)?;
            let claimed = self.claim(rt, &mut claim)?;
            if claim.try_commit(rt)? {
                let Some(key) = claimed else { break };
                self.claimed.remove(rt, key.as_slice())?;
                finished = finished.saturating_add(1);
            }
        }
        Ok(finished)
    }
}
