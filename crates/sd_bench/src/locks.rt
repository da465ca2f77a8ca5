//! Requests and releases of record locks.

ghost use Rattle.std.specs.Prelude.{◌<◌};

use sd_base::{InstNo, Memory, Mode, PageNo, Refusal, Rid, TxnId};
use sd_reclock::RecordLocks;
use std::alloc::Global;

const RECORDS: u32 = 1000;

const TXNS: u32 = 64;

/// Asks so many times for an exclusive lock: 64 transactions in turn, over 1,000 records in turn. Each transaction lets
/// go of its locks after each eighth of its requests. `false` where there was no memory.
pub fn requests(alloc: Global, times: u32) -> bool {
    let mut locks = RecordLocks::new(alloc);
    for n in 0..times {
        let (Some(txn), Some(rid)) = (txn_of(n % TXNS + 1), rid_of(n)) else {
            return false;
        };
        if request(&mut locks, &txn, &rid).is_err() {
            return false;
        }
        if n / TXNS % 8 == 7 {
            locks.release_all(&txn);
        }
    }
    true
}

/// Asks so many times for an exclusive lock of one that waits for nobody. For the asker a first one waits, for that one a
/// second one, and so on: so many in all. `false` where there was no memory.
pub fn requests_beside(alloc: Global, waiters: u32, times: u32) -> bool
    requires { waiters < 512 }
{
    let mut locks = RecordLocks::new(alloc);
    is_chained(&mut locks, waiters) && are_done(&mut locks, 0, waiters + 1, times)
}

/// So many times, a transaction asks for two exclusive locks and lets go of both, beside 64 others that hold a lock each.
/// `false` where there was no memory.
pub fn pairs(alloc: Global, times: u32) -> bool {
    let mut locks = RecordLocks::new(alloc);
    for n in 0..TXNS {
        if !are_done(&mut locks, n, n, 1) {
            return false;
        }
    }
    for n in 0..times {
        if !is_paired(&mut locks, n) {
            return false;
        }
    }
    true
}

// Takes two locks of records that nobody holds, and releases them.
fn is_paired(locks: &mut RecordLocks, n: u32) -> bool {
    let seq = TXNS + 1 + n % TXNS;
    let (Some(txn), Some(low), Some(high)) = (txn_of(seq), rid_of(TXNS + n % 512), rid_of(999))
    else {
        return false;
    };
    let done = request(locks, &txn, &low).is_ok() && request(locks, &txn, &high).is_ok();
    locks.release_all(&txn);
    done
}

// Gives each of the transactions, and the one behind the last waiter, its own record; then each of the waiters, from
// the last on, waits for the record of the one before.
fn is_chained(locks: &mut RecordLocks, waiters: u32) -> bool
    requires { waiters < 512 }
{
    for n in 0..waiters + 2 {
        if !are_done(locks, n, n, 1) {
            return false;
        }
    }
    for n in (0..waiters).rev() {
        if !are_done(locks, n + 1, n, 1) {
            return false;
        }
    }
    true
}

// Asks so many times for the record of the second for the first.
fn are_done(locks: &mut RecordLocks, asker: u32, owner: u32, times: u32) -> bool
    requires { asker < 514 }
{
    let (Some(txn), Some(rid)) = (txn_of(asker + 1), rid_of(owner)) else {
        return false;
    };
    for _ in 0..times {
        if request(locks, &txn, &rid).is_err() {
            return false;
        }
    }
    true
}

// One request, as a call of the complex makes it: it looks, and then takes the lock or notes the wait.
fn request(locks: &mut RecordLocks, txn: &TxnId, rid: &Rid) -> Result<(), Memory> {
    match locks.look(txn, rid, Mode::Excl) {
        Ok(()) => locks.grant(txn, rid, Mode::Excl)?,
        Err(Refusal::Blocked { by: _ }) => return locks.wait(txn, rid, Mode::Excl),
        Err(Refusal::Memory) => return Err(Memory),
        Err(_) => {}
    }
    locks.calm(txn);
    Ok(())
}

fn txn_of(seq: u32) -> Option<TxnId> {
    let inst = InstNo::new(1)?;
    Some(TxnId {
        inst,
        epoch: 1,
        seq,
    })
}

fn rid_of(n: u32) -> Option<Rid> {
    let page = PageNo::new((n % RECORDS) as u16)?;
    Some(Rid { page, slot: 0 })
}
