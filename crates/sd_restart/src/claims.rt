//! The locks of those who are left open: one on each record that they changed.

ghost use Rattle.std.specs.Prelude.{◌≡◌, ◌≢◌, ◌&&◌, [], IfOk, None, OnOk, true};
ghost use Rattle.sd_base.specs.declared.ids.Rid.{Rid};
ghost use Rattle.sd_base.specs.declared.ids.TxnId.{TxnId};
ghost use Rattle.sd_base.specs.Ids.{same_txn};
ghost use Rattle.sd_recovered.specs.Losers.{AreLosers, IsLoser};
ghost use Rattle.sd_log.specs.Logs.{flats};
ghost use Rattle.sd_logrec.specs.View.{flat};
ghost use Rattle.sd_logrec.specs.View.Kind.{Update};
ghost use Rattle.sd_reclock.specs.Locks.{held};
ghost use Rattle.sd_recovered.specs.UndoPass.{AreLosersOf};
ghost use Rattle.sd_state.specs.Values.{rid_of as changed_by};
ghost use Rattle.sd_restart.specs.Claims.{AreApart, LosersAreApart, claimed, has_in, is_listed, opens_in};

use sd_base::{Memory, Mode, Rid};
use sd_log::{Placed, ReadLog};
use sd_logrec::Record;
use sd_reclock::RecordLocks;
use sd_recovered::{Loser, Losers};
use std::alloc::Global;

/// An exclusive lock of each loser on each record that it has open; nobody waits.
pub fn claims_of(alloc: Global, logs: &[ReadLog], losers: &[Losers]) -> Result<RecordLocks, Memory>
    requires losers { AreLosersOf logs.now losers.now }
    requires apart { AreApart logs.now }
    ensures held { IfOk result (λ locks. (t : TxnId) (r : Rid) → held locks t r ≡ claimed (has_in logs.now t r) None) }
    ensures unwaited { IfOk result (λ locks. locks.waiting ≡ []) }
{
    let mut locks = RecordLocks::new(alloc);
    for (i, log) in logs.iter().enumerate() {
        claim_all(&mut locks, log.scan(), &losers[i])?;
    }
    Ok(locks)
}

// The locks of the losers of one log, where nobody else has one on what they have open.
fn claim_all(locks: &mut RecordLocks, log: &[Placed], losers: &Losers) -> Result<(), Memory>
    requires losers { AreLosers log.now losers.now }
    requires apart { LosersAreApart (flats log.now) losers.now }
    requires free { (t u : TxnId) (r : Rid) → is_listed losers.now t ≡ true → opens_in (flats log.now) t r ≡ true → u ≢ t
        → held locks.old u r ≡ None }
    ensures claimed { OnOk result ((t : TxnId) (r : Rid) → held locks.new t r
        ≡ claimed (is_listed losers.now t && opens_in (flats log.now) t r) (held locks.old t r)) }
    ensures waits { locks.new.waiting ≡ locks.old.waiting }
{
    for loser in losers.items() {
        claim(locks, log, loser)?;
    }
    Ok(())
}

// The locks of one of them.
fn claim(locks: &mut RecordLocks, log: &[Placed], loser: &Loser) -> Result<(), Memory>
    requires loser { IsLoser log.now loser.now }
    requires free { (u : TxnId) (r : Rid) → opens_in (flats log.now) loser.now.txn r ≡ true → u ≢ loser.now.txn
        → held locks.old u r ≡ None }
    ensures claimed { OnOk result ((t : TxnId) (r : Rid) → held locks.new t r
        ≡ claimed (same_txn loser.now.txn t && opens_in (flats log.now) loser.now.txn r) (held locks.old t r)) }
    ensures waits { locks.new.waiting ≡ locks.old.waiting }
{
    for at in loser.open.items() {
        locks.grant(&loser.txn, &rid_of(&log[*at].rec), Mode::Excl)?;
    }
    Ok(())
}

// The record that an update changed.
fn rid_of(update: &Record) -> Rid
    requires { (flat update.now).kind ≡ Update }
    ensures { result ≡ changed_by (flat update.now) }
{
    match update {
        Record::Update { page, slot, .. } => Rid {
            page: *page,
            slot: *slot,
        },
        _ => unreachable!(),
    }
}
