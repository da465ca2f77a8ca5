//! Who may work, and who waits for which lock.

ghost use Rattle.std.specs.Prelude.{◌≡◌, ◌≤◌, Err, Some, None, IfErr, OnErr, OnOk};
ghost use Rattle.sd_base.specs.declared.place.Status.TheVariants as S;
ghost use Rattle.sd_base.specs.declared.refusal.Refusal.TheVariants as R;
ghost use Rattle.sd_reclock.specs.Answers.{IsFree, IsRefused};
ghost use Rattle.sd_reclock.specs.Locks.{stands, wait_for, waits};
ghost use Rattle.sd_state.specs.Complexes.{parts};
ghost use Rattle.sd_state.specs.Parts.{IsShape, status_at, txns_at};
ghost use Rattle.sd_txn.specs.Transactions.{state_at};
ghost use Rattle.sd_txn.specs.declared.state.TxnState.TheVariants.{Running};
ghost use Rattle.sd_ops.specs.Halves.{EndsWait, IsOff, NotesWait, refusal_of};

use sd_base::{Mode, Refusal, Rid, Status, TxnId};
use sd_state::Complex;
use sd_txn::TxnState;

/// Whether the transaction runs on an instance that is up: `NoTxn` where it isn't known, else `Down` where its instance isn't up,
/// else `Busy` where it rolls back.
pub fn at_work<G>(c: &Complex<G>, t: &TxnId) -> Result<(), Refusal>
    requires { IsShape (parts c.now) }
    ensures low { 1 ≤ t.now.inst }
    ensures high { t.now.inst ≤ 8 }
    ensures runs { OnOk result (state_at (txns_at (parts c.now) t.now.inst) t.now ≡ Some Running) }
    ensures up { OnOk result (status_at (parts c.now) t.now.inst ≡ S.Up) }
    ensures off { IfErr result (IsOff t.now (parts c.now)) }
{
    t.inst.keeps();
    let Some(state) = c.txns(t.inst).state(t) else {
        return Err(Refusal::NoTxn);
    };
    if c.status(t.inst) != Status::Up {
        return Err(Refusal::Down);
    }
    match state {
        TxnState::Running => Ok(()),
        _ => Err(Refusal::Busy { by: *t }),
    }
}

/// Asks whether the transaction may have the lock, which isn't given by this. A blocked one waits for it from now on; else nothing
/// changes.
pub fn ask<G>(c: &mut Complex<G>, t: &TxnId, r: &Rid, mode: Mode) -> Result<(), Refusal>
    ensures free { OnOk result (IsFree (stands (parts c.old).locks) t.now (wait_for r.now mode)) }
    ensures same { OnOk result (parts c.new ≡ parts c.old) }
    ensures refused { IfErr result (IsRefused (stands (parts c.old).locks) (waits (parts c.old).locks) t.now (wait_for r.now mode)) }
    ensures noted { IfErr result (λ n. NotesWait t.now (wait_for r.now mode) n (parts c.old) (parts c.new)) }
    ensures rig { c.new.rig ≡ c.old.rig }
{
    let looked = c.locks.look(t, r, mode);
    if let Err(Refusal::Blocked { .. }) = looked {
        c.locks.wait(t, r, mode)?;
    }
    looked
}

/// Ends the transaction's wait, unless its call is blocked or wants memory. It takes no memory.
pub fn end_wait<G, T>(c: &mut Complex<G>, t: &TxnId, done: &Result<T, Refusal>)
    ensures ended { EndsWait t.now (refusal_of done.now) (parts c.old) (parts c.new) }
    ensures rig { c.new.rig ≡ c.old.rig }
{
    match done {
        Err(Refusal::Memory | Refusal::Blocked { .. }) => {}
        _ => c.locks.calm(t),
    }
}

/// Refuses a call of a transaction, and ends its wait, unless the call is blocked or wants memory. It takes no memory.
pub fn refuse<G>(c: &mut Complex<G>, t: &TxnId, refusal: Refusal) -> Result<(), Refusal>
    ensures refused { result ≡ Err refusal }
    ensures ended { EndsWait t.now (Some refusal) (parts c.old) (parts c.new) }
    ensures rig { c.new.rig ≡ c.old.rig }
{
    let refused = Err(refusal);
    end_wait(c, t, &refused);
    refused
}
