//! How a transaction stands whose rollback is asked for, and that it waits for nothing.

ghost use Rattle.std.specs.Prelude.{◌≡◌, ◌≤◌, ◌^◌, ◌<◌, IfErr, IfOk, None, OnOk, Some};
ghost use Rattle.sd_base.specs.declared.ids.TxnId.{TxnId};
ghost use Rattle.sd_base.specs.declared.place.Status.TheVariants as S;
ghost use Rattle.sd_base.specs.Waits.{with_wait};
ghost use Rattle.sd_reclock.specs.Locks.{waits};
ghost use Rattle.sd_state.specs.Complexes.{parts};
ghost use Rattle.sd_state.specs.Parts.{status_at, txns_at, IsShape};
ghost use Rattle.sd_state.specs.Working.{with_locks};
ghost use Rattle.sd_txn.specs.Transactions.{state_at};
ghost use Rattle.sd_ops.specs.Rolling.{IsOut};

use sd_base::{Refusal, Status, TxnId};
use sd_state::Complex;
use sd_txn::TxnState;

/// How the transaction stands: `NoTxn` where it isn't known, else `Down` where its instance isn't up.
pub fn standing<G>(c: &Complex<G>, t: &TxnId) -> Result<TxnState, Refusal>
    requires { IsShape (parts c.now) }
    ensures stands { IfOk result (λ state. state_at (txns_at (parts c.now) t.now.inst) t.now ≡ Some state) }
    ensures up { OnOk result (status_at (parts c.now) t.now.inst ≡ S.Up) }
    ensures out { IfErr result (IsOut t.now (parts c.now)) }
{
    let Some(state) = c.txns(t.inst).state(t) else {
        return Err(Refusal::NoTxn);
    };
    if c.status(t.inst) != Status::Up {
        return Err(Refusal::Down);
    }
    Ok(state)
}

/// The transaction waits for nothing from now on. It takes no memory.
pub fn calm<G>(c: &mut Complex<G>, t: &TxnId)
    ensures rest { parts c.new ≡ with_locks (parts c.new).locks (parts c.old) }
    ensures locks { (parts c.new).locks.locks ≡ (parts c.old).locks.locks }
    ensures waits { (u : TxnId) → waits (parts c.new).locks u ≡ with_wait t.now None (waits (parts c.old).locks) u }
    ensures rig { c.new.rig ≡ c.old.rig }
{
    c.locks.calm(t);
}
