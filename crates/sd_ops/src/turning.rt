//! A rollback begins.

ghost use Rattle.std.specs.Prelude.{◌≡◌, ◌≢◌, Err, IfErr, IfOk, None, OnOk, option_map, Some};
ghost use Rattle.sd_base.specs.declared.place.Status.TheVariants as S;
ghost use Rattle.sd_base.specs.declared.refusal.Refusal.TheVariants as R;
ghost use Rattle.sd_fits.specs.Fits.{Fits};
ghost use Rattle.sd_fits.specs.Serving.{Serving};
ghost use Rattle.sd_model.specs.State.{State, turned};
ghost use Rattle.sd_model.specs.declared.act.Life.{Life};
ghost use Rattle.sd_model.specs.declared.event.Event.TheVariants as event;
ghost use Rattle.sd_state.specs.Complexes.{parts};
ghost use Rattle.sd_state.specs.Good.{Good};
ghost use Rattle.sd_state.specs.Parts.{status_at, txns_at, IsShape};
ghost use Rattle.sd_state.specs.Values.{Pending};
ghost use Rattle.sd_state.specs.Working.{with_txns};
ghost use Rattle.sd_txn.specs.Transactions.{txn_at, with_state, OthersStay};
ghost use Rattle.sd_txn.specs.declared.state.TxnState.TheVariants.{Rolling};
ghost use Rattle.sd_world.specs.Serving.{Core, did, telling};
ghost use Rattle.sd_ops.specs.Leaving.{TableLeaves};
ghost use Rattle.sd_ops.specs.Rolling.{IsGoal, MayRoll, StaysPut};

use crate::rollbacks::{calm, standing};
use sd_base::{Refusal, TxnId, Word};
use sd_rig::Rig;
use sd_state::Complex;
use sd_txn::TxnState;

/// Begins to roll a transaction back: to the mark of this name, or wholly where none is given. From now on it runs no more, and is
/// undone by `undo`. Wholly it may be rolled back again while it rolls back, as one whose rollback has stopped. It takes no memory.
///
/// Refused, the first that applies: `NoTxn`; `Down` where its instance isn't up; with a mark `Busy` where it rolls back, and
/// `NoSavepoint` where it has no mark of that name. Its wait ends, whatever is answered.
pub fn back_to<G: Rig>(c: &mut Complex<G>, t: &TxnId, mark: &Option<Word>) -> Result<(), Refusal>
    requires fits { (w : Core) × Fits (G.seen c.old.rig) (G.leaves c.old.rig) (parts c.old) w }
    ensures served { Serving (telling G.seen G.leaves G.moment G.since G.faults) (event.Back t.now mark.now) (did result) c.old c.new }
    ensures there { result ≢ Err R.Memory }
    ensures rig { c.new.rig ≡ c.old.rig }
    ensures untouched { TableLeaves result (parts c.old) (parts c.new) }
{
    t.keeps();
    match goal_of(c, t, mark) {
        Ok(goal) => {
            turn(c, t, goal);
            calm(c, t);
            Ok(())
        }
        Err(refusal) => {
            calm(c, t);
            Err(refusal)
        }
    }
}

// How many records are open where the rollback is to end: those at the mark, or none where it is whole.
fn goal_of<G>(c: &Complex<G>, t: &TxnId, mark: &Option<Word>) -> Result<Option<usize>, Refusal>
    requires { IsShape (parts c.now) }
    ensures goal { IfOk result (λ to. IsGoal t.now mark.now to (parts c.now)) }
    ensures up { OnOk result (status_at (parts c.now) t.now.inst ≡ S.Up) }
    ensures stays { IfErr result (StaysPut t.now mark.now (parts c.now)) }
{
    let state = standing(c, t)?;
    let Some(name) = mark else {
        return Ok(None);
    };
    match state {
        TxnState::Running => {}
        _ => return Err(Refusal::Busy { by: *t }),
    }
    match c.txns(t.inst).mark(t, name) {
        Some(open) => Ok(Some(open)),
        None => Err(Refusal::NoSavepoint),
    }
}

// The transaction rolls back to this goal from now on.
fn turn<G: Rig>(c: &mut Complex<G>, t: &TxnId, goal: Option<usize>)
    requires good { (m : State) × Good (G.seen c.old.rig) (G.leaves c.old.rig) Pending.Idle (parts c.old) m }
    requires idle { (parts c.old).due ≡ None }
    requires up { status_at (parts c.old) t.now.inst ≡ S.Up }
    requires may { MayRoll t.now goal (parts c.old) }
    ensures good { (m : State) → Good (G.seen c.old.rig) (G.leaves c.old.rig) Pending.Idle (parts c.old) m
        → Good (G.seen c.new.rig) (G.leaves c.new.rig) Pending.Idle (parts c.new) (turned t.now (Life.Rolling goal) m) }
    ensures parts { parts c.new ≡ with_txns t.now.inst (txns_at (parts c.new) t.now.inst) (parts c.old) }
    ensures row { txn_at (txns_at (parts c.new) t.now.inst) t.now
        ≡ option_map (with_state (Rolling goal)) (txn_at (txns_at (parts c.old) t.now.inst) t.now) }
    ensures others { OthersStay (txns_at (parts c.old) t.now.inst) (txns_at (parts c.new) t.now.inst) t.now }
    ensures rig { c.new.rig ≡ c.old.rig }
{
    match goal {
        None => c.roll_back(t),
        Some(open) => c.roll_back_to(t, open),
    }
}
