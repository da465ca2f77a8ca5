//! An instance falls.

ghost use Rattle.std.specs.Prelude.{◌≡◌, ◌≢◌, ◌⊎◌, ◌+◌, ◌<◌, ℕ, true, None, Some, option_map, IsSome};
ghost use Rattle.sd_base.specs.declared.ids.TxnId.{TxnId};
ghost use Rattle.sd_chain.specs.Records.{home};
ghost use Rattle.sd_model.specs.Refusing.{counted};
ghost use Rattle.sd_model.specs.State.{State, cut_commit, fall};
ghost use Rattle.sd_model.specs.declared.event.Event.TheVariants.{Join};
ghost use Rattle.sd_moves.specs.Falling.{AreCut, AreLost, FallLeaves, HaveFallen, IsFallen, IsLeft, downed, dropped_by, falls_with, fell_at, lost_row, lost_state, owed_dropped, owed_unsettled, with_fallen, with_left};
ghost use Rattle.sd_state.specs.Complexes.{parts};
ghost use Rattle.sd_state.specs.Forcing.{owed_by};
ghost use Rattle.sd_state.specs.Good.{Good};
ghost use Rattle.sd_state.specs.Parts.{is_loose, txns_at, IsShape, Parts};
ghost use Rattle.sd_state.specs.Values.{Pending};
ghost use Rattle.sd_txn.specs.Transactions.{txn_at, with_state, IsUnresolved, OthersStay, SameOrder};
ghost use Rattle.sd_txn.specs.declared.state.TxnState.{TxnState};

use sd_base::{InstNo, Status, TxnId};
use sd_rig::Rig;
use sd_state::Complex;
use sd_txn::{TxnState, TxnTable};
use std::cmp;

/// An instance falls: its pool, its asks, its waits, what moved to it and the checkpoint that it had begun are gone; its
/// transactions that ran or rolled back are losers, whose locks stay; no fall is due any more. It is down, and so is each
/// instance that it was recovering. Where it was up and its log is settled, the tail of that log is dropped; a log of another that
/// went down counts as unsettled, with its tail, until it is read again, and one without a tail stays as it is. A join that was
/// under way has failed. It takes no memory and makes no device call.
pub fn down<G: Rig>(c: &mut Complex<G>, i: InstNo)
    requires good { (pend : Pending) × (m : State) × Good (G.seen c.old.rig) (G.leaves c.old.rig) pend (parts c.old) m }
    requires due { ((parts c.old).due ≡ None)
        ⊎ ((j : ℕ) × ((parts c.old).due ≡ Some (i, j)) × (is_loose (parts c.old) j ≡ true)) }

    ensures good { (m : State) → Good (G.seen c.old.rig) (G.leaves c.old.rig) Pending.Idle (parts c.old) m
        → Good (G.seen c.new.rig) (G.leaves c.new.rig) Pending.Idle (parts c.new) (fall i m) }
    ensures started { (m : State) → Good (G.seen c.old.rig) (G.leaves c.old.rig) (Pending.Starts i) (parts c.old) m
        → Good (G.seen c.new.rig) (G.leaves c.new.rig) Pending.Idle (parts c.new) (fall i (counted (Join i) m)) }
    ensures parts { parts c.new ≡ with_fallen i (parts c.new) (parts c.old) }
    ensures fallen { IsFallen i (parts c.old) (parts c.new) }
    ensures rows { AreLost (txns_at (parts c.old) i) (txns_at (parts c.new) i) }
    ensures rig { c.new.rig ≡ c.old.rig }
{
    fall(c, i);
    lose(&mut c.txns[i.get() as usize - 1]);
}

/// The instance of a transaction whose Commit is under way, and whose force failed, falls: the transaction is in doubt, and all
/// else is as in `down`. It takes no memory and makes no device call.
pub fn cut<G: Rig>(c: &mut Complex<G>, t: &TxnId)
    requires good { (m : State) × Good (G.seen c.old.rig) (G.leaves c.old.rig) (Pending.Commits t.now) (parts c.old) m }
    requires due { ((parts c.old).due ≡ None)
        ⊎ ((j : ℕ) × ((parts c.old).due ≡ Some (home t.now, j)) × (is_loose (parts c.old) j ≡ true)) }

    ensures good { (m : State) → Good (G.seen c.old.rig) (G.leaves c.old.rig) (Pending.Commits t.now) (parts c.old) m
        → Good (G.seen c.new.rig) (G.leaves c.new.rig) Pending.Idle (parts c.new) (cut_commit t.now m) }
    ensures parts { parts c.new ≡ with_fallen (home t.now) (parts c.new) (parts c.old) }
    ensures fallen { IsFallen (home t.now) (parts c.old) (parts c.new) }
    ensures rows { AreCut t.now (txns_at (parts c.old) (home t.now)) (txns_at (parts c.new) (home t.now)) }
    ensures rig { c.new.rig ≡ c.old.rig }
{
    fall(c, t.inst);
    doubt(&mut c.txns[t.inst.get() as usize - 1], t);
}

// All that a fall leaves, but for the rows of the instance's transactions.
fn fall<G>(c: &mut Complex<G>, i: InstNo)
    requires shape { IsShape (parts c.old) }
    ensures parts { FallLeaves i (parts c.old) (parts c.new) }
    ensures rig { c.new.rig ≡ c.old.rig }
{
    let owed = owed_dropped(c, i);
    leave(c, i);
    drop_tail(c, i, owed);
}

// What the log owes without its tail, where that is settled, and the instance is up or there is no tail: the device hasn't the tail.
fn owed_dropped<G>(c: &Complex<G>, i: InstNo) -> Option<u64>
    requires { IsShape (parts c.now) }
    ensures { result ≡ owed_dropped i (parts c.now) }
{
    let at = i.get() as usize - 1;
    if c.loose[at + 1] {
        return None;
    }
    if c.statuses[at].is_up() || !c.logs[at].has_tail() {
        Some(c.owed[at])
    } else {
        None
    }
}

// The log of the instance is settled without its tail, where it may be dropped, and owes so many records.
fn drop_tail<G>(c: &mut Complex<G>, i: InstNo, owed: Option<u64>)
    requires { IsShape (parts c.old) }
    ensures parts { parts c.new ≡ dropped_by i owed (parts c.old) }
    ensures rig { c.new.rig ≡ c.old.rig }
{
    let at = i.get() as usize - 1;
    if let Some(owed) = owed {
        c.logs[at].drop_tail();
        c.owed[at] = owed;
        c.loose[at + 1] = false;
    }
}

// The same while the log of the instance has its tail: it counts as unsettled, and so does that of each other one that goes down with a
// tail.
fn leave<G>(c: &mut Complex<G>, i: InstNo)
    requires shape { IsShape (parts c.old) }
    ensures parts { parts c.new ≡ with_left i (parts c.new) (parts c.old) }
    ensures left { IsLeft i (parts c.old) (parts c.new) }
    ensures rig { c.new.rig ≡ c.old.rig }
{
    fall_with(c, i);
    let at = i.get() as usize - 1;
    c.pools[at].clear();
    c.checks[at] = None;
    c.directory.fall(i);
    c.locks.retain(i);
    c.due = None;
}

// The instance is down, and each that it was recovering.
fn fall_with<G>(c: &mut Complex<G>, i: InstNo)
    requires shape { IsShape (parts c.old) }
    ensures fallen { HaveFallen i 8 (parts c.old) (parts c.new) }
    ensures rig { c.new.rig ≡ c.old.rig }
{
    for at in 0..8 {
        fall_at(c, i, at);
    }
}

// The instance with this index is down, if it falls with `i`.
fn fall_at<G>(c: &mut Complex<G>, i: InstNo, at: usize)
    requires shape { IsShape (parts c.old) }
    requires few { at < 8 }
    ensures parts { parts c.new ≡ fell_at i (at + 1) (parts c.old) }
    ensures rig { c.new.rig ≡ c.old.rig }
{
    if falls_with(i, at, c.statuses[at]) {
        let loose = i.get() as usize == at + 1 || c.logs[at].has_tail();
        go_down(c, at, loose);
    }
}

// Whether the instance with this index, in this status, falls with `i`.
fn falls_with(i: InstNo, at: usize, status: Status) -> bool
    requires { at < 8 }
    ensures { result ≡ falls_with i (at + 1) status }
{
    if i.get() as usize == at + 1 {
        return true;
    }
    match status {
        Status::Recovering { by } => i == by,
        _ => false,
    }
}

// The instance with this index is down, and its log isn't settled where that is `loose`.
fn go_down<G>(c: &mut Complex<G>, at: usize, loose: bool)
    requires shape { IsShape (parts c.old) }
    requires few { at < 8 }
    ensures parts { parts c.new ≡ downed loose (at + 1) (parts c.old) }
    ensures rig { c.new.rig ≡ c.old.rig }
{
    if loose {
        c.owed[at] = owed_unsettled(c, at);
        c.loose[at + 1] = true;
    }
    c.statuses[at] = Status::Down;
}

// The records that a log owes at most that isn't settled from here on: with its tail or without it.
fn owed_unsettled<G>(c: &Complex<G>, at: usize) -> u64
    requires shape { IsShape (parts c.now) }
    requires few { at < 8 }
    ensures { result ≡ owed_unsettled (parts c.now) (at + 1) }
{
    if c.loose[at + 1] {
        c.owed[at]
    } else {
        cmp::max(c.owed[at], owed_when_forced(c, at))
    }
}

// The records that a log owes once all of it is forced.
fn owed_when_forced<G>(c: &Complex<G>, at: usize) -> u64
    requires shape { IsShape (parts c.now) }
    requires few { at < 8 }
    ensures { result ≡ owed_by (parts c.now) (at + 1) }
{
    match c.statuses[at] {
        Status::Down | Status::Closed => c.owed[at],
        _ => c.txns[at].owed(),
    }
}

// The transaction is in doubt, and each other one that runs or rolls back is a loser.
fn doubt(table: &mut TxnTable, t: &TxnId)
    requires { IsUnresolved table.old t.now }
    ensures { AreCut t.now table.old table.new }
{
    table.set(t, TxnState::Doubt);
    lose(table);
}

// Each transaction that runs or rolls back is a loser.
fn lose(table: &mut TxnTable)
    ensures { AreLost table.old table.new }
{
    for n in 0..table.count() {
        let t = table.unresolved()[n];
        lose_row(table, &t);
    }
}

// So is this one.
fn lose_row(table: &mut TxnTable, t: &TxnId)
    ensures row { txn_at table.new t.now ≡ option_map lost_row (txn_at table.old t.now) }
    ensures others { OthersStay table.old table.new t.now }
    ensures order { SameOrder table.old table.new }
{
    if let Some(state) = table.state(t) {
        table.set(t, lost_state(state));
    }
}

// How it stands then.
fn lost_state(state: TxnState) -> TxnState
    ensures { result ≡ lost_state state }
{
    match state {
        TxnState::Running | TxnState::Rolling { .. } => TxnState::Retained,
        _ => state,
    }
}
