//! A recovery begins, decides the transaction in doubt, and ends.

ghost use Rattle.std.specs.Prelude.{◌≡◌, ◌⊎◌, ℕ, [], false, None, Some, cond, is_some, option_map};
ghost use Rattle.std.specs.List.{list_any};
ghost use Rattle.sd_base.specs.declared.ids.Rid.{Rid};
ghost use Rattle.sd_base.specs.declared.ids.TxnId.{TxnId};
ghost use Rattle.sd_base.specs.declared.place.Status.TheVariants as S;
ghost use Rattle.sd_chain.specs.Fates.{commits};
ghost use Rattle.sd_chain.specs.Records.{home};
ghost use Rattle.sd_model.specs.Changes.{after_recovery};
ghost use Rattle.sd_model.specs.State.{State};
ghost use Rattle.sd_reclock.specs.Locks.{held, waits};
ghost use Rattle.sd_chain.specs.Logs.{base_at};
ghost use Rattle.sd_state.specs.Complexes.{parts};
ghost use Rattle.sd_state.specs.Good.{Good};
ghost use Rattle.sd_state.specs.Parts.{is_loose, log_at, status_at, txns_at};
ghost use Rattle.sd_state.specs.Recovering.{MayEnd, decided_as, recovered_from, recovers, with_recovered, with_recovering, with_table, without_rows};
ghost use Rattle.sd_state.specs.Values.{Pending};
ghost use Rattle.sd_txn.specs.Transactions.{state_at, txn_at, with_state, OthersStay, SameOrder};
ghost use Rattle.sd_txn.specs.declared.state.TxnState.{TxnState};

use sd_base::{InstNo, Status, TxnId};
use sd_reclock::RecordLocks;
use sd_rig::Rig;
use sd_state::Complex;
use sd_txn::{TxnState, TxnTable};

/// Begins the recovery of an instance that is down, by itself or by one that is up. Its log and the data device count as
/// unsettled from here on: they are to be synced and read before anything is decided. It takes no memory and makes no device
/// call.
pub fn recovering<G: Rig>(c: &mut Complex<G>, i: InstNo, by: InstNo)
    requires good { (m : State) × Good (G.seen c.old.rig) (G.leaves c.old.rig) Pending.Idle (parts c.old) m }
    requires idle { (parts c.old).due ≡ None }
    requires down { status_at (parts c.old) i ≡ S.Down }
    requires recoverer { (by ≡ i) ⊎ (status_at (parts c.old) by ≡ S.Up) }
    ensures good { (m : State) → Good (G.seen c.old.rig) (G.leaves c.old.rig) Pending.Idle (parts c.old) m
        → Good (G.seen c.new.rig) (G.leaves c.new.rig) Pending.Idle (parts c.new) (recovers i by m) }
    ensures parts { parts c.new ≡ with_recovering i by (parts c.old) }
    ensures rig { c.new.rig ≡ c.old.rig }
{
    c.loose[0] = true;
    c.loose[i.get() as usize] = true;
    c.statuses[i.get() as usize - 1] = Status::Recovering { by };
}

/// Decides the transaction in doubt of an instance that is recovered, whose log is settled and has no tail: from here on it
/// is to be finished as committed where the log has its Commit, and to be undone where it hasn't. It takes no memory and
/// makes no device call.
pub fn decide<G: Rig>(c: &mut Complex<G>, t: &TxnId, committed: bool)
    requires good { (m : State) × Good (G.seen c.old.rig) (G.leaves c.old.rig) Pending.Idle (parts c.old) m }
    requires doubt { state_at (txns_at (parts c.old) (home t.now)) t.now ≡ Some TxnState.Doubt }
    requires recovering { (by : ℕ) × (status_at (parts c.old) (home t.now) ≡ S.Recovering by) }
    requires settled { is_loose (parts c.old) (home t.now) ≡ false }
    requires no_tail { (log_at (parts c.old) (home t.now)).tail ≡ [] }
    requires kept { committed ≡ list_any (commits t.now) (base_at (log_at (parts c.old) (home t.now))) }

    ensures good { (m : State) → Good (G.seen c.old.rig) (G.leaves c.old.rig) Pending.Idle (parts c.old) m
        → Good (G.seen c.new.rig) (G.leaves c.new.rig) Pending.Idle (parts c.new) m }
    ensures parts { parts c.new ≡ with_table (home t.now) (txns_at (parts c.new) (home t.now)) (parts c.old) }
    ensures row { txn_at (txns_at (parts c.new) (home t.now)) t.now
        ≡ option_map (with_state (decided_as committed)) (txn_at (txns_at (parts c.old) (home t.now)) t.now) }
    ensures others { OthersStay (txns_at (parts c.old) (home t.now)) (txns_at (parts c.new) (home t.now)) t.now }
    ensures order { SameOrder (txns_at (parts c.old) (home t.now)) (txns_at (parts c.new) (home t.now)) }
    ensures rig { c.new.rig ≡ c.old.rig }
{
    let at = t.inst.get() as usize - 1;
    c.txns[at].keeps();
    c.txns[at].set(t, decided_state(committed));
}

/// Ends the recovery of an instance whose log is settled and has no tail, and of whose rows nothing is left to do: the
/// transaction that was found committed is so, the losers are gone, and all let go of their locks and their waits. The
/// instance is clean, or restarting where it recovered itself. It takes no memory and makes no device call.
pub fn end_recovery<G: Rig>(c: &mut Complex<G>, i: InstNo)
    requires good { (m : State) × Good (G.seen c.old.rig) (G.leaves c.old.rig) Pending.Idle (parts c.old) m }
    requires may { MayEnd i (parts c.old) }

    ensures good { (m : State) → Good (G.seen c.old.rig) (G.leaves c.old.rig) Pending.Idle (parts c.old) m
        → Good (G.seen c.new.rig) (G.leaves c.new.rig) Pending.Idle (parts c.new)
        (recovered_from i (txns_at (parts c.old) i) m) }
    ensures parts { parts c.new ≡ with_recovered i (parts c.new).locks (parts c.old) }
    ensures locks { (t : TxnId) (r : Rid) → held (parts c.new).locks t r
        ≡ cond (is_some (txn_at (txns_at (parts c.old) i) t)) None (held (parts c.old).locks t r) }
    ensures waits { (t : TxnId) → waits (parts c.new).locks t
        ≡ cond (is_some (txn_at (txns_at (parts c.old) i) t)) None (waits (parts c.old).locks t) }
    ensures rig { c.new.rig ≡ c.old.rig }
{
    let at = i.get() as usize - 1;
    c.statuses[at] = recovered_status(i, c.statuses[at]);
    c.txns[at].keeps();
    end_rows(&mut c.txns[at], &mut c.locks);
}

// How it stands then.
fn decided_state(committed: bool) -> TxnState
    ensures { result ≡ decided_as committed }
{
    if committed {
        TxnState::Committed
    } else {
        TxnState::Retained
    }
}

// How the instance stands then.
fn recovered_status(i: InstNo, status: Status) -> Status
    ensures { result ≡ after_recovery i status }
{
    match status {
        Status::Recovering { by } => {
            if i == by {
                Status::Restarting
            } else {
                Status::Clean
            }
        }
        _ => Status::Clean,
    }
}

// Ends all transactions of a table; they let go of their locks and their waits.
fn end_rows(table: &mut TxnTable, locks: &mut RecordLocks)
    ensures rows { table.new ≡ without_rows table.old }
    ensures locks { (t : TxnId) (r : Rid) → held locks.new t r ≡ cond (is_some (txn_at table.old t)) None (held locks.old t r) }
    ensures waits { (t : TxnId) → waits locks.new t ≡ cond (is_some (txn_at table.old t)) None (waits locks.old t) }
{
    for _n in 0..table.count() {
        let t = table.unresolved()[0];
        locks.release_all(&t);
        table.end(&t);
    }
}
