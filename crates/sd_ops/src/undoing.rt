//! A rollback goes on: its last open record is undone, or it ends.

ghost use Rattle.std.specs.Prelude.{◌≡◌, ◌≢◌, ◌+◌, ℕ, true, false, Err, IfErr, IfOk, IsSome, Ok, OnOk, Option, Some};
ghost use Rattle.sd_base.specs.declared.place.Status.TheVariants as S;
ghost use Rattle.sd_base.specs.declared.refusal.Refusal.TheVariants as R;
ghost use Rattle.sd_fits.specs.Fits.{Fits};
ghost use Rattle.sd_fits.specs.Serving.{Serving};
ghost use Rattle.sd_model.specs.declared.event.Event.TheVariants as event;
ghost use Rattle.sd_pagelock.specs.Directory.{entry_at};
ghost use Rattle.sd_pagelock.specs.Places.{owns};
ghost use Rattle.sd_rig.specs.Devices.{LeavesSame};
ghost use Rattle.sd_state.specs.Complexes.{parts};
ghost use Rattle.sd_state.specs.Parts.{status_at, txns_at, IsShape};
ghost use Rattle.sd_txn.specs.Transactions.{state_at, top_at};
ghost use Rattle.sd_txn.specs.declared.state.OpenRec.{OpenRec};
ghost use Rattle.sd_txn.specs.declared.state.TxnState.TheVariants.{Rolling};
ghost use Rattle.sd_world.specs.Serving.{Core, answered, step_or_finished, telling};
ghost use Rattle.sd_ops.specs.Leaving.{UndoLeaves};
ghost use Rattle.sd_ops.specs.Logged.{HasCompensated};
ghost use Rattle.sd_ops.specs.Rolling.{EndsRecorded, IsAbove, IsDue, IsOut, LacksAlone};

use crate::ending::finish;
use crate::rollbacks::{calm, standing};
use sd_base::{Mode, PageNo, Refusal, TxnId};
use sd_pagelock::rows;
use sd_rig::Rig;
use sd_state::Complex;
use sd_txn::TxnState;

/// What an undo of a transaction comes to.
#[derive(Clone, Copy)]
pub enum UndoOutcome {
    /// It doesn't roll back.
    Nothing,
    /// Its last open record is undone.
    Step,
    /// It has come to its mark, and runs again.
    Mark,
    /// Nothing of it is open, and it ends.
    End,
}

/// Undoes the last open record of a transaction that rolls back, or ends its rollback where it has come to its goal: at a mark it runs
/// again, and after a whole rollback it is gone. `Ok(true)`: it was at its end, or wasn't rolled back. An undo uses the record's page,
/// which its instance has alone, and writes one compensation record. The end of a whole rollback is told, and its locks go, once its End
/// is forced, by four device calls; one without a record has none, and no other undo calls a device. It takes no memory, and a full log
/// has room for it.
///
/// Refused, the first that applies: `NoTxn`; `Down` where its instance isn't up; where a record is to be undone `Lost` and `NeedPage`,
/// where the instance hasn't the page alone. `Failed` comes where the force failed: its instance has fallen then.
pub fn undo<G: Rig>(c: &mut Complex<G>, t: &TxnId) -> Result<bool, Refusal>
    requires fits { (w : Core) × Fits (G.seen c.old.rig) (G.leaves c.old.rig) (parts c.old) w }
    ensures served { Serving (telling G.seen G.leaves G.moment G.since G.faults) (event.Undo t.now) (answered step_or_finished result)
        c.old c.new }
    ensures there { result ≢ Err R.Memory }
    ensures down { result ≡ Err R.Failed → status_at (parts c.new) t.now.inst ≡ S.Down }
    ensures disk { G.seen c.new.rig 0 ≡ G.seen c.old.rig 0 }
    ensures disk_leaves { LeavesSame (G.leaves c.old.rig 0) (G.leaves c.new.rig 0) }
    ensures untouched { UndoLeaves t.now result (parts c.old) (parts c.new) }
    ensures logged { result ≡ Ok false → HasCompensated t.now (parts c.old) (parts c.new) }
    ensures tick { EndsRecorded t.now (parts c.old) → OnOk result (G.moment c.new.rig ≡ G.moment c.old.rig + 4) }
    ensures still { (EndsRecorded t.now (parts c.old) → ⊥) → c.new.rig ≡ c.old.rig }
{
    t.keeps();
    match next_of(c, t) {
        Err(refusal) => {
            calm(c, t);
            Err(refusal)
        }
        Ok(UndoOutcome::Nothing) => {
            calm(c, t);
            Ok(true)
        }
        Ok(UndoOutcome::Step) => rollback_step(c, t),
        Ok(UndoOutcome::Mark) => {
            c.resume(t);
            Ok(true)
        }
        Ok(UndoOutcome::End) => finish(c, t),
    }
}

// What an undo comes to.
fn next_of<G>(c: &Complex<G>, t: &TxnId) -> Result<UndoOutcome, Refusal>
    requires { IsShape (parts c.now) }
    ensures due { IfOk result (IsDue t.now (parts c.now)) }
    ensures up { OnOk result (status_at (parts c.now) t.now.inst ≡ S.Up) }
    ensures out { IfErr result (IsOut t.now (parts c.now)) }
{
    match standing(c, t)? {
        TxnState::Rolling { target } => Ok(next_to(c, t, target)),
        _ => Ok(UndoOutcome::Nothing),
    }
}

// The same of one that rolls back to this goal.
fn next_to<G>(c: &Complex<G>, t: &TxnId, goal: Option<usize>) -> UndoOutcome
    requires shape { IsShape (parts c.now) }
    requires rolls { state_at (txns_at (parts c.now) t.now.inst) t.now ≡ Some (Rolling goal) }
    ensures { IsDue t.now (parts c.now) result }
{
    let table = c.txns(t.inst);
    if table.depth(t) > goal.unwrap_or(0) {
        return UndoOutcome::Step;
    }
    match goal {
        Some(_) => UndoOutcome::Mark,
        None => UndoOutcome::End,
    }
}

// Undoes the last open record, where the instance has its page alone.
fn rollback_step<G: Rig>(c: &mut Complex<G>, t: &TxnId) -> Result<bool, Refusal>
    requires fits { (w : Core) × Fits (G.seen c.old.rig) (G.leaves c.old.rig) (parts c.old) w }
    requires up { status_at (parts c.old) t.now.inst ≡ S.Up }
    requires above { (to : Option ℕ) × IsAbove t.now to (parts c.old) }
    ensures served { Serving (telling G.seen G.leaves G.moment G.since G.faults) (event.Undo t.now) (answered step_or_finished result)
        c.old c.new }
    ensures there { result ≢ Err R.Memory }
    ensures works { result ≢ Err R.Failed }
    ensures rig { c.new.rig ≡ c.old.rig }
    ensures untouched { UndoLeaves t.now result (parts c.old) (parts c.new) }
    ensures logged { result ≡ Ok false → HasCompensated t.now (parts c.old) (parts c.new) }
{
    t.keeps();
    // Nobody stands twice in the table.
    c.txns(t.inst).keeps();
    let page = page_of(c, t);
    match alone(c, t, page) {
        Ok(()) => {
            sd_update::undo(c, t);
            Ok(false)
        }
        Err(refusal) => Err(refusal),
    }
}

// The page of a transaction's last open record.
fn page_of<G>(c: &Complex<G>, t: &TxnId) -> PageNo
    requires shape { IsShape (parts c.now) }
    requires some { IsSome (top_at (txns_at (parts c.now) t.now.inst) t.now) }
    ensures { (o : OpenRec) → top_at (txns_at (parts c.now) t.now.inst) t.now ≡ Some o → result ≡ o.rid.page }
{
    c.txns(t.inst).top(t).unwrap().rid.page
}

// Whether the transaction's instance has the page alone: `Lost` where it is lost, else `NeedPage` where it hasn't.
fn alone<G>(c: &Complex<G>, t: &TxnId, page: PageNo) -> Result<(), Refusal>
    ensures alone { OnOk result (owns (entry_at (parts c.now).directory page) t.now.inst ≡ true) }
    ensures lacks { IfErr result (LacksAlone t.now.inst page (parts c.now)) }
{
    let place = c.entry(page);
    if rows::is_lost(&place) {
        return Err(Refusal::Lost);
    }
    if !rows::holds_as(Mode::Excl, &place, t.inst) {
        return Err(Refusal::NeedPage { place });
    }
    Ok(())
}
