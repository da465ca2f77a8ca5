//! A loser's last open record is undone by the instance that recovers the loser's.

ghost use Rattle.std.specs.Prelude.{◌≡◌, ◌↔◌, ◌||◌, Err, IfErr, IsTrue, OnOk, Some, suc, true};
ghost use Rattle.sd_base.specs.declared.place.Place.{Place};
ghost use Rattle.sd_base.specs.declared.place.Status.TheVariants as S;
ghost use Rattle.sd_base.specs.declared.refusal.Refusal.TheVariants as R;
ghost use Rattle.sd_chain.specs.Records.{home};
ghost use Rattle.sd_fits.specs.Fits.{Fits};
ghost use Rattle.sd_fits.specs.Serving.{Serving};
ghost use Rattle.sd_fits.specs.Untouched.{FallTouches, only};
ghost use Rattle.sd_model.specs.declared.event.Event.TheVariants as event;
ghost use Rattle.sd_model.specs.declared.event.Reply.TheVariants as reply;
ghost use Rattle.sd_pagelock.specs.Directory.{entry_at};
ghost use Rattle.sd_pagelock.specs.Places.{owns};
ghost use Rattle.sd_state.specs.Complexes.{parts};
ghost use Rattle.sd_state.specs.Parts.{owed_at, status_at, txns_at};
ghost use Rattle.sd_state.specs.Recovering.{with_table};
ghost use Rattle.sd_update.specs.UndoingFor.{own_forced};
ghost use Rattle.sd_recover.specs.Doing.{Does};
ghost use Rattle.sd_recover.specs.Recovering.{IsAway};
ghost use Rattle.sd_recover.specs.Tasks.{tasks_in, AreThere};
ghost use Rattle.sd_recover.specs.declared.tasks.Task.TheVariants as task;
ghost use Rattle.sd_txn.specs.Transactions.{state_at, top_at};
ghost use Rattle.sd_txn.specs.declared.state.OpenRec.{OpenRec};
ghost use Rattle.sd_txn.specs.declared.state.TxnState.{TxnState};
ghost use Rattle.sd_world.specs.Serving.{Core, answered, telling};

use sd_base::{InstNo, Mode, PageNo, Refusal, TxnId};
use sd_moves::down;
use sd_pagelock::rows;
use sd_rig::Rig;
use sd_state::Complex;
use sd_update::undo_forced;

/// Undoes a loser's last open record, which is of this page, in the pool of `by`, which recovers the loser's instance: the CLR is forced
/// into the log of that. `NeedPage` comes where `by` hasn't the page alone, and changes nothing; after `Memory` all is as it was, but
/// that the log of `by` may be forced; after `Failed` the instance `by` has fallen.
pub(crate) fn undo_next<G: Rig>(
    c: &mut Complex<G>,
    by: InstNo,
    t: &TxnId,
    page: PageNo,
) -> Result<(), Refusal>
    requires fits { (w : Core) × Fits (G.seen c.old.rig) (G.leaves c.old.rig) (parts c.old) w }
    requires recovers { status_at (parts c.old) (home t.now) ≡ S.Recovering by }
    requires there { AreThere (parts c.old) }
    requires loser { state_at (txns_at (parts c.old) (home t.now)) t.now ≡ Some TxnState.Retained }
    requires last { (o : OpenRec) × (top_at (txns_at (parts c.old) (home t.now)) t.now ≡ Some o) × (page ≡ o.rid.page) }
    ensures served { Serving (telling G.seen G.leaves G.moment G.since G.faults) (event.RecoverStep (home t.now))
        (answered (λ _. reply.Step) result) c.old c.new }
    ensures fell { result ≡ Err R.Failed → FallTouches by (λ d. only by d || only (home t.now) d) (only page)
        (with_table (home t.now) (txns_at (parts c.new) (home t.now)) (parts c.old)) (parts c.new) }
    ensures short { result ≡ Err R.Memory → parts c.new ≡ own_forced by (owed_at (parts c.new) by) (parts c.old) }
    ensures awaits { IfErr result (λ n. (place : Place) → n ≡ R.NeedPage place
        → (parts c.new ≡ parts c.old) × IsAway by page (parts c.old) (R.NeedPage place)) }
    ensures fewer { OnOk result
        (suc (tasks_in (txns_at (parts c.new) (home t.now))) ≡ tasks_in (txns_at (parts c.old) (home t.now))) }
    ensures did { OnOk result (Does (home t.now) by (G.seen c.old.rig) (G.seen c.new.rig) (task.Undo t.now page) (parts c.old) (parts c.new)) }
{
    t.inst.keeps();
    by.keeps();
    c.txns(t.inst).keeps();
    alone(c, by, page)?;
    match undo_forced(c, t, by) {
        Ok(()) => Ok(()),
        Err(refusal) => {
            if is_memory(&refusal) {
                return Err(Refusal::Memory);
            }
            down(c, by);
            Err(Refusal::Failed)
        }
    }
}

// Whether it is for want of memory.
fn is_memory(refusal: &Refusal) -> bool
    ensures { IsTrue result ↔ (refusal.now ≡ R.Memory) }
{
    matches!(refusal, Refusal::Memory)
}

// Whether the instance has the page alone.
fn alone<G>(c: &Complex<G>, by: InstNo, page: PageNo) -> Result<(), Refusal>
    ensures alone { OnOk result (owns (entry_at (parts c.now).directory page) by ≡ true) }
    ensures away { IfErr result (IsAway by page (parts c.now)) }
{
    let place = c.entry(page);
    if !rows::holds_as(Mode::Excl, &place, by) {
        return Err(Refusal::NeedPage { place });
    }
    Ok(())
}
