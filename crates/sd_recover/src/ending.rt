//! A loser of a recovered instance gets its End, and the recovery ends.

ghost use Rattle.std.specs.Prelude.{◌≡◌, ◌≢◌, ◌≤◌, ◌<◌, ◌^◌, Err, IfErr, IsSome, None, OnErr, OnOk, Some, false, suc};
ghost use Rattle.sd_base.specs.declared.place.Status.TheVariants as S;
ghost use Rattle.sd_base.specs.declared.refusal.Refusal.TheVariants as R;
ghost use Rattle.sd_chain.specs.Records.{home};
ghost use Rattle.sd_fits.specs.Fits.{Fits};
ghost use Rattle.sd_fits.specs.Serving.{Serving};
ghost use Rattle.sd_fits.specs.Untouched.{FallTouches, IsUntouched, none_of, only};
ghost use Rattle.sd_model.specs.declared.event.Event.TheVariants as event;
ghost use Rattle.sd_model.specs.declared.event.Reply.TheVariants as reply;
ghost use Rattle.sd_state.specs.Complexes.{parts};
ghost use Rattle.sd_state.specs.Parts.{is_loose, status_at, txns_at};
ghost use Rattle.sd_state.specs.Recovering.{with_table};
ghost use Rattle.sd_recover.specs.Doing.{Does};
ghost use Rattle.sd_recover.specs.Recovering.{WantsNone};
ghost use Rattle.sd_recover.specs.Tasks.{tasks_in, AreThere, IsRowTask};
ghost use Rattle.sd_recover.specs.Work.{steps_left};
ghost use Rattle.sd_recover.specs.declared.tasks.Task.TheVariants as task;
ghost use Rattle.sd_txn.specs.Transactions.{span_at, state_at, top_at};
ghost use Rattle.sd_txn.specs.declared.state.TxnState.{TxnState};
ghost use Rattle.sd_world.specs.Serving.{Core, answered, telling};

use crate::deciding::at_rest;
use sd_base::{InstNo, Refusal, TxnId};
use sd_moves::down;
use sd_rig::Rig;
use sd_state::Complex;
use sd_update::{end_recovery, seal_end};

/// Puts the End of a loser into the log of its instance, which `by` recovers, and forces that. `Memory` changes nothing; after `Failed`
/// the instance `by` has fallen.
pub(crate) fn end_next<G: Rig>(c: &mut Complex<G>, by: InstNo, t: &TxnId) -> Result<(), Refusal>
    requires fits { (w : Core) × Fits (G.seen c.old.rig) (G.leaves c.old.rig) (parts c.old) w }
    requires recovers { status_at (parts c.old) (home t.now) ≡ S.Recovering by }
    requires settled { is_loose (parts c.old) (home t.now) ≡ false }
    requires loser { state_at (txns_at (parts c.old) (home t.now)) t.now ≡ Some TxnState.Retained }
    requires empty { top_at (txns_at (parts c.old) (home t.now)) t.now ≡ None }
    requires there { IsSome (span_at (txns_at (parts c.old) (home t.now)) t.now) }
    ensures served { Serving (telling G.seen G.leaves G.moment G.since G.faults) (event.RecoverStep (home t.now))
        (answered (λ _. reply.Step) result) c.old c.new }
    ensures only { IfErr result WantsNone }
    ensures fell { result ≡ Err R.Failed → FallTouches by (only (home t.now)) none_of
        (with_table (home t.now) (txns_at (parts c.new) (home t.now)) (parts c.old)) (parts c.new) }
    ensures short { result ≡ Err R.Memory → parts c.new ≡ parts c.old }
    ensures fewer { OnOk result
        (suc (tasks_in (txns_at (parts c.new) (home t.now))) ≡ tasks_in (txns_at (parts c.old) (home t.now))) }
    ensures did { OnOk result (Does (home t.now) by (G.seen c.old.rig) (G.seen c.new.rig) (task.End t.now) (parts c.old) (parts c.new)) }
{
    t.keeps();
    by.keeps();
    seal_end(c, t)?;
    match c.force_log(t.inst) {
        Ok(()) => Ok(()),
        Err(_) => {
            down(c, by);
            Err(Refusal::Failed)
        }
    }
}

/// Ends the recovery of an instance by `by`: the transaction that was found committed is so, the losers are gone, and all of them let go
/// of their locks. It takes no memory.
pub(crate) fn finish<G: Rig>(c: &mut Complex<G>, i: InstNo, by: InstNo) -> Result<(), Refusal>
    requires fits { (w : Core) × Fits (G.seen c.old.rig) (G.leaves c.old.rig) (parts c.old) w }
    requires recovers { status_at (parts c.old) i ≡ S.Recovering by }
    requires there { AreThere (parts c.old) }
    requires done { IsRowTask (txns_at (parts c.old) i) task.Done }
    ensures served { Serving (telling G.seen G.leaves G.moment G.since G.faults) (event.RecoverStep i)
        (answered (λ _. reply.Finished) result) c.old c.new }
    ensures memory { result ≢ Err R.Memory }
    ensures only { IfErr result WantsNone }
    ensures none { OnOk result (steps_left (G.seen c.old.rig) (parts c.old) i ≡ 0) }
    ensures fell { OnErr result (FallTouches by (only i) none_of (parts c.old) (parts c.new)) }
    ensures ended { OnOk result (IsUntouched none_of none_of (parts c.old) (parts c.new)) }
{
    i.keeps();
    match at_rest(c, i, by) {
        Ok(()) => {
            c.txns(i).keeps();
            end_recovery(c, i);
            Ok(())
        }
        Err(_) => Err(Refusal::Failed),
    }
}
