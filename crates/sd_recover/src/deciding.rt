//! The transaction in doubt of a recovered instance is decided.

ghost use Rattle.std.specs.Prelude.{◌≡◌, ◌≢◌, Err, IfErr, None, OnErr, OnOk, Some, false, suc};
ghost use Rattle.std.specs.List.{list_any};
ghost use Rattle.sd_base.specs.declared.place.Status.TheVariants as S;
ghost use Rattle.sd_base.specs.declared.refusal.Refusal.TheVariants as R;
ghost use Rattle.sd_chain.specs.Fates.{commits};
ghost use Rattle.sd_chain.specs.Records.{home};
ghost use Rattle.sd_fits.specs.Fits.{Fits};
ghost use Rattle.sd_fits.specs.Serving.{Serving};
ghost use Rattle.sd_fits.specs.Untouched.{FallTouches, none_of, only};
ghost use Rattle.sd_log.specs.Logs.{forced, scanned};
ghost use Rattle.sd_logrec.specs.View.{flat};
ghost use Rattle.sd_model.specs.declared.event.Event.TheVariants as event;
ghost use Rattle.sd_model.specs.declared.event.Reply.TheVariants as reply;
ghost use Rattle.sd_state.specs.Complexes.{parts};
ghost use Rattle.sd_state.specs.Forcing.{with_forced};
ghost use Rattle.sd_state.specs.Parts.{is_loose, log_at, owed_at, status_at, txns_at};
ghost use Rattle.sd_recover.specs.Doing.{Does};
ghost use Rattle.sd_recover.specs.Recovering.{WantsNone};
ghost use Rattle.sd_recover.specs.Tasks.{tasks_in};
ghost use Rattle.sd_recover.specs.declared.tasks.Task.TheVariants as task;
ghost use Rattle.sd_txn.specs.Transactions.{state_at};
ghost use Rattle.sd_txn.specs.declared.state.TxnState.{TxnState};
ghost use Rattle.sd_world.specs.Serving.{Core, answered, telling};

use sd_base::{Failed, InstNo, Refusal, TxnId};
use sd_log::Log;
use sd_moves::down;
use sd_rig::Rig;
use sd_state::Complex;
use sd_update::decide;

/// Decides the transaction in doubt of an instance that `by` recovers: it is committed where the log has its Commit, and a loser where
/// it hasn't. It looks through the records of the log once. It takes no memory.
pub(crate) fn decide_next<G: Rig>(c: &mut Complex<G>, by: InstNo, t: &TxnId) -> Result<(), Refusal>
    requires fits { (w : Core) × Fits (G.seen c.old.rig) (G.leaves c.old.rig) (parts c.old) w }
    requires recovers { status_at (parts c.old) (home t.now) ≡ S.Recovering by }
    requires settled { is_loose (parts c.old) (home t.now) ≡ false }
    requires doubt { state_at (txns_at (parts c.old) (home t.now)) t.now ≡ Some TxnState.Doubt }
    ensures served { Serving (telling G.seen G.leaves G.moment G.since G.faults) (event.RecoverStep (home t.now))
        (answered (λ _. reply.Step) result) c.old c.new }
    ensures there { result ≢ Err R.Memory }
    ensures only { IfErr result WantsNone }
    ensures fell { OnErr result (FallTouches by (only (home t.now)) none_of (parts c.old) (parts c.new)) }
    ensures fewer { OnOk result
        (suc (tasks_in (txns_at (parts c.new) (home t.now))) ≡ tasks_in (txns_at (parts c.old) (home t.now))) }
    ensures did { OnOk result (Does (home t.now) by (G.seen c.old.rig) (G.seen c.new.rig) (task.Decide t.now) (parts c.old) (parts c.new)) }
{
    t.inst.keeps();
    match at_rest(c, t.inst, by) {
        Ok(()) => {
            c.txns(t.inst).keeps();
            let committed = has_commit(c.log(t.inst), t);
            decide(c, t, committed);
            Ok(())
        }
        Err(_) => Err(Refusal::Failed),
    }
}

/// The log of an instance that `by` recovers has no tail from then on. Between two steps it has none, so that no device is called; after
/// `Failed` the instance `by` has fallen.
pub(crate) fn at_rest<G: Rig>(c: &mut Complex<G>, i: InstNo, by: InstNo) -> Result<(), Failed>
    requires fits { (w : Core) × Fits (G.seen c.old.rig) (G.leaves c.old.rig) (parts c.old) w }
    requires recovers { status_at (parts c.old) i ≡ S.Recovering by }
    requires settled { is_loose (parts c.old) i ≡ false }
    ensures spared { OnOk result
        (Serving (telling G.seen G.leaves G.moment G.since G.faults) (event.RecoverStep i) None c.old c.new) }
    ensures parts { OnOk result
        (parts c.new ≡ with_forced i (forced (log_at (parts c.old) i)) (owed_at (parts c.new) i) (parts c.old)) }
    ensures fell { OnErr result (FallTouches by (only i) none_of (parts c.old) (parts c.new)) }
    ensures failed { OnErr result
        (Serving (telling G.seen G.leaves G.moment G.since G.faults) (event.RecoverStep i) (Some (reply.Refused R.Failed)) c.old c.new) }
{
    i.keeps();
    by.keeps();
    match c.force_log(i) {
        Ok(()) => Ok(()),
        Err(failed) => {
            down(c, by);
            Err(failed)
        }
    }
}

// Whether the log has a Commit of the transaction. A goal of its own.
fn has_commit(log: &Log, t: &TxnId) -> bool
    ensures { result ≡ list_any (λ p. commits t.now (flat p.rec)) (scanned log.now) }
{
    log.has_commit(t)
}
