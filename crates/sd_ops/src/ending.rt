//! A whole rollback ends.

ghost use Rattle.std.specs.Prelude.{◌≡◌, ◌≢◌, ◌+◌, true, Err, IfOk, IsSome, None, OnOk, Some};
ghost use Rattle.sd_base.specs.declared.place.Status.TheVariants as S;
ghost use Rattle.sd_base.specs.declared.refusal.Refusal.TheVariants as R;
ghost use Rattle.sd_fits.specs.Fits.{Fits};
ghost use Rattle.sd_fits.specs.Serving.{Serving};
ghost use Rattle.sd_model.specs.declared.event.Event.TheVariants as event;
ghost use Rattle.sd_rig.specs.Devices.{LeavesSame};
ghost use Rattle.sd_state.specs.Complexes.{parts};
ghost use Rattle.sd_state.specs.Parts.{status_at, txns_at};
ghost use Rattle.sd_txn.specs.Transactions.{depth_at, span_at, state_at};
ghost use Rattle.sd_txn.specs.declared.state.TxnState.TheVariants.{Rolling};
ghost use Rattle.sd_ops.specs.Leaving.{EndLeaves};
ghost use Rattle.sd_world.specs.Serving.{Core, answered, step_or_finished, telling};

use sd_base::{Refusal, TxnId};
use sd_moves::down;
use sd_rig::Rig;
use sd_state::Complex;
use sd_update::seal_end;

/// Ends a whole rollback of which nothing is open: `Ok(true)`, once the End of the transaction is forced; one without a record has
/// none. Its locks and its row go. `Failed` comes where the force failed: its instance has fallen then. It takes no memory.
pub fn finish<G: Rig>(c: &mut Complex<G>, t: &TxnId) -> Result<bool, Refusal>
    requires fits { (w : Core) × Fits (G.seen c.old.rig) (G.leaves c.old.rig) (parts c.old) w }
    requires up { status_at (parts c.old) t.now.inst ≡ S.Up }
    requires rolls { state_at (txns_at (parts c.old) t.now.inst) t.now ≡ Some (Rolling None) }
    requires empty { depth_at (txns_at (parts c.old) t.now.inst) t.now ≡ 0 }
    ensures served { Serving (telling G.seen G.leaves G.moment G.since G.faults) (event.Undo t.now) (answered step_or_finished result)
        c.old c.new }
    ensures there { result ≢ Err R.Memory }
    ensures down { result ≡ Err R.Failed → status_at (parts c.new) t.now.inst ≡ S.Down }
    ensures disk { G.seen c.new.rig 0 ≡ G.seen c.old.rig 0 }
    ensures disk_leaves { LeavesSame (G.leaves c.old.rig 0) (G.leaves c.new.rig 0) }
    ensures ends { IfOk result (λ done. done ≡ true) }
    ensures untouched { EndLeaves t.now.inst result (parts c.old) (parts c.new) }
    ensures tick { IsSome (span_at (txns_at (parts c.old) t.now.inst) t.now) → OnOk result (G.moment c.new.rig ≡ G.moment c.old.rig + 4) }
    ensures bare { span_at (txns_at (parts c.old) t.now.inst) t.now ≡ None → c.new.rig ≡ c.old.rig }
{
    t.keeps();
    match c.txns(t.inst).span(t) {
        None => {
            c.rolled_back(t);
            Ok(true)
        }
        Some(_) => finish_recorded(c, t),
    }
}

// The same of one that has a record.
fn finish_recorded<G: Rig>(c: &mut Complex<G>, t: &TxnId) -> Result<bool, Refusal>
    requires fits { (w : Core) × Fits (G.seen c.old.rig) (G.leaves c.old.rig) (parts c.old) w }
    requires up { status_at (parts c.old) t.now.inst ≡ S.Up }
    requires rolls { state_at (txns_at (parts c.old) t.now.inst) t.now ≡ Some (Rolling None) }
    requires empty { depth_at (txns_at (parts c.old) t.now.inst) t.now ≡ 0 }
    requires there { IsSome (span_at (txns_at (parts c.old) t.now.inst) t.now) }
    ensures served { Serving (telling G.seen G.leaves G.moment G.since G.faults) (event.Undo t.now) (answered step_or_finished result)
        c.old c.new }
    ensures there { result ≢ Err R.Memory }
    ensures down { result ≡ Err R.Failed → status_at (parts c.new) t.now.inst ≡ S.Down }
    ensures disk { G.seen c.new.rig 0 ≡ G.seen c.old.rig 0 }
    ensures disk_leaves { LeavesSame (G.leaves c.old.rig 0) (G.leaves c.new.rig 0) }
    ensures ends { IfOk result (λ done. done ≡ true) }
    ensures untouched { EndLeaves t.now.inst result (parts c.old) (parts c.new) }
    ensures tick { OnOk result (G.moment c.new.rig ≡ G.moment c.old.rig + 4) }
{
    t.keeps();
    // Memory is reserved for its End.
    seal_end(c, t).unwrap();
    match c.force_log(t.inst) {
        Ok(()) => {
            // Its locks go, and its end is told, once its End is forced.
            c.rolled_back(t);
            Ok(true)
        }
        Err(_) => {
            down(c, t.inst);
            Err(Refusal::Failed)
        }
    }
}
