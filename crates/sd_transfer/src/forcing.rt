//! The log of an instance is forced.

ghost use Rattle.std.specs.Prelude.{◌≡◌, ◌≢◌, ◌+◌, true, false, [], Err, IfErr, Ok, OnErr, OnOk, None, Some};
ghost use Rattle.sd_base.specs.declared.place.Status.TheVariants as S;
ghost use Rattle.sd_base.specs.declared.refusal.Refusal.TheVariants as R;
ghost use Rattle.sd_fits.specs.Fits.{Fits};
ghost use Rattle.sd_fits.specs.Resting.{LeavesRest};
ghost use Rattle.sd_fits.specs.Serving.{Serving};
ghost use Rattle.sd_fits.specs.Untouched.{none_of};
ghost use Rattle.sd_model.specs.declared.event.Event.{Event};
ghost use Rattle.sd_model.specs.declared.event.Event.TheVariants as event;
ghost use Rattle.sd_model.specs.declared.event.Reply.TheVariants as reply;
ghost use Rattle.sd_rig.specs.Devices.{LeavesSame};
ghost use Rattle.sd_state.specs.Complexes.{parts};
ghost use Rattle.sd_state.specs.Parts.{is_active, is_loose, log_at, status_at};
ghost use Rattle.sd_world.specs.Serving.{Core, did, telling};
ghost use Rattle.sd_transfer.specs.Breaking.{BreaksBy};
ghost use Rattle.sd_transfer.specs.Forcing.{force_calls, OnlyLogs, OthersKeepLogs};
ghost use Rattle.sd_transfer.specs.Touching.{Touches};

use sd_base::{InstNo, Refusal};
use sd_moves::down;
use sd_rig::Rig;
use sd_state::Complex;

/// Forces the log of an instance: once the answer is `Ok` the device has all of its records, unless the log isn't settled, as
/// while its instance begins to recover itself; then no device is called, and neither where the log has no tail. Else the force makes
/// four writes and syncs. It takes no memory. No log but this one changes, nor what no world has.
///
/// `Down` comes where the instance isn't active, and changes nothing. `Failed` comes where the device failed; the instance has
/// fallen then.
pub fn force<G: Rig>(c: &mut Complex<G>, i: InstNo) -> Result<(), Refusal>
    requires fits { (w : Core) × Fits (G.seen c.old.rig) (G.leaves c.old.rig) (parts c.old) w }
    ensures served { Serving (telling G.seen G.leaves G.moment G.since G.faults) (event.Force i) (did result) c.old c.new }
    ensures there { result ≢ Err R.Memory }
    ensures forced { OnOk result (is_loose (parts c.old) i ≡ false → (log_at (parts c.new) i).tail ≡ []) }
    ensures stays { OnOk result (OnlyLogs (parts c.old) (parts c.new)) }
    ensures others { OnOk result (OthersKeepLogs i (parts c.old) (parts c.new)) }
    ensures down { result ≡ Err R.Failed → status_at (parts c.new) i ≡ S.Down }
    ensures refused { IfErr result (λ n. n ≢ R.Failed → (parts c.new ≡ parts c.old) × (c.new.rig ≡ c.old.rig)) }
    ensures untouched { Touches i none_of result (parts c.old) (parts c.new) }
    ensures rest { LeavesRest (parts c.old) (parts c.new) }
    ensures idle { force_calls i (parts c.old) ≡ 0 → c.new.rig ≡ c.old.rig }
    ensures tick { OnOk result (G.moment c.new.rig ≡ G.moment c.old.rig + force_calls i (parts c.old)) }
{
    i.keeps();
    if !c.status(i).is_active(i) {
        return Err(Refusal::Down);
    }
    force_or_fall(c, i)
}

/// Forces the log of an instance that is active, or makes the instance fall where the device fails: for an event that wants the log
/// forced before it goes on. A log that isn't settled takes no call, nor does one without a tail, and else a force makes four writes and
/// syncs. It takes no memory, and leaves the data device and the logs of others as they were.
///
/// `Failed` comes where the device failed, so only where there is something to force; the instance has fallen then, its log isn't
/// settled, and the event is served so.
pub fn force_or_fall<G: Rig>(c: &mut Complex<G>, i: InstNo) -> Result<(), Refusal>
    requires fits { (w : Core) × Fits (G.seen c.old.rig) (G.leaves c.old.rig) (parts c.old) w }
    requires active { is_active (parts c.old) i ≡ true }

    ensures spared { OnOk result ((e : Event) → Serving (telling G.seen G.leaves G.moment G.since G.faults) e None c.old c.new) }
    ensures forced { OnOk result (is_loose (parts c.old) i ≡ false → (log_at (parts c.new) i).tail ≡ []) }
    ensures stays { OnOk result (OnlyLogs (parts c.old) (parts c.new)) }
    ensures others { OnOk result (OthersKeepLogs i (parts c.old) (parts c.new)) }

    ensures failed { OnErr result ((e : Event)
        → ((w : Core) → Fits (G.seen c.old.rig) (G.leaves c.old.rig) (parts c.old) w → BreaksBy i e w)
        → Serving (telling G.seen G.leaves G.moment G.since G.faults) e (Some (reply.Refused R.Failed)) c.old c.new) }
    ensures only { IfErr result (λ n. n ≡ R.Failed) }
    ensures down { OnErr result (status_at (parts c.new) i ≡ S.Down) }
    ensures marks { OnErr result (is_loose (parts c.new) i ≡ true) }

    ensures untouched { Touches i none_of result (parts c.old) (parts c.new) }
    ensures rest { LeavesRest (parts c.old) (parts c.new) }

    ensures disk { G.seen c.new.rig 0 ≡ G.seen c.old.rig 0 }
    ensures disk_leaves { LeavesSame (G.leaves c.old.rig 0) (G.leaves c.new.rig 0) }
    ensures idle { force_calls i (parts c.old) ≡ 0 → c.new.rig ≡ c.old.rig }
    ensures sure { force_calls i (parts c.old) ≡ 0 → result ≡ Ok tt }
    ensures tick { OnOk result (G.moment c.new.rig ≡ G.moment c.old.rig + force_calls i (parts c.old)) }
{
    i.keeps();
    if c.force_log(i).is_err() {
        down(c, i);
        return Err(Refusal::Failed);
    }
    Ok(())
}
