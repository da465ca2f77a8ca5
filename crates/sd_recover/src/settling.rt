//! A device that isn't settled is settled: a step of a recovery.

ghost use Rattle.std.specs.Prelude.{◌≡◌, ◌<◌, ◌≤◌, ℕ, false, true, IfErr, OnOk};
ghost use Rattle.sd_base.specs.declared.place.Status.TheVariants as S;
ghost use Rattle.sd_fits.specs.Fits.{Fits};
ghost use Rattle.sd_fits.specs.Serving.{Serving};
ghost use Rattle.sd_model.specs.declared.event.Event.TheVariants as event;
ghost use Rattle.sd_model.specs.declared.event.Reply.TheVariants as reply;
ghost use Rattle.sd_state.specs.Complexes.{parts};
ghost use Rattle.sd_state.specs.Parts.{is_loose, status_at};
ghost use Rattle.sd_recover.specs.Rebuilding.{LeavesLost};
ghost use Rattle.sd_recover.specs.Doing.{Does};
ghost use Rattle.sd_recover.specs.Recovering.{SettlesOne};
ghost use Rattle.sd_recover.specs.declared.tasks.Task.TheVariants as task;
ghost use Rattle.sd_world.specs.Serving.{Core, answered, telling};

use sd_base::{InstNo, Refusal};
use sd_moves::{Unsettled, settle};
use sd_rig::Rig;
use sd_state::Complex;

// A step of the recovery of an instance: its recoverer settles the lowest device that isn't settled. The device is synced; of a log
// its instance has then what was read of it again. What the devices read stays. `Memory` changes nothing. `Failed` comes where a
// device failed: after a read nothing has changed, after the sync the recoverer has fallen.
pub(crate) fn settle_next<G: Rig>(
    c: &mut Complex<G>,
    i: InstNo,
    by: InstNo,
    dev: u8,
) -> Result<(), Refusal>
    requires fits { (w : Core) × Fits (G.seen c.old.rig) (G.leaves c.old.rig) (parts c.old) w }
    requires recovers { status_at (parts c.old) i ≡ S.Recovering by }
    requires device { dev ≤ 8 }
    requires loose { is_loose (parts c.old) dev ≡ true }
    requires lowest { (d : ℕ) → d < dev → is_loose (parts c.old) d ≡ false }
    ensures served { Serving (telling G.seen G.leaves G.moment G.since G.faults) (event.RecoverStep i)
        (answered (λ _. reply.Step) result) c.old c.new }
    ensures settled { OnOk result (SettlesOne dev (parts c.old) (parts c.new)) }
    ensures did { OnOk result (Does i by (G.seen c.old.rig) (G.seen c.new.rig) (task.Settle dev) (parts c.old) (parts c.new)) }
    ensures left { IfErr result (λ n. LeavesLost (G.seen c.new.rig) (G.leaves c.new.rig) dev n by (parts c.old) (parts c.new)) }
    ensures reads { (d : ℕ) → G.seen c.new.rig d ≡ G.seen c.old.rig d }
{
    i.keeps();
    by.keeps();
    c.txns(i).keeps();
    match settle(c, dev, by) {
        Ok(()) => {
            c.txns(i).keeps();
            Ok(())
        }
        Err(Unsettled::Unsynced) => Err(Refusal::Failed),
        Err(Unsettled::Unread) => Err(Refusal::Failed),
        Err(Unsettled::Memory) => Err(Refusal::Memory),
    }
}
