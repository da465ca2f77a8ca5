//! An instance fails.

ghost use Rattle.std.specs.Prelude.{◌≡◌, ◌≢◌, Err, OnErr, OnOk};
ghost use Rattle.sd_base.specs.declared.refusal.Refusal.TheVariants as R;
ghost use Rattle.sd_fits.specs.Fits.{Fits};
ghost use Rattle.sd_fits.specs.Serving.{Serving};
ghost use Rattle.sd_fits.specs.Untouched.{FallTouches, none_of};
ghost use Rattle.sd_model.specs.declared.event.Event.TheVariants as event;
ghost use Rattle.sd_state.specs.Complexes.{parts};
ghost use Rattle.sd_world.specs.Serving.{Core, did, telling};

use sd_base::{InstNo, Refusal};
use sd_moves::down;
use sd_rig::Rig;
use sd_state::Complex;

/// An instance falls, and with it all that it has in memory: its pool, its asks, the waits of its transactions, which are losers
/// from then on, the tail of its log, and the checkpoint that it has begun. Whoever it was recovering is down again. No device counts as
/// unsettled that didn't, but the log of one that wasn't up and has a tail. It takes no memory, and calls no device.
///
/// `Down` comes where the instance isn't active. A refusal changes nothing.
pub fn fail<G: Rig>(c: &mut Complex<G>, i: InstNo) -> Result<(), Refusal>
    requires fits { (w : Core) × Fits (G.seen c.old.rig) (G.leaves c.old.rig) (parts c.old) w }
    ensures served { Serving (telling G.seen G.leaves G.moment G.since G.faults) (event.Fail i) (did result) c.old c.new }
    ensures fell { OnOk result (FallTouches i none_of none_of (parts c.old) (parts c.new)) }
    ensures refused { OnErr result (parts c.new ≡ parts c.old) }
    ensures there { result ≢ Err R.Memory }
    ensures rig { c.new.rig ≡ c.old.rig }
{
    i.keeps();
    if !c.status(i).is_active(i) {
        return Err(Refusal::Down);
    }
    down(c, i);
    Ok(())
}
