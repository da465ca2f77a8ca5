//! The devices are armed: which of their coming calls fail.

ghost use Rattle.std.specs.Prelude.{◌≡◌, Some};
ghost use Rattle.sd_fits.specs.Fits.{Fits};
ghost use Rattle.sd_fits.specs.Serving.{Serving};
ghost use Rattle.sd_model.specs.declared.event.Event.TheVariants as event;
ghost use Rattle.sd_model.specs.declared.event.Reply.TheVariants as reply;
ghost use Rattle.sd_rig.specs.Devices.{IsUnchanged};
ghost use Rattle.sd_state.specs.Complexes.{parts};
ghost use Rattle.sd_world.specs.Serving.{Core, telling};

use sd_base::Trouble;
use sd_rig::Rig;
use sd_state::Complex;

/// Arms the devices: this trouble meets their coming calls, in place of any that was armed. It is never refused, takes no memory
/// and calls no device; of the complex nothing changes.
pub fn arm<G: Rig>(c: &mut Complex<G>, trouble: Trouble)
    requires fits { (w : Core) × Fits (G.seen c.old.rig) (G.leaves c.old.rig) (parts c.old) w }
    ensures served { Serving (telling G.seen G.leaves G.moment G.since G.faults) (event.Arm trouble) (Some reply.Did) c.old c.new }
    ensures still { IsUnchanged (G.seen c.old.rig) (G.seen c.new.rig) (G.leaves c.old.rig) (G.leaves c.new.rig)
        (G.moment c.old.rig) (G.moment c.new.rig) (G.since c.old.rig) (G.since c.new.rig) }
    ensures parts { parts c.new ≡ parts c.old }
{
    c.rig.arm(trouble);
}
