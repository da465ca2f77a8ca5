//! An instance joins.

ghost use Rattle.std.specs.Prelude.{◌≡◌, ◌≢◌, ◌⊎◌, ◌+◌, Err, IfErr, OnOk};
ghost use Rattle.sd_base.specs.declared.place.Status.TheVariants as S;
ghost use Rattle.sd_fits.specs.Fits.{Fits};
ghost use Rattle.sd_base.specs.declared.refusal.Refusal.TheVariants as R;
ghost use Rattle.sd_fits.specs.Serving.{Serving};
ghost use Rattle.sd_fits.specs.Untouched.{FallTouches, IsUntouched, none_of, only};
ghost use Rattle.sd_model.specs.declared.event.Event.TheVariants as event;
ghost use Rattle.sd_state.specs.Complexes.{parts};
ghost use Rattle.sd_state.specs.Parts.{status_at, IsShape};
ghost use Rattle.sd_recover.specs.Joining.{MayStart, StaysOut};
ghost use Rattle.sd_world.specs.Serving.{Core, joined_reply, telling};

use sd_base::{InstNo, Refusal, Status};
use sd_moves::down;
use sd_rig::Rig;
use sd_state::Complex;
use sd_update::seal_start;

/// An instance that has nothing to recover comes up, and answers the epoch in which it is: the Start of that epoch is forced.
///
/// `NotDown` comes where it is up, `NotRecovered` where it is still to be recovered; `LogFull` where its log has no room for the
/// Start, `LsnEnd` where no LSN or no epoch is left: the first of these that applies. None of them changes anything or calls a device;
/// nor does `Memory`. After `Failed` of the force the instance is down, and the epoch may have begun. A join that is Ok makes four
/// calls that write or sync.
pub fn join<G: Rig>(c: &mut Complex<G>, i: InstNo) -> Result<u32, Refusal>
    requires fits { (w : Core) × Fits (G.seen c.old.rig) (G.leaves c.old.rig) (parts c.old) w }
    ensures served { Serving (telling G.seen G.leaves G.moment G.since G.faults) (event.Join i) (joined_reply result) c.old c.new }
    ensures untouched { OnOk result (IsUntouched none_of none_of (parts c.old) (parts c.new)) }
    ensures tick { OnOk result (G.moment c.new.rig ≡ G.moment c.old.rig + 4) }
    ensures fell { result ≡ Err R.Failed → FallTouches i (only i) none_of (parts c.old) (parts c.new) }
    ensures refused { IfErr result (λ n. n ≢ R.Failed → (parts c.new ≡ parts c.old) × (c.new.rig ≡ c.old.rig)) }
{
    i.keeps();
    may_start(c, i)?;
    let epoch = seal_start(c, i)?;
    match c.force_log(i) {
        Ok(()) => {
            c.joined(i);
            Ok(epoch)
        }
        Err(_) => {
            down(c, i);
            Err(Refusal::Failed)
        }
    }
}

// Why an instance may not join, as far as its status says.
fn may_start<G>(c: &Complex<G>, i: InstNo) -> Result<(), Refusal>
    requires { IsShape (parts c.now) }
    ensures waits { OnOk result (MayStart (status_at (parts c.now) i)) }
    ensures refused { IfErr result (λ n. StaysOut (parts c.now) i n) }
{
    let status = c.status(i);
    match status {
        Status::Clean | Status::Restarting => Ok(()),
        Status::Up => Err(Refusal::NotDown { status }),
        Status::Down | Status::Recovering { .. } | Status::Closed => Err(Refusal::NotRecovered {
            status,
        }),
    }
}
