//! The recovery of an instance begins.

ghost use Rattle.std.specs.Prelude.{◌≡◌, ◌≢◌, ◌⊎◌, Err, IfErr, OnErr, OnOk};
ghost use Rattle.sd_base.specs.declared.place.Status.TheVariants as S;
ghost use Rattle.sd_base.specs.declared.refusal.Refusal.TheVariants as R;
ghost use Rattle.sd_fits.specs.Fits.{Fits};
ghost use Rattle.sd_fits.specs.Serving.{Serving};
ghost use Rattle.sd_model.specs.declared.event.Event.TheVariants as event;
ghost use Rattle.sd_state.specs.Complexes.{parts};
ghost use Rattle.sd_state.specs.Parts.{status_at, IsShape};
ghost use Rattle.sd_state.specs.Recovering.{with_recovering};
ghost use Rattle.sd_recover.specs.Recovering.{MayNotBegin};
ghost use Rattle.sd_world.specs.Serving.{Core, did, telling};

use sd_base::{InstNo, Refusal, Status};
use sd_rig::Rig;
use sd_state::Complex;
use sd_update::recovering;

/// The recovery of an instance that is down begins, by itself or by one that is up. Its log and the data device count as unsettled
/// from then on. It takes no memory, and calls no device.
///
/// `NotDown` comes where it isn't down, and tells how it stands; then `Down` where another is to recover it that isn't up. A refusal
/// changes nothing.
pub fn recover_begin<G: Rig>(c: &mut Complex<G>, i: InstNo, by: InstNo) -> Result<(), Refusal>
    requires fits { (w : Core) × Fits (G.seen c.old.rig) (G.leaves c.old.rig) (parts c.old) w }
    ensures served { Serving (telling G.seen G.leaves G.moment G.since G.faults) (event.RecoverBegin i by) (did result) c.old c.new }
    ensures begun { OnOk result (parts c.new ≡ with_recovering i by (parts c.old)) }
    ensures refused { OnErr result (parts c.new ≡ parts c.old) }
    ensures there { result ≢ Err R.Memory }
    ensures rig { c.new.rig ≡ c.old.rig }
{
    i.keeps();
    by.keeps();
    may_begin(c, i, by)?;
    recovering(c, i, by);
    Ok(())
}

// Whether it may begin.
fn may_begin<G>(c: &Complex<G>, i: InstNo, by: InstNo) -> Result<(), Refusal>
    requires { IsShape (parts c.now) }
    ensures down { OnOk result (status_at (parts c.now) i ≡ S.Down) }
    ensures recoverer { OnOk result ((by ≡ i) ⊎ (status_at (parts c.now) by ≡ S.Up)) }
    ensures refused { IfErr result (λ n. MayNotBegin (parts c.now) i by n) }
{
    let status = c.status(i);
    if status != Status::Down {
        return Err(Refusal::NotDown { status });
    }
    if by != i && c.status(by) != Status::Up {
        return Err(Refusal::Down);
    }
    Ok(())
}
