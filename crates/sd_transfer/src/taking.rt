//! An instance takes what moves to it of a page.

ghost use Rattle.std.specs.Prelude.{◌≡◌, IfErr, OnOk};
ghost use Rattle.sd_fits.specs.Fits.{Fits};
ghost use Rattle.sd_fits.specs.Resting.{LeavesRest};
ghost use Rattle.sd_fits.specs.Serving.{Serving};
ghost use Rattle.sd_fits.specs.Untouched.{none_of, only, IsUntouched};
ghost use Rattle.sd_model.specs.declared.event.Event.TheVariants as event;
ghost use Rattle.sd_pool.specs.Buffers.{with_page};
ghost use Rattle.sd_state.specs.Complexes.{parts};
ghost use Rattle.sd_state.specs.Laws.{newest_of};
ghost use Rattle.sd_state.specs.Parts.{pool_at, IsShape};
ghost use Rattle.sd_transfer.specs.Taking.{IsUntaken, MayTake};
ghost use Rattle.sd_transfer.specs.Touching.{once_done};
ghost use Rattle.sd_world.specs.Serving.{Core, did, telling};

use crate::asking::lacks_frame;
use crate::barring::place_for;
use sd_base::{InstNo, PageNo, Refusal};
use sd_moves::take_copy;
use sd_pagelock::rows;
use sd_rig::Rig;
use sd_state::Complex;

/// What moves to an instance of a page comes into its pool; the page is then the last used. No device is called or marked, and RecLSNs
/// stay. It takes memory for the frame.
///
/// `Down` comes where the instance isn't active, `Lost` where the page is lost, `NeedPage` where the page doesn't move to the
/// instance, and `PoolFull` where each of its frames holds another: the first of these that applies. A refusal changes nothing, and
/// after `Memory` the page moves still.
pub fn take<G: Rig>(c: &mut Complex<G>, i: InstNo, p: PageNo) -> Result<(), Refusal>
    requires fits { (w : Core) × Fits (G.seen c.old.rig) (G.leaves c.old.rig) (parts c.old) w }
    ensures served { Serving (telling G.seen G.leaves G.moment G.since G.faults) (event.Take i p) (did result) c.old c.new }
    ensures rig { c.new.rig ≡ c.old.rig }
    ensures untouched { IsUntouched (once_done result (only i)) none_of (parts c.old) (parts c.new) }
    ensures pool { OnOk result (pool_at (parts c.new) i
        ≡ with_page (pool_at (parts c.old) i) p (newest_of (G.seen c.old.rig) (G.leaves c.old.rig) (parts c.old) p)) }
    ensures rest { LeavesRest (parts c.old) (parts c.new) }
{
    i.keeps();
    may_take(c, i, p)?;
    c.directory.keeps();
    if lacks_frame(c, i, p) {
        return Err(Refusal::PoolFull);
    }
    take_copy(c, p, i)?;
    Ok(())
}

// Why an instance doesn't take a page, the first cause that applies.
fn may_take<G: Rig>(c: &Complex<G>, i: InstNo, p: PageNo) -> Result<(), Refusal>
    requires { IsShape (parts c.now) }
    ensures may { OnOk result (MayTake (parts c.now) i p) }
    ensures refused { IfErr result (λ n. IsUntaken (parts c.now) i p n) }
{
    let place = place_for(c, i, p)?;
    if !rows::receives(&place, i) {
        return Err(Refusal::NeedPage { place });
    }
    Ok(())
}
