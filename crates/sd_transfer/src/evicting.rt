//! An instance gives up its copy of a page, so that its pool has a frame for another.

ghost use Rattle.std.specs.Prelude.{◌≡◌, ◌≢◌, true, Err, IfErr, OnErr, OnOk};
ghost use Rattle.sd_base.specs.declared.refusal.Refusal.TheVariants as R;
ghost use Rattle.sd_fits.specs.Fits.{Fits};
ghost use Rattle.sd_fits.specs.Resting.{LeavesRest};
ghost use Rattle.sd_fits.specs.Serving.{Serving};
ghost use Rattle.sd_fits.specs.Untouched.{none_of, only, IsUntouched};
ghost use Rattle.sd_model.specs.declared.event.Event.TheVariants as event;
ghost use Rattle.sd_pagelock.specs.Directory.{entry_at};
ghost use Rattle.sd_pagelock.specs.Rows.{may_evict};
ghost use Rattle.sd_pool.specs.Buffers.{without_page};
ghost use Rattle.sd_state.specs.Complexes.{parts};
ghost use Rattle.sd_state.specs.Parts.{is_active, pool_at, IsShape};
ghost use Rattle.sd_transfer.specs.Evicting.{StaysFor};
ghost use Rattle.sd_transfer.specs.Touching.{once_done};
ghost use Rattle.sd_world.specs.Serving.{Core, did, telling};

use crate::barring::place_for;
use sd_base::{InstNo, PageNo, Refusal};
use sd_moves::drop_copy;
use sd_pagelock::rows;
use sd_rig::Rig;
use sd_state::Complex;

/// The copy that an instance has of a page leaves its pool, where the other pages stay in their order. It takes no memory, calls no
/// device and marks none, and leaves RecLSNs as they were.
///
/// `Down` comes where the instance isn't active, `Lost` where the page is lost, `NeedPage` where the instance has no copy, and
/// `Dirty` where it alone has the page's changes: the first of these that applies. A refusal changes nothing.
pub fn evict<G: Rig>(c: &mut Complex<G>, i: InstNo, p: PageNo) -> Result<(), Refusal>
    requires fits { (w : Core) × Fits (G.seen c.old.rig) (G.leaves c.old.rig) (parts c.old) w }
    ensures served { Serving (telling G.seen G.leaves G.moment G.since G.faults) (event.Evict i p) (did result) c.old c.new }
    ensures there { result ≢ Err R.Memory }
    ensures rig { c.new.rig ≡ c.old.rig }
    ensures refused { OnErr result (parts c.new ≡ parts c.old) }
    ensures untouched { IsUntouched (once_done result (only i)) none_of (parts c.old) (parts c.new) }
    ensures pool { OnOk result (pool_at (parts c.new) i ≡ without_page (pool_at (parts c.old) i) p) }
    ensures rest { LeavesRest (parts c.old) (parts c.new) }
{
    i.keeps();
    may_go(c, i, p)?;
    c.directory.keeps();
    drop_copy(c, p, i);
    Ok(())
}

// Why the copy of an instance may not leave its pool, the first cause that applies.
fn may_go<G: Rig>(c: &Complex<G>, i: InstNo, p: PageNo) -> Result<(), Refusal>
    requires { IsShape (parts c.now) }
    ensures active { OnOk result (is_active (parts c.now) i ≡ true) }
    ensures spare { OnOk result (may_evict i (entry_at (parts c.now).directory p) ≡ true) }
    ensures refused { IfErr result (λ n. StaysFor (parts c.now) i p n) }
{
    let place = place_for(c, i, p)?;
    if !rows::holds(&place, i) {
        return Err(Refusal::NeedPage { place });
    }
    if !rows::may_evict(i, &place) {
        return Err(Refusal::Dirty);
    }
    Ok(())
}
