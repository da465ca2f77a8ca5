//! An instance asks for a page in a mode.

ghost use Rattle.std.specs.Prelude.{◌≡◌, ◌≢◌, ◌||◌, ◌&&◌, ℕ, ◌≤◌, true, false, [], Err, IfErr, IfOk, OnErr, OnOk, IsTrue, ◌↔◌};
ghost use Rattle.sd_base.specs.Sets.{members, without};
ghost use Rattle.sd_base.specs.declared.refusal.Refusal.TheVariants as R;
ghost use Rattle.sd_chain.specs.Bytes.{disk_page};
ghost use Rattle.sd_fits.specs.Fits.{Fits};
ghost use Rattle.sd_fits.specs.Resting.{LeavesRest};
ghost use Rattle.sd_fits.specs.Serving.{Serving};
ghost use Rattle.sd_fits.specs.Untouched.{none_of, only, IsUntouched};
ghost use Rattle.sd_model.specs.declared.event.Event.TheVariants as event;
ghost use Rattle.sd_model.specs.declared.event.Reply.TheVariants as reply;
ghost use Rattle.sd_pagelock.specs.Directory.{entry_at};
ghost use Rattle.sd_pagelock.specs.Places as places;
ghost use Rattle.sd_pagelock.specs.Places.{holds_as, is_free, seen, Formed, PageEntry};
ghost use Rattle.sd_pagelock.specs.Rows.{may_raise};
ghost use Rattle.sd_pool.specs.Buffers.{with_page, LacksFrame, IsPool};
ghost use Rattle.sd_rig.specs.Devices.{IsUnchanged};
ghost use Rattle.sd_state.specs.Complexes.{parts};
ghost use Rattle.sd_state.specs.Parts.{pool_at, IsShape};
ghost use Rattle.sd_transfer.specs.Asking.{IsUnserved, MayAsk};
ghost use Rattle.sd_transfer.specs.Touching.{once_done};
ghost use Rattle.sd_world.specs.Pages.{answerer, lowest_of};
ghost use Rattle.sd_world.specs.Serving.{Core, answered, had_or_asked, telling};

use crate::barring::place_for;
use sd_base::{InstNo, InstSet, Mode, PageNo, Place, Refusal};
use sd_moves::{queue_ask, raise};
use sd_pagelock::rows;
use sd_rig::Rig;
use sd_state::Complex;

/// An instance asks for a page in a mode. `None`: it has the page so now, since it had it, was its only holder, or the page was
/// in no pool and was read from the data device. Else whom it asked: the writer of the page where that is another, or the lowest
/// other holder. Devices are read at most, and none is marked; RecLSNs stay, and so does each pool but that into which the page is read.
/// It takes memory for a page that is read, and for an ask.
///
/// `Down` comes where the instance isn't active, `Lost` where the page is lost, `MovingTo` where it is on its way, `PoolFull`
/// where it was to be read and each frame of the instance holds another, and `Failed` where the read failed: the first of these
/// that applies. A refusal changes nothing that the world tells, and neither does `Memory`.
pub fn ask<G: Rig>(
    c: &mut Complex<G>,
    i: InstNo,
    p: PageNo,
    mode: Mode,
) -> Result<Option<InstNo>, Refusal>
    requires fits { (w : Core) × Fits (G.seen c.old.rig) (G.leaves c.old.rig) (parts c.old) w }
    ensures served { Serving (telling G.seen G.leaves G.moment G.since G.faults) (event.Ask i p mode)
        (answered had_or_asked result) c.old c.new }
    ensures there { (holds_as mode (entry_at (parts c.old).directory p) i || may_raise i (entry_at (parts c.old).directory p)) ≡ true
        → result ≢ Err R.Memory }
    ensures still { IsUnchanged (G.seen c.old.rig) (G.seen c.new.rig) (G.leaves c.old.rig) (G.leaves c.new.rig)
        (G.moment c.old.rig) (G.moment c.new.rig) (G.since c.old.rig) (G.since c.new.rig) }
    ensures untouched { IsUntouched (once_done result (λ j. is_free (entry_at (parts c.old).directory p) && only i j)) none_of
        (parts c.old) (parts c.new) }
    ensures pool { entry_at (parts c.old).directory p ≡ PageEntry.Free → OnOk result (pool_at (parts c.new) i
        ≡ with_page (pool_at (parts c.old) i) p (disk_page (G.seen c.old.rig 0) p)) }
    ensures rest { LeavesRest (parts c.old) (parts c.new) }
{
    i.keeps();
    let place = may_ask(c, i, p)?;
    if rows::holds_as(mode, &place, i) {
        return Ok(None);
    }
    if rows::is_free(&place) {
        fetch(c, i, p, mode)?;
        return Ok(None);
    }
    c.directory.keeps();
    if rows::may_raise(i, &place) {
        raise(c, p, i);
        return Ok(None);
    }
    let of = answerer(i, &place);
    queue_ask(c, i, p, mode)?;
    Ok(Some(of))
}

// The page's place, or why no instance, or not this one, is served it.
fn may_ask<G: Rig>(c: &Complex<G>, i: InstNo, p: PageNo) -> Result<Place, Refusal>
    requires { IsShape (parts c.now) }
    ensures place { IfOk result (λ place. seen place ≡ entry_at (parts c.now).directory p) }
    ensures may { OnOk result (MayAsk (parts c.now) i p) }
    ensures refused { IfErr result (λ n. IsUnserved (parts c.now) i p n) }
{
    let place = place_for(c, i, p)?;
    match place {
        Place::Moving { to, .. } => Err(Refusal::MovingTo { to }),
        _ => Ok(place),
    }
}

// A page that no pool has is read into the pool of an instance.
fn fetch<G: Rig>(c: &mut Complex<G>, i: InstNo, p: PageNo, mode: Mode) -> Result<(), Refusal>
    requires fits { (w : Core) × Fits (G.seen c.old.rig) (G.leaves c.old.rig) (parts c.old) w }
    requires may { MayAsk (parts c.old) i p }
    requires free { entry_at (parts c.old).directory p ≡ PageEntry.Free }
    ensures served { Serving (telling G.seen G.leaves G.moment G.since G.faults) (event.Ask i p mode)
        (answered (λ x. reply.Have) result) c.old c.new }
    ensures still { IsUnchanged (G.seen c.old.rig) (G.seen c.new.rig) (G.leaves c.old.rig) (G.leaves c.new.rig)
        (G.moment c.old.rig) (G.moment c.new.rig) (G.since c.old.rig) (G.since c.new.rig) }
    ensures stays { OnErr result (parts c.new ≡ parts c.old) }
    ensures untouched { OnOk result (IsUntouched (only i) none_of (parts c.old) (parts c.new)) }
    ensures pool { OnOk result (pool_at (parts c.new) i
        ≡ with_page (pool_at (parts c.old) i) p (disk_page (G.seen c.old.rig 0) p)) }
    ensures rest { LeavesRest (parts c.old) (parts c.new) }
{
    i.keeps();
    if lacks_frame(c, i, p) {
        return Err(Refusal::PoolFull);
    }
    c.directory.keeps();
    let image = c.read_disk(p)?;
    c.lock_free(p, i, mode, image)?;
    Ok(())
}

/// Whether the pool of an instance has no frame for the page.
pub(crate) fn lacks_frame<G: Rig>(c: &Complex<G>, i: InstNo, p: PageNo) -> bool
    requires { IsShape (parts c.now) }
    ensures full { IsTrue result ↔ LacksFrame (pool_at (parts c.now) i) p }
    ensures pool { IsPool (pool_at (parts c.now) i) }
    ensures past { (q : ℕ) → 1024 ≤ q → entry_at (parts c.now).directory q ≡ PageEntry.Free }
{
    c.directory.keeps();
    let pool = &c.pools[i.get() as usize - 1];
    pool.keeps();
    pool.lacks_frame(p)
}

// Whom an instance asks for a page that others have: the writer, where that is another, else the lowest other holder.
fn answerer(i: InstNo, place: &Place) -> InstNo
    requires formed { Formed (seen place.now) }
    requires rests { places.rests (seen place.now) ≡ true }
    requires others { may_raise i (seen place.now) ≡ false }
    ensures { result ≡ answerer i (seen place.now) }
{
    match *place {
        Place::Shared { set, writer } => match writer {
            Some(writer) if writer != i => writer,
            _ => lowest_other(i, set),
        },
        Place::Excl { holder, .. } => holder,
        _ => unreachable!(),
    }
}

// The lowest of a set but one, where there is another.
fn lowest_other(i: InstNo, set: InstSet) -> InstNo
    requires { without i (members set.bits) ≢ [] }
    ensures { result ≡ lowest_of (without i (members set.bits)) }
{
    set.without(i).first().unwrap()
}
