//! An instance gives a page to the one whose ask of another is the oldest.

ghost use Rattle.std.specs.Prelude.{◌≡◌, ◌≢◌, ◌+◌, ℕ, true, false, Err, IfErr, IfOk, None, OnErr, OnOk, Some};
ghost use Rattle.sd_base.specs.declared.place.Status.TheVariants as S;
ghost use Rattle.sd_base.specs.declared.refusal.Refusal.TheVariants as R;
ghost use Rattle.sd_fits.specs.Fits.{Fits};
ghost use Rattle.sd_fits.specs.Resting.{LeavesRest};
ghost use Rattle.sd_fits.specs.Serving.{Serving};
ghost use Rattle.sd_fits.specs.Untouched.{none_of, only, IsUntouched};
ghost use Rattle.sd_model.specs.State.{State};
ghost use Rattle.sd_model.specs.declared.event.Event.{Event};
ghost use Rattle.sd_model.specs.declared.event.Event.TheVariants as event;
ghost use Rattle.sd_model.specs.declared.event.Reply.TheVariants as reply;
ghost use Rattle.sd_moves.specs.Passing.{may_set_out};
ghost use Rattle.sd_pagelock.specs.Directory.{entry_at};
ghost use Rattle.sd_pagelock.specs.Places.{owns, seen};
ghost use Rattle.sd_pagelock.specs.Rows as rows;
ghost use Rattle.sd_rig.specs.Devices.{LeavesSame};
ghost use Rattle.sd_state.specs.Complexes.{parts};
ghost use Rattle.sd_state.specs.Good.{Good};
ghost use Rattle.sd_state.specs.Locking.{IsSet};
ghost use Rattle.sd_state.specs.Parts.{is_active, pool_at, status_at, IsShape};
ghost use Rattle.sd_state.specs.Values.{Pending};
ghost use Rattle.sd_transfer.specs.Giving.{give_calls, IsForcedFor, IsUngiven, MayGive, MayLeave};
ghost use Rattle.sd_transfer.specs.Paging.{OnlyPages};
ghost use Rattle.sd_world.specs.Pages.{given};
ghost use Rattle.sd_world.specs.Serving.{Core, gave, telling};
ghost use Rattle.sd_transfer.specs.Breaking.{BreaksBy};
ghost use Rattle.sd_transfer.specs.Forcing.{force_calls, OnlyLogs};
ghost use Rattle.sd_transfer.specs.Touching.{Touches};

use crate::barring::place_for;
use crate::force_or_fall;
use sd_base::{InstNo, Mode, PageNo, Place, Refusal};
use sd_moves::{drop_copy, move_copy, raise};
use sd_pagelock::rows;
use sd_rig::Rig;
use sd_state::Complex;

/// An instance gives a page to the one whose ask of another is the oldest, and answers who that is. The page sets out for it, and
/// the copies of a page that is to be shared stay. A copy that stands in the way of one who is to have the page alone is dropped,
/// while others have copies besides; where the asker alone is left with one, it has the page alone. An instance that has the page
/// alone forces its log before, unless the log isn't settled; one that shares it calls no device. It takes no memory, and leaves the
/// data device as it was, and RecLSNs.
///
/// `Down` comes where the instance isn't active, `Lost` where the page is lost, `MovingTo` where it is on its way, `NeedPage` where
/// the instance has no copy, and `NotAsked` where no other asks for it: the first of these that applies, which changes nothing.
/// `Failed` comes where the force failed; the instance has fallen then.
pub fn give<G: Rig>(c: &mut Complex<G>, j: InstNo, p: PageNo) -> Result<InstNo, Refusal>
    requires fits { (w : Core) × Fits (G.seen c.old.rig) (G.leaves c.old.rig) (parts c.old) w }
    ensures served { Serving (telling G.seen G.leaves G.moment G.since G.faults) (event.Give j p) (gave result) c.old c.new }
    ensures there { result ≢ Err R.Memory }
    ensures disk { G.seen c.new.rig 0 ≡ G.seen c.old.rig 0 }
    ensures disk_leaves { LeavesSame (G.leaves c.old.rig 0) (G.leaves c.new.rig 0) }
    ensures forced { OnOk result (IsForcedFor (parts c.old) j p (parts c.new)) }
    ensures down { result ≡ Err R.Failed → status_at (parts c.new) j ≡ S.Down }
    ensures refused { IfErr result (λ n. n ≢ R.Failed → (parts c.new ≡ parts c.old) × (c.new.rig ≡ c.old.rig)) }
    ensures untouched { Touches j (only j) result (parts c.old) (parts c.new) }
    ensures pools { OnOk result (MayLeave j p (parts c.old) (parts c.new)) }
    ensures rest { LeavesRest (parts c.old) (parts c.new) }
    ensures shared { owns (entry_at (parts c.old).directory p) j ≡ false → c.new.rig ≡ c.old.rig }
    ensures idle { force_calls j (parts c.old) ≡ 0 → c.new.rig ≡ c.old.rig }
    ensures tick { OnOk result (G.moment c.new.rig ≡ G.moment c.old.rig + give_calls j p (parts c.old)) }
{
    j.keeps();
    let (to, mode) = may_give(c, j, p)?;
    // What an instance changed leaves it only once its records are forced.
    force_owner(c, j, p)?;
    hand_over(c, j, p, to, mode);
    Ok(to)
}

// Who is given the page, and in which mode, or why it isn't given, the first cause that applies.
fn may_give<G: Rig>(c: &Complex<G>, j: InstNo, p: PageNo) -> Result<(InstNo, Mode), Refusal>
    requires { IsShape (parts c.now) }
    ensures may { IfOk result (λ asker. MayGive (parts c.now) j p asker.0 asker.1) }
    ensures refused { IfErr result (λ n. IsUngiven (parts c.now) j p n) }
{
    let place = place_for(c, j, p)?;
    if let Place::Moving { to, .. } = place {
        return Err(Refusal::MovingTo { to });
    }
    if !rows::holds(&place, j) {
        return Err(Refusal::NeedPage { place });
    }
    match c.directory.oldest_ask(p, j) {
        Some(asker) => Ok(asker),
        None => Err(Refusal::NotAsked),
    }
}

// Forces the log of an instance that has the page alone, or makes the instance fall where the device fails.
fn force_owner<G: Rig>(c: &mut Complex<G>, j: InstNo, p: PageNo) -> Result<(), Refusal>
    requires fits { (w : Core) × Fits (G.seen c.old.rig) (G.leaves c.old.rig) (parts c.old) w }
    requires active { is_active (parts c.old) j ≡ true }

    ensures spared { OnOk result ((e : Event) → Serving (telling G.seen G.leaves G.moment G.since G.faults) e None c.old c.new) }
    ensures forced { OnOk result (IsForcedFor (parts c.old) j p (parts c.new)) }
    ensures stays { OnOk result (OnlyLogs (parts c.old) (parts c.new)) }

    ensures untouched { Touches j none_of result (parts c.old) (parts c.new) }
    ensures rest { LeavesRest (parts c.old) (parts c.new) }

    ensures failed { OnErr result ((e : Event)
        → ((w : Core) → Fits (G.seen c.old.rig) (G.leaves c.old.rig) (parts c.old) w → BreaksBy j e w)
        → Serving (telling G.seen G.leaves G.moment G.since G.faults) e (Some (reply.Refused R.Failed)) c.old c.new) }
    ensures only { IfErr result (λ n. n ≡ R.Failed) }
    ensures down { OnErr result (status_at (parts c.new) j ≡ S.Down) }

    ensures disk { G.seen c.new.rig 0 ≡ G.seen c.old.rig 0 }
    ensures disk_leaves { LeavesSame (G.leaves c.old.rig 0) (G.leaves c.new.rig 0) }
    ensures shared { owns (entry_at (parts c.old).directory p) j ≡ false → c.new.rig ≡ c.old.rig }
    ensures idle { force_calls j (parts c.old) ≡ 0 → c.new.rig ≡ c.old.rig }
    ensures tick { OnOk result (G.moment c.new.rig ≡ G.moment c.old.rig + give_calls j p (parts c.old)) }
{
    if !rows::owns(&c.entry(p), j) {
        return Ok(());
    }
    force_or_fall(c, j)
}

// The page sets out for the asker, or the giver's copy goes.
fn hand_over<G: Rig>(c: &mut Complex<G>, j: InstNo, p: PageNo, to: InstNo, mode: Mode)
    requires good { (pend : Pending) × (m : State) × Good (G.seen c.old.rig) (G.leaves c.old.rig) pend (parts c.old) m }
    requires idle { (parts c.old).due ≡ None }
    requires may { MayGive (parts c.old) j p to mode }
    requires forced { IsForcedFor (parts c.old) j p (parts c.old) }
    ensures good { (pend : Pending) (m : State) → Good (G.seen c.old.rig) (G.leaves c.old.rig) pend (parts c.old) m
        → Good (G.seen c.new.rig) (G.leaves c.new.rig) pend (parts c.new) m }
    ensures pages { OnlyPages (parts c.old) (parts c.new) }
    ensures frames { (k : ℕ) → (pool_at (parts c.new) k).frames ≡ (pool_at (parts c.old) k).frames }
    ensures pools { MayLeave j p (parts c.old) (parts c.new) }
    ensures untouched { IsUntouched (only j) none_of (parts c.old) (parts c.new) }
    ensures rest { LeavesRest (parts c.old) (parts c.new) }
    ensures place { IsSet p (given j (to, mode) (entry_at (parts c.old).directory p)) None
        (parts c.old).directory (parts c.new).directory }
    ensures rig { c.new.rig ≡ c.old.rig }
{
    j.keeps();
    c.directory.keeps();
    if may_set_out(mode, to, &c.entry(p)) {
        move_copy(c, p, j, to, mode);
    } else {
        drop_for(c, p, j, to);
    }
}

// Whether the page may set out for an instance in this mode.
fn may_set_out(mode: Mode, to: InstNo, place: &Place) -> bool
    ensures { result ≡ may_set_out mode to (seen place.now) }
{
    match mode {
        Mode::Shared => rows::may_share(to, place),
        Mode::Excl => rows::may_yield(to, place),
    }
}

// The giver, who isn't the only holder, drops its copy for the asker, who has the page alone where nobody else is left.
fn drop_for<G: Rig>(c: &mut Complex<G>, p: PageNo, j: InstNo, to: InstNo)
    requires good { (pend : Pending) × (m : State) × Good (G.seen c.old.rig) (G.leaves c.old.rig) pend (parts c.old) m }
    requires idle { (parts c.old).due ≡ None }
    requires spare { rows.may_drop j (entry_at (parts c.old).directory p) ≡ true }
    ensures good { (pend : Pending) (m : State) → Good (G.seen c.old.rig) (G.leaves c.old.rig) pend (parts c.old) m
        → Good (G.seen c.new.rig) (G.leaves c.new.rig) pend (parts c.new) m }
    ensures pages { OnlyPages (parts c.old) (parts c.new) }
    ensures frames { (k : ℕ) → (pool_at (parts c.new) k).frames ≡ (pool_at (parts c.old) k).frames }
    ensures pools { MayLeave j p (parts c.old) (parts c.new) }
    ensures untouched { IsUntouched (only j) none_of (parts c.old) (parts c.new) }
    ensures rest { LeavesRest (parts c.old) (parts c.new) }
    ensures place { IsSet p (rows.dropped j to (entry_at (parts c.old).directory p)) None
        (parts c.old).directory (parts c.new).directory }
    ensures rig { c.new.rig ≡ c.old.rig }
{
    j.keeps();
    c.directory.keeps();
    drop_copy(c, p, j);
    c.directory.keeps();
    if !rows::may_raise(to, &c.entry(p)) {
        return;
    }
    raise(c, p, to);
}
