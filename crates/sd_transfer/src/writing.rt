//! A page is written to the data device.

ghost use Rattle.std.specs.Prelude.{◌≡◌, ◌≢◌, ◌⊎◌, ◌+◌, ◌≤◌, true, false, [], Err, IfErr, OnErr, OnOk};
ghost use Rattle.sd_base.specs.declared.place.Status.TheVariants as S;
ghost use Rattle.sd_base.specs.declared.refusal.Refusal.TheVariants as R;
ghost use Rattle.sd_fits.specs.Fits.{Fits};
ghost use Rattle.sd_fits.specs.Resting.{LeavesRest};
ghost use Rattle.sd_fits.specs.Serving.{Serving};
ghost use Rattle.sd_model.specs.declared.event.Event.TheVariants as event;
ghost use Rattle.sd_moves.specs.Putting.{with_loose_disk};
ghost use Rattle.sd_pagelock.specs.Directory.{entry_at};
ghost use Rattle.sd_pagelock.specs.Places.{seen};
ghost use Rattle.sd_pagelock.specs.Rows as rows;
ghost use Rattle.sd_state.specs.Complexes.{parts};
ghost use Rattle.sd_state.specs.Parts.{is_loose, log_at, status_at, IsShape};
ghost use Rattle.sd_world.specs.Pages.{is_duty};
ghost use Rattle.sd_world.specs.Serving.{Core, did, telling};
ghost use Rattle.sd_transfer.specs.Forcing.{force_calls};
ghost use Rattle.sd_transfer.specs.Writing.{put_calls, write_calls, IsPut, IsUnput, IsUnread, IsWriters, IsWritten, StaysUnwritten, WriteTouches};

use crate::barring::place_for;
use crate::forcing::force_or_fall;
use sd_base::{InstNo, PageNo, Place, Refusal};
use sd_moves::{Unput, down, put_page};
use sd_pagelock::rows;
use sd_rig::Rig;
use sd_state::Complex;

/// Writes the newest version of a page to the data device, where the device may lack it; the log of the instance, which has the
/// page alone or is its writer, is forced before. Once the answer is `Ok` whatever a crash leaves of the page is its newest
/// version. It takes no memory, and a page that isn't changed takes no call of a device; any other takes those of the force, and seven
/// writes and syncs at most.
///
/// `Down` comes where the instance isn't active, `Lost` where the page is lost, and `NeedPage` where its write isn't the
/// instance's: the first of these that applies, which changes nothing. `Failed` comes where a device failed. The instance has
/// fallen then, unless it was a read that failed: its log is forced then, the data device settled, and all else as it was. It falls
/// only where its log or the data device isn't settled behind it, as a write or a sync that fails leaves them, and a read doesn't;
/// where the log has nothing to force, only for the data device.
pub fn write_page<G: Rig>(c: &mut Complex<G>, i: InstNo, p: PageNo) -> Result<(), Refusal>
    requires fits { (w : Core) × Fits (G.seen c.old.rig) (G.leaves c.old.rig) (parts c.old) w }
    ensures served { Serving (telling G.seen G.leaves G.moment G.since G.faults) (event.Flush i p) (did result) c.old c.new }
    ensures there { result ≢ Err R.Memory }
    ensures written { OnOk result (IsWritten p (G.seen c.new.rig) (G.leaves c.new.rig) (parts c.new)) }
    ensures failed { result ≡ Err R.Failed
        → (status_at (parts c.new) i ≡ S.Down) ⊎ IsUnread i (parts c.old) (parts c.new) }
    ensures spared { result ≡ Err R.Failed → force_calls i (parts c.old) ≡ 0
        → status_at (parts c.new) i ≡ S.Down → is_loose (parts c.new) 0 ≡ true }
    ensures unsettled { result ≡ Err R.Failed → status_at (parts c.new) i ≡ S.Down
        → (is_loose (parts c.new) 0 ≡ true) ⊎ (is_loose (parts c.new) i ≡ true) }
    ensures clean { rows.may_write (entry_at (parts c.old).directory p) ≡ false
        → (parts c.new ≡ parts c.old) × (c.new.rig ≡ c.old.rig) }
    ensures refused { IfErr result (λ n. n ≢ R.Failed → (parts c.new ≡ parts c.old) × (c.new.rig ≡ c.old.rig)) }
    ensures untouched { WriteTouches i p result (parts c.old) (parts c.new) }
    ensures rest { LeavesRest (parts c.old) (parts c.new) }
    ensures tick { OnOk result (G.moment c.new.rig ≤ G.moment c.old.rig + write_calls i p (parts c.old)) }
{
    i.keeps();
    may_put(c, i, p)?;
    c.directory.keeps();
    if !is_changed(c, p) {
        return Ok(());
    }
    // No page comes to the device before the records that changed it.
    force_or_fall(c, i)?;
    put_or_fall(c, i, p)
}

// Why a page isn't written for an instance, the first cause that applies.
fn may_put<G: Rig>(c: &Complex<G>, i: InstNo, p: PageNo) -> Result<(), Refusal>
    requires { IsShape (parts c.now) }
    ensures may { OnOk result (IsWriters (parts c.now) i p) }
    ensures refused { IfErr result (λ n. StaysUnwritten (parts c.now) i p n) }
{
    let place = place_for(c, i, p)?;
    if !is_duty(i, &place) {
        return Err(Refusal::NeedPage { place });
    }
    Ok(())
}

// Whether the page rests, changed.
fn is_changed<G: Rig>(c: &Complex<G>, p: PageNo) -> bool
    ensures { result ≡ rows.may_write (entry_at (parts c.now).directory p) }
{
    rows::may_write(&c.entry(p))
}

// Whether the write of a page is the instance's: it has the page alone, or is the writer.
fn is_duty(i: InstNo, place: &Place) -> bool
    ensures { result ≡ is_duty i (seen place.now) }
{
    match *place {
        Place::Shared { writer, .. } => match writer {
            Some(writer) => writer == i,
            None => false,
        },
        Place::Excl { holder, .. } => holder == i,
        _ => false,
    }
}

// Puts a changed page, whose records are forced, onto the data device, or makes the instance fall where a write fails.
fn put_or_fall<G: Rig>(c: &mut Complex<G>, i: InstNo, p: PageNo) -> Result<(), Refusal>
    requires fits { (w : Core) × Fits (G.seen c.old.rig) (G.leaves c.old.rig) (parts c.old) w }
    requires may { IsWriters (parts c.old) i p }
    requires changed { rows.may_write (entry_at (parts c.old).directory p) ≡ true }
    requires forced { is_loose (parts c.old) i ≡ false → (log_at (parts c.old) i).tail ≡ [] }
    ensures served { Serving (telling G.seen G.leaves G.moment G.since G.faults) (event.Flush i p) (did result) c.old c.new }
    ensures there { result ≢ Err R.Memory }
    ensures written { OnOk result (IsWritten p (G.seen c.new.rig) (G.leaves c.new.rig) (parts c.new)) }
    ensures failed { result ≡ Err R.Failed
        → (status_at (parts c.new) i ≡ S.Down) ⊎ (parts c.new ≡ with_loose_disk false (parts c.old)) }
    ensures spared { result ≡ Err R.Failed → status_at (parts c.new) i ≡ S.Down → is_loose (parts c.new) 0 ≡ true }
    ensures only { IfErr result (λ n. n ≡ R.Failed) }
    ensures put { OnOk result (IsPut p (parts c.old) (parts c.new)) }
    ensures unput { OnErr result (IsUnput i (parts c.old) (parts c.new)) }
    ensures rest { LeavesRest (parts c.old) (parts c.new) }
    ensures tick { OnOk result (G.moment c.new.rig ≤ G.moment c.old.rig + put_calls (parts c.old)) }
{
    i.keeps();
    c.directory.keeps();
    match put_page(c, p, i) {
        Ok(()) => Ok(()),
        Err(Unput::Unread) => Err(Refusal::Failed),
        Err(Unput::Unwritten) => {
            down(c, i);
            Err(Refusal::Failed)
        }
    }
}
