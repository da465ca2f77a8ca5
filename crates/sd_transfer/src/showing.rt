//! Where a page is, and how new it is.

ghost use Rattle.std.specs.Prelude.{◌≡◌, true, Some};
ghost use Rattle.sd_fits.specs.Fits.{Fits};
ghost use Rattle.sd_fits.specs.Serving.{Serving};
ghost use Rattle.sd_model.specs.State.{State};
ghost use Rattle.sd_model.specs.declared.event.Event.TheVariants as event;
ghost use Rattle.sd_model.specs.declared.event.Reply.TheVariants as reply;
ghost use Rattle.sd_pagelock.specs.Directory.{entry_at};
ghost use Rattle.sd_pagelock.specs.Places.{holds, passes, seen};
ghost use Rattle.sd_state.specs.Complexes.{parts};
ghost use Rattle.sd_state.specs.Good.{Good};
ghost use Rattle.sd_state.specs.Laws.{newest_of};
ghost use Rattle.sd_state.specs.Values.{Pending};
ghost use Rattle.sd_world.specs.Pages.{number_shown};
ghost use Rattle.sd_world.specs.Serving.{Core, telling};

use sd_base::{InstNo, Lsn, PageNo, Place};
use sd_rig::Rig;
use sd_state::Complex;

/// Where a page is, and the LSN of its newest version: 0 where no pool has it and it isn't on its way. It is never refused, calls
/// no device and takes no memory.
pub fn show<G: Rig>(c: &Complex<G>, p: PageNo) -> (Place, Lsn)
    requires fits { (w : Core) × Fits (G.seen c.now.rig) (G.leaves c.now.rig) (parts c.now) w }
    ensures served { Serving (telling G.seen G.leaves G.moment G.since G.faults) (event.Show p)
        (Some (reply.Shown result.0 result.1)) c.now c.now }
{
    let place = c.entry(p);
    let lsn = newest_lsn(c, p, &place);
    (place, lsn)
}

// The LSN of the newest version of a page that is at this place, by a copy of it: 0 where there is none.
fn newest_lsn<G: Rig>(c: &Complex<G>, p: PageNo, place: &Place) -> Lsn
    requires good { (m : State) × Good (G.seen c.now.rig) (G.leaves c.now.rig) Pending.Idle (parts c.now) m }
    requires there { seen place.now ≡ entry_at (parts c.now).directory p }
    ensures { result ≡ number_shown (seen place.now) (newest_of (G.seen c.now.rig) (G.leaves c.now.rig) (parts c.now) p).lsn }
{
    c.directory.keeps();
    match *place {
        Place::Free | Place::Lost => 0,
        Place::Shared { set, .. } => pooled_lsn(c, p, set.first().unwrap()),
        Place::Excl { holder, .. } => pooled_lsn(c, p, holder),
        Place::Moving { .. } => moving_lsn(c, p),
    }
}

// The LSN of the copy that an instance has of a page.
fn pooled_lsn<G: Rig>(c: &Complex<G>, p: PageNo, i: InstNo) -> Lsn
    requires good { (m : State) × Good (G.seen c.now.rig) (G.leaves c.now.rig) Pending.Idle (parts c.now) m }
    requires held { holds (entry_at (parts c.now).directory p) i ≡ true }
    ensures { result ≡ (newest_of (G.seen c.now.rig) (G.leaves c.now.rig) (parts c.now) p).lsn }
{
    c.pools[i.get() as usize - 1].look(p).unwrap().lsn()
}

// The LSN of what is on its way of a page.
fn moving_lsn<G: Rig>(c: &Complex<G>, p: PageNo) -> Lsn
    requires good { (m : State) × Good (G.seen c.now.rig) (G.leaves c.now.rig) Pending.Idle (parts c.now) m }
    requires moves { passes (entry_at (parts c.now).directory p) ≡ true }
    ensures { result ≡ (newest_of (G.seen c.now.rig) (G.leaves c.now.rig) (parts c.now) p).lsn }
{
    c.directory().under_way(p).unwrap().lsn()
}
