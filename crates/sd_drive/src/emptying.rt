//! What becomes of a page in the pool of an instance when pools are emptied: those of instances that are up stay as they are.

ghost use Rattle.std.specs.Prelude.{◌≡◌};
ghost use Rattle.sd_pagelock.specs.Directory.{entry_at};
ghost use Rattle.sd_state.specs.Complexes.{parts};
ghost use Rattle.sd_state.specs.Parts.{IsShape, status_at};
ghost use Rattle.sd_hall.specs.Bodies.{fits_in};
ghost use Rattle.sd_world.specs.Serving.{Core};
ghost use Rattle.sd_drive.specs.Bodies.{entry_in, status_in};
ghost use Rattle.sd_drive.specs.Going.{going_as};

use crate::must_write;
use sd_base::{InstNo, PageNo};
use sd_hall::Hall;
use sd_pagelock::rows;
use sd_rig::Rig;
use sd_state::Complex;

/// What becomes of it.
#[derive(Clone, Copy, PartialEq, Eq)]
pub(crate) enum Going {
    /// The pool hasn't the page, or is that of an instance that is up.
    Stays,
    /// The copy goes.
    Goes,
    /// The instance writes the page, and the copy goes then.
    IsWritten,
}

/// What becomes of the page in this pool.
pub(crate) fn going_of<G: Rig>(hall: &Hall<G>, inst: InstNo, page: PageNo) -> Going
    requires fits { (w : Core) × fits_in G.seen G.leaves hall.now.body w }
    ensures { result ≡ going_as (status_in hall.now.body inst) (entry_in hall.now.body page) inst }
{
    match hall.complex() {
        Some(c) => going_in(c, inst, page),
        None => Going::Stays,
    }
}

// It, of an open complex.
fn going_in<G: Rig>(c: &Complex<G>, inst: InstNo, page: PageNo) -> Going
    requires shape { IsShape (parts c.now) }
    ensures { result ≡ going_as (status_at (parts c.now) inst) (entry_at (parts c.now).directory page) inst }
{
    let place = c.entry(page);
    if c.status(inst).is_up() || !rows::holds(&place, inst) {
        return Going::Stays;
    }
    if must_write(&place, inst) {
        Going::IsWritten
    } else {
        Going::Goes
    }
}
