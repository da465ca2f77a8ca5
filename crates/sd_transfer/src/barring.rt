//! What bars an instance from any event of a page: it isn't active, or the page is lost.

ghost use Rattle.std.specs.Prelude.{◌≡◌, true, false, IfErr, IfOk, OnOk};
ghost use Rattle.sd_pagelock.specs.Directory.{entry_at};
ghost use Rattle.sd_pagelock.specs.Places.{is_lost, seen};
ghost use Rattle.sd_state.specs.Complexes.{parts};
ghost use Rattle.sd_state.specs.Parts.{is_active, IsShape};
ghost use Rattle.sd_transfer.specs.Barring.{IsBarred};

use sd_base::{InstNo, PageNo, Place, Refusal};
use sd_pagelock::rows;
use sd_state::Complex;

/// The page's place, as an instance's event of the page finds it: `Down` where the instance isn't active, else `Lost` where the
/// page is lost.
pub(crate) fn place_for<G>(c: &Complex<G>, i: InstNo, p: PageNo) -> Result<Place, Refusal>
    requires { IsShape (parts c.now) }
    ensures active { OnOk result (is_active (parts c.now) i ≡ true) }
    ensures place { IfOk result (λ place. seen place ≡ entry_at (parts c.now).directory p) }
    ensures found { OnOk result (is_lost (entry_at (parts c.now).directory p) ≡ false) }
    ensures refused { IfErr result (λ n. IsBarred (parts c.now) i p n) }
{
    if !c.status(i).is_active(i) {
        return Err(Refusal::Down);
    }
    let place = c.entry(p);
    if rows::is_lost(&place) {
        return Err(Refusal::Lost);
    }
    Ok(place)
}
