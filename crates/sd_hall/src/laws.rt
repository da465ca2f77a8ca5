//! What a hall keeps of pages: a law, the contract of a call that does nothing.

ghost use Rattle.std.specs.Prelude.{◌≡◌, ℕ, true, None, Some, cond};
ghost use Rattle.sd_chain.specs.Newest.{IsAlone};
ghost use Rattle.sd_page.specs.Page.{Page};
ghost use Rattle.sd_pagelock.specs.Directory.{entry_at, moving_image_at};
ghost use Rattle.sd_pagelock.specs.Places.{holds, owns, passes};
ghost use Rattle.sd_pool.specs.Buffers.{image_at};
ghost use Rattle.sd_state.specs.Complexes.{parts};
ghost use Rattle.sd_state.specs.Good.{dir_of};
ghost use Rattle.sd_state.specs.Laws.{newest_of};
ghost use Rattle.sd_state.specs.Parts.{pool_at};
ghost use Rattle.sd_world.specs.Serving.{Core, telling};
ghost use Rattle.sd_state.specs.declared.complex.Complex.{Complex};
ghost use Rattle.sd_hall.specs.Bodies.{open_in};
ghost use Rattle.sd_hall.specs.Keeping.{Keeps};

use crate::hall::Hall;
use sd_rig::Rig;

/// While the complex is open: at most one instance may update a page: who may is alone with it. And every copy under a page lock is
/// the page's newest version: an instance's pool has the page exactly where the directory says so, and what it has is its disk image
/// with every newer record of it in any log. So is what is on its way, which there is exactly where the directory says so.
pub fn page_locks<G: Rig>(hall: &Hall<G>)
    requires kept { (start : Core) × Keeps (telling G.seen G.leaves G.moment G.since G.faults) start hall.now }
    ensures one { (c : Complex G) → open_in hall.now.body ≡ Some c → (p i : ℕ)
        → owns (entry_at (parts c).directory p) i ≡ true → IsAlone (dir_of (parts c)) p i }
    ensures held { (c : Complex G) → open_in hall.now.body ≡ Some c → (p i : ℕ)
        → holds (entry_at (parts c).directory p) i ≡ true
        → image_at (pool_at (parts c) i) p
        ≡ Some (newest_of (G.seen c.rig) (G.leaves c.rig) (parts c) p) }
    ensures newest { (c : Complex G) → open_in hall.now.body ≡ Some c → (p i : ℕ) (x : Page)
        → image_at (pool_at (parts c) i) p ≡ Some x
        → (holds (entry_at (parts c).directory p) i ≡ true)
        × (x ≡ newest_of (G.seen c.rig) (G.leaves c.rig) (parts c) p) }
    ensures moving { (c : Complex G) → open_in hall.now.body ≡ Some c → (p : ℕ)
        → moving_image_at (parts c).directory p ≡ cond (passes (entry_at (parts c).directory p))
        (Some (newest_of (G.seen c.rig) (G.leaves c.rig) (parts c) p)) None }
{}
