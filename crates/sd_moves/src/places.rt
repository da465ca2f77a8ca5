//! Moves that no device sees: a page is alone with its only holder, a copy goes, a page is used, an ask is queued.

ghost use Rattle.std.specs.Prelude.{◌≡◌, ◌≢◌, ℕ, true, None, OnErr, OnOk};
ghost use Rattle.sd_model.specs.State.{State};
ghost use Rattle.sd_moves.specs.Places.{IsAsked, with_directory};
ghost use Rattle.sd_pagelock.specs.Asks.{is_open_ask, queued};
ghost use Rattle.sd_pagelock.specs.Directory.{asks_at, entry_at, moving_image_at, rec_lsn_at};
ghost use Rattle.sd_pagelock.specs.Rows.{fallen, may_evict, may_raise, raised};
ghost use Rattle.sd_pool.specs.Buffers.{used, without_page};
ghost use Rattle.sd_state.specs.Complexes.{parts};
ghost use Rattle.sd_state.specs.Good.{Good};
ghost use Rattle.sd_state.specs.Locking.{IsSet, with_place};
ghost use Rattle.sd_state.specs.Parts.{is_active, pool_at};
ghost use Rattle.sd_state.specs.Values.{Pending};

use sd_base::{InstNo, Memory, Mode, PageNo};
use sd_page::Image;
use sd_pagelock::{Directory, rows};
use sd_rig::Rig;
use sd_state::Complex;
use std::alloc::Global;

/// The only holder of a shared page has it alone from now on. It takes no memory.
pub fn raise<G: Rig>(c: &mut Complex<G>, p: PageNo, i: InstNo)
    requires good { (pend : Pending) × (m : State) × Good (G.seen c.old.rig) (G.leaves c.old.rig) pend (parts c.old) m }
    requires idle { (parts c.old).due ≡ None }
    requires sole { may_raise i (entry_at (parts c.old).directory p) ≡ true }
    ensures good { (pend : Pending) (m : State) → Good (G.seen c.old.rig) (G.leaves c.old.rig) pend (parts c.old) m
        → Good (G.seen c.new.rig) (G.leaves c.new.rig) pend (parts c.new) m }
    ensures parts { parts c.new ≡ with_directory (parts c.new).directory (parts c.old) }
    ensures place { IsSet p (raised i (entry_at (parts c.old).directory p)) None (parts c.old).directory (parts c.new).directory }
    ensures moving { (q : ℕ) → moving_image_at (parts c.new).directory q ≡ moving_image_at (parts c.old).directory q }
    ensures rig { c.new.rig ≡ c.old.rig }
{
    let place = c.directory.entry(p);
    let alone = rows::raised(i, &place);
    c.directory.set(p, alone, None);
}

/// The copy of an instance goes, where others have the page's changes too or there are none. It takes no memory.
pub fn drop_copy<G: Rig>(c: &mut Complex<G>, p: PageNo, i: InstNo)
    requires good { (pend : Pending) × (m : State) × Good (G.seen c.old.rig) (G.leaves c.old.rig) pend (parts c.old) m }
    requires idle { (parts c.old).due ≡ None }
    requires spare { may_evict i (entry_at (parts c.old).directory p) ≡ true }
    ensures good { (pend : Pending) (m : State) → Good (G.seen c.old.rig) (G.leaves c.old.rig) pend (parts c.old) m
        → Good (G.seen c.new.rig) (G.leaves c.new.rig) pend (parts c.new) m }
    ensures parts { parts c.new ≡ with_place i (without_page (pool_at (parts c.old) i) p) (parts c.new).directory (parts c.old) }
    ensures place { IsSet p (fallen i (entry_at (parts c.old).directory p)) None (parts c.old).directory (parts c.new).directory }
    ensures moving { (q : ℕ) → moving_image_at (parts c.new).directory q ≡ moving_image_at (parts c.old).directory q }
    ensures rig { c.new.rig ≡ c.old.rig }
{
    c.directory.keeps();
    let place = c.directory.entry(p);
    let left = rows::fallen(i, &place);
    let _copy = c.pools[i.get() as usize - 1].take(p);
    c.directory.set(p, left, None);
}

/// A page in the pool was used: it is the last that will be evicted. A page that the pool hasn't isn't used. It takes no memory.
pub fn touch<G: Rig>(c: &mut Complex<G>, p: PageNo, i: InstNo)
    requires good { (pend : Pending) × (m : State) × Good (G.seen c.old.rig) (G.leaves c.old.rig) pend (parts c.old) m }
    ensures good { (pend : Pending) (m : State) → Good (G.seen c.old.rig) (G.leaves c.old.rig) pend (parts c.old) m
        → Good (G.seen c.new.rig) (G.leaves c.new.rig) pend (parts c.new) m }
    ensures parts { parts c.new ≡ with_place i (used (pool_at (parts c.old) i) p) (parts c.old).directory (parts c.old) }
    ensures rig { c.new.rig ≡ c.old.rig }
{
    c.pools[i.get() as usize - 1].touch(p);
}

/// An active instance asks for a page that it hasn't so: its ask is the last for the page, or the stronger of both where it asks
/// already. It takes memory for the ask, and for room in which a copy of the page can set out where there is none yet. After
/// `Memory` each page has the asks that it had.
pub fn queue_ask<G: Rig>(c: &mut Complex<G>, i: InstNo, p: PageNo, mode: Mode) -> Result<(), Memory>
    requires good { (pend : Pending) × (m : State) × Good (G.seen c.old.rig) (G.leaves c.old.rig) pend (parts c.old) m }
    requires active { is_active (parts c.old) i ≡ true }
    requires wanted { is_open_ask (entry_at (parts c.old).directory p) (record { by = i; mode = mode }) ≡ true }
    ensures good { (pend : Pending) (m : State) → Good (G.seen c.old.rig) (G.leaves c.old.rig) pend (parts c.old) m
        → Good (G.seen c.new.rig) (G.leaves c.new.rig) pend (parts c.new) m }
    ensures parts { parts c.new ≡ with_directory (parts c.new).directory (parts c.old) }
    ensures asks { OnOk result (IsAsked p (queued i mode (asks_at (parts c.old).directory p))
        (parts c.old).directory (parts c.new).directory) }
    ensures stays { OnErr result (IsAsked p (asks_at (parts c.old).directory p)
        (parts c.old).directory (parts c.new).directory) }
    ensures rig { c.new.rig ≡ c.old.rig }
{
    let alloc = *c.logs.allocator();
    asked(&mut c.directory, alloc, i, p, mode)
}

// The instance asks for the page. It takes memory for room in which a copy can set out where there is none yet.
fn asked(
    directory: &mut Directory<Box<Image>>,
    alloc: Global,
    i: InstNo,
    p: PageNo,
    mode: Mode,
) -> Result<(), Memory>
    ensures here { OnOk result (asks_at directory.new p ≡ queued i mode (asks_at directory.old p)) }
    ensures others { (q : ℕ) → q ≢ p → asks_at directory.new q ≡ asks_at directory.old q }
    ensures err { OnErr result (asks_at directory.new p ≡ asks_at directory.old p) }
    ensures places { (q : ℕ) → entry_at directory.new q ≡ entry_at directory.old q }
    ensures rec_lsns { (q : ℕ) → rec_lsn_at directory.new q ≡ rec_lsn_at directory.old q }
    ensures images { (q : ℕ) → moving_image_at directory.new q ≡ moving_image_at directory.old q }
{
    if directory.ask_again(i, p, mode)? {
        return Ok(());
    }
    let room = Box::new(alloc, Image::empty(p))?;
    directory.ask(i, p, mode, room)
}
