//! A page passes from pool to pool, without a device: it sets out for one that asks for it, and comes into its pool.

ghost use Rattle.std.specs.Prelude.{◌≡◌, ◌≢◌, ℕ, true, false, [], None, Some, OnErr, OnOk, IfOk};
ghost use Rattle.sd_model.specs.State.{State};
ghost use Rattle.sd_moves.specs.Passing.{IsOnWay, may_set_out, set_out, with_sent};
ghost use Rattle.sd_moves.specs.Places.{IsAsked, with_directory};
ghost use Rattle.sd_pagelock.specs.Asks.{oldest};
ghost use Rattle.sd_pagelock.specs.Directory.{asks_at, entry_at, moving_image_at, rec_lsn_at};
ghost use Rattle.sd_pagelock.specs.Places.{holds, owns, receives};
ghost use Rattle.sd_pagelock.specs.Rows.{given_excl, given_shared, may_share, may_yield, taken};
ghost use Rattle.sd_pool.specs.Buffers as buffers;
ghost use Rattle.sd_pool.specs.Buffers.{LacksFrame, with_page, without_page};
ghost use Rattle.sd_state.specs.Complexes.{parts};
ghost use Rattle.sd_state.specs.Good.{Good};
ghost use Rattle.sd_state.specs.Laws.{newest_of};
ghost use Rattle.sd_state.specs.Locking.{IsSet, with_place};
ghost use Rattle.sd_state.specs.Parts.{is_loose, log_at, pool_at};
ghost use Rattle.sd_state.specs.Values.{Pending};

use sd_base::{InstNo, Memory, Mode, PageNo};
use sd_page::Image;
use sd_pagelock::{Directory, rows};
use sd_rig::Rig;
use sd_state::Complex;
use std::alloc::Global;

/// The newest version of a page sets out from an instance that has it for the one whose ask of another is the oldest. In mode
/// `Excl` the giver, who is its only holder, gives its copy away; in mode `Shared` each holder keeps its own. Where the giver has
/// the page alone its log is forced, where that is settled. It takes no memory.
pub fn move_copy<G: Rig>(c: &mut Complex<G>, p: PageNo, from: InstNo, to: InstNo, mode: Mode)
    requires good { (pend : Pending) × (m : State) × Good (G.seen c.old.rig) (G.leaves c.old.rig) pend (parts c.old) m }
    requires idle { (parts c.old).due ≡ None }
    requires held { holds (entry_at (parts c.old).directory p) from ≡ true }
    requires row { may_set_out mode to (entry_at (parts c.old).directory p) ≡ true }
    requires asked { oldest from (asks_at (parts c.old).directory p) ≡ Some (to, mode) }
    requires forced { owns (entry_at (parts c.old).directory p) from ≡ true → is_loose (parts c.old) from ≡ false
        → (log_at (parts c.old) from).tail ≡ [] }
    ensures good { (pend : Pending) (m : State) → Good (G.seen c.old.rig) (G.leaves c.old.rig) pend (parts c.old) m
        → Good (G.seen c.new.rig) (G.leaves c.new.rig) pend (parts c.new) m }
    ensures parts { parts c.new ≡ with_sent mode p from (parts c.new).directory (parts c.old) }
    ensures place { IsSet p (set_out mode to (entry_at (parts c.old).directory p)) None
        (parts c.old).directory (parts c.new).directory }
    ensures moving { IsOnWay p (buffers.image_at (pool_at (parts c.old) from) p) (parts c.old).directory (parts c.new).directory }
    ensures rig { c.new.rig ≡ c.old.rig }
{
    match mode {
        Mode::Shared => share(c, p, from, to),
        Mode::Excl => yield_alone(c, p, from, to),
    }
}

// A copy of a page that an instance holds sets out for another, to be shared.
fn share<G: Rig>(c: &mut Complex<G>, p: PageNo, from: InstNo, to: InstNo)
    requires good { (pend : Pending) × (m : State) × Good (G.seen c.old.rig) (G.leaves c.old.rig) pend (parts c.old) m }
    requires idle { (parts c.old).due ≡ None }
    requires held { holds (entry_at (parts c.old).directory p) from ≡ true }
    requires row { may_share to (entry_at (parts c.old).directory p) ≡ true }
    requires asked { oldest from (asks_at (parts c.old).directory p) ≡ Some (to, Mode.Shared) }
    requires forced { owns (entry_at (parts c.old).directory p) from ≡ true → is_loose (parts c.old) from ≡ false
        → (log_at (parts c.old) from).tail ≡ [] }
    ensures good { (pend : Pending) (m : State) → Good (G.seen c.old.rig) (G.leaves c.old.rig) pend (parts c.old) m
        → Good (G.seen c.new.rig) (G.leaves c.new.rig) pend (parts c.new) m }
    ensures parts { parts c.new ≡ with_directory (parts c.new).directory (parts c.old) }
    ensures place { IsSet p (given_shared to (entry_at (parts c.old).directory p)) None
        (parts c.old).directory (parts c.new).directory }
    ensures moving { IsOnWay p (buffers.image_at (pool_at (parts c.old) from) p) (parts c.old).directory (parts c.new).directory }
    ensures rig { c.new.rig ≡ c.old.rig }
{
    let place = c.directory.entry(p);
    let moving = rows::given_shared(to, &place);
    let image = copy_of(c, p, from);
    c.directory.send_copy(p, &image);
    c.directory.set(p, moving, None);
}

// The copy that an instance has of a page.
fn copy_of<G: Rig>(c: &Complex<G>, p: PageNo, i: InstNo) -> Image
    requires good { (pend : Pending) × (m : State) × Good (G.seen c.now.rig) (G.leaves c.now.rig) pend (parts c.now) m }
    requires held { holds (entry_at (parts c.now).directory p) i ≡ true }
    ensures { Some result ≡ buffers.image_at (pool_at (parts c.now) i) p }
{
    *c.pools[i.get() as usize - 1].look(p).unwrap()
}

// A page sets out from its only holder for another, who is to have it alone.
fn yield_alone<G: Rig>(c: &mut Complex<G>, p: PageNo, from: InstNo, to: InstNo)
    requires good { (pend : Pending) × (m : State) × Good (G.seen c.old.rig) (G.leaves c.old.rig) pend (parts c.old) m }
    requires idle { (parts c.old).due ≡ None }
    requires held { holds (entry_at (parts c.old).directory p) from ≡ true }
    requires row { may_yield to (entry_at (parts c.old).directory p) ≡ true }
    requires asked { oldest from (asks_at (parts c.old).directory p) ≡ Some (to, Mode.Excl) }
    requires forced { owns (entry_at (parts c.old).directory p) from ≡ true → is_loose (parts c.old) from ≡ false
        → (log_at (parts c.old) from).tail ≡ [] }
    ensures good { (pend : Pending) (m : State) → Good (G.seen c.old.rig) (G.leaves c.old.rig) pend (parts c.old) m
        → Good (G.seen c.new.rig) (G.leaves c.new.rig) pend (parts c.new) m }
    ensures parts { parts c.new ≡ with_place from (without_page (pool_at (parts c.old) from) p) (parts c.new).directory (parts c.old) }
    ensures place { IsSet p (given_excl to (entry_at (parts c.old).directory p)) None
        (parts c.old).directory (parts c.new).directory }
    ensures moving { IsOnWay p (buffers.image_at (pool_at (parts c.old) from) p) (parts c.old).directory (parts c.new).directory }
    ensures rig { c.new.rig ≡ c.old.rig }
{
    let place = c.directory.entry(p);
    let moving = rows::given_excl(to, &place);
    let only = c.pools[from.get() as usize - 1].take(p).unwrap();
    c.directory.send(p, only);
    c.directory.set(p, moving, None);
}

/// What moves to an instance of a page comes into its pool, which has a frame for it; the page is then the last used. After
/// `Memory` it moves still.
pub fn take_copy<G: Rig>(c: &mut Complex<G>, p: PageNo, i: InstNo) -> Result<(), Memory>
    requires good { (pend : Pending) × (m : State) × Good (G.seen c.old.rig) (G.leaves c.old.rig) pend (parts c.old) m }
    requires idle { (parts c.old).due ≡ None }
    requires receiver { receives (entry_at (parts c.old).directory p) i ≡ true }
    requires frame { LacksFrame (pool_at (parts c.old) i) p → ⊥ }
    ensures good { (pend : Pending) (m : State) → Good (G.seen c.old.rig) (G.leaves c.old.rig) pend (parts c.old) m
        → Good (G.seen c.new.rig) (G.leaves c.new.rig) pend (parts c.new) m }
    ensures parts { OnOk result (parts c.new ≡ with_place i
        (with_page (pool_at (parts c.old) i) p (newest_of (G.seen c.old.rig) (G.leaves c.old.rig) (parts c.old) p))
        (parts c.new).directory (parts c.old)) }
    ensures place { OnOk result (IsSet p (taken (entry_at (parts c.old).directory p)) None
        (parts c.old).directory (parts c.new).directory) }
    ensures moving { OnOk result (IsOnWay p None (parts c.old).directory (parts c.new).directory) }
    ensures stays { OnErr result (parts c.new ≡ with_directory (parts c.new).directory (parts c.old)) }
    ensures asks { OnErr result (IsAsked p (asks_at (parts c.old).directory p) (parts c.old).directory (parts c.new).directory) }
    ensures rig { c.new.rig ≡ c.old.rig }
{
    c.directory.keeps();
    let place = c.directory.entry(p);
    let taken = rows::taken(&place);
    let alloc = *c.logs.allocator();
    let image = arrived(&mut c.directory, alloc, p)?;
    match c.pools[i.get() as usize - 1].put(p, image) {
        Ok(()) => {}
        Err((_, image)) => {
            c.directory.send(p, image);
            return Err(Memory);
        }
    }
    c.directory.set(p, taken, None);
    Ok(())
}

// What was on its way of a page, which is to have room for the next image that sets out. It takes memory where there is none yet.
fn arrived(
    directory: &mut Directory<Box<Image>>,
    alloc: Global,
    p: PageNo,
) -> Result<Box<Image>, Memory>
    requires there { moving_image_at directory.old p ≢ None }
    ensures value { IfOk result (λ image. moving_image_at directory.old p ≡ Some image) }
    ensures here { OnOk result (moving_image_at directory.new p ≡ None) }
    ensures stays { OnErr result (moving_image_at directory.new p ≡ moving_image_at directory.old p) }
    ensures others { (q : ℕ) → q ≢ p → moving_image_at directory.new q ≡ moving_image_at directory.old q }
    ensures places { (q : ℕ) → entry_at directory.new q ≡ entry_at directory.old q }
    ensures rec_lsns { (q : ℕ) → rec_lsn_at directory.new q ≡ rec_lsn_at directory.old q }
    ensures asks { (q : ℕ) → asks_at directory.new q ≡ asks_at directory.old q }
{
    if let Some(image) = directory.arrive_again(p) {
        return Ok(image);
    }
    let room = Box::new(alloc, Image::empty(p))?;
    Ok(directory.arrive(p, room).unwrap())
}
