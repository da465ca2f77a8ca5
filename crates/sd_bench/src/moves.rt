//! Moves of a page from pool to pool.

use sd_base::{InstNo, Mode, PageNo};
use sd_page::Image;
use sd_pagelock::rows::{given_excl, is_free, locked, may_yield, passes, taken};
use sd_pagelock::{Directory, laws};
use sd_pool::Pool;
use std::alloc::Global;

const FRAMES: u16 = 64;

// The page directory, through which images go in their boxes.
type Places = Directory<Box<Image>>;

// An instance with its pool.
#[derive(Drop)]
struct Member {
    inst: InstNo,
    pool: Pool,
}

/// Moves a page so many times between the pools of two instances: the one without it asks to have it alone, the other
/// gives it away, and the asker takes it. `false` where there was no memory.
pub fn moves(alloc: Global, times: u32) -> bool {
    are_done(alloc, times).is_some()
}

// All of them, up to one that fails.
fn are_done(alloc: Global, times: u32) -> Option<()> {
    let page = PageNo::new(0)?;
    let mut places = Directory::new(alloc).ok()?;
    between_two(alloc, &mut places, page, times)
}

// The same, of two members that are made.
fn between_two(alloc: Global, places: &mut Places, page: PageNo, times: u32) -> Option<()> {
    let mut giver = Member::new(alloc, 1)?;
    let mut taker = Member::new(alloc, 2)?;
    pass_on(alloc, places, &mut giver, &mut taker, page, times)
}

// The page is read by the one, and passed on between both so many times.
fn pass_on(
    alloc: Global,
    places: &mut Places,
    one: &mut Member,
    other: &mut Member,
    page: PageNo,
    times: u32,
) -> Option<()> {
    read(alloc, places, one, page)?;
    for n in 0..times {
        if n % 2 == 0 {
            pass(alloc, places, one, other, page)?;
        } else {
            pass(alloc, places, other, one, page)?;
        }
    }
    Some(())
}

impl Member {
    fn new(alloc: Global, number: u8) -> Option<Member> {
        let inst = InstNo::new(number)?;
        let pool = Pool::new(alloc, FRAMES).ok()?;
        Some(Member { inst, pool })
    }
}

// A page without slots comes to the member alone.
fn read(alloc: Global, places: &mut Places, to: &mut Member, p: PageNo) -> Option<()> {
    lock(places, p, to.inst)?;
    to.pool.put(p, room(alloc, p)?).ok()
}

// One move, as the calls of the complex make it.
fn pass(
    alloc: Global,
    places: &mut Places,
    giver: &mut Member,
    taker: &mut Member,
    p: PageNo,
) -> Option<()> {
    ask(alloc, places, p, taker.inst)?;
    let (asker, _mode) = places.oldest_ask(p, giver.inst)?;
    give(places, p, asker)?;
    places.send(p, giver.pool.take(p)?);
    let image = arrived(alloc, places, p)?;
    settle(places, p)?;
    taker.pool.put(p, image).ok()
}

// The instance asks to have the page alone. It takes memory where no image of the page came by yet.
fn ask(alloc: Global, places: &mut Places, p: PageNo, i: InstNo) -> Option<()> {
    if places.ask_again(i, p, Mode::Excl).ok()? {
        return Some(());
    }
    places.ask(i, p, Mode::Excl, room(alloc, p)?).ok()
}

// The image that was on its way. It takes memory where there is no room for the next.
fn arrived(alloc: Global, places: &mut Places, p: PageNo) -> Option<Box<Image>> {
    if let Some(image) = places.arrive_again(p) {
        return Some(image);
    }
    places.arrive(p, room(alloc, p)?)
}

// Room for an image of the page.
fn room(alloc: Global, p: PageNo) -> Option<Box<Image>> {
    Box::new(alloc, Image::empty(p)).ok()
}

// The page comes from disk to the instance alone; `None` where it isn't free.
fn lock(places: &mut Places, p: PageNo, i: InstNo) -> Option<()> {
    laws::after_lock();
    if !is_free(&places.entry(p)) {
        return None;
    }
    places.set(p, locked(i, Mode::Excl), None);
    Some(())
}

// The page sets out to the instance; `None` where no other has it alone.
fn give(places: &mut Places, p: PageNo, to: InstNo) -> Option<()> {
    laws::after_yield();
    let place = places.entry(p);
    if !may_yield(to, &place) {
        return None;
    }
    places.set(p, given_excl(to, &place), None);
    Some(())
}

// The page is its receiver's; `None` where it isn't on its way.
fn settle(places: &mut Places, p: PageNo) -> Option<()> {
    laws::after_take();
    let place = places.entry(p);
    if !passes(&place) {
        return None;
    }
    places.set(p, taken(&place), None);
    Some(())
}
