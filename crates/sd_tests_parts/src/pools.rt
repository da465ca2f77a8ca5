//! Pools with memory for each frame, and a page that moves from one to another.

use sd_base::PageNo;
use sd_page::Image;
use sd_pool::Pool;
use std::alloc::Global;

// Puts the page into the pool, without slots; `None` where it is refused.
fn put_empty(alloc: Global, pool: &mut Pool, number: u16) -> Option<()> {
    let p = PageNo::new(number)?;
    let image = Box::new(alloc, Image::empty(p)).ok()?;
    pool.put(p, image).ok()
}

// Whether a pool of so many frames takes a page for each of them, and no further one.
fn takes_as_many(alloc: Global, frames: u16) -> bool {
    if frames < 1 || frames > 1023 {
        return false;
    }
    match Pool::new(alloc, frames) {
        Ok(mut pool) => is_full_with(alloc, &mut pool, frames),
        Err(_) => false,
    }
}

fn is_full_with(alloc: Global, pool: &mut Pool, frames: u16) -> bool {
    for number in 0..frames {
        if put_empty(alloc, pool, number).is_none() {
            return false;
        }
    }
    put_empty(alloc, pool, frames).is_none()
}

#[test]
fn each_frame_takes_a_page_and_no_further_one(rt: HostRuntime) {
    for frames in [1, 2, 1023] {
        assert!(rt; takes_as_many(rt.alloc(), frames), "{frames}");
    }
}

// Page 5 comes to a pool, moves to the other one, and is changed there to another page without slots.
fn change_moved(alloc: Global, from: &mut Pool, to: &mut Pool, other: PageNo) -> Option<()> {
    let p = PageNo::new(5).unwrap();
    put_empty(alloc, from, 5)?;
    to.put(p, from.take(p)?).ok()?;
    if let Some(image) = to.get(p) {
        *image = Image::empty(other);
    }
    Some(())
}

// Which page the other pool has then in the place of page 5.
fn found_moved(alloc: Global, other: PageNo) -> Option<PageNo> {
    let mut from = Pool::new(alloc, 1).ok()?;
    let mut to = Pool::new(alloc, 1).ok()?;
    change_moved(alloc, &mut from, &mut to, other)?;
    let image = to.look(PageNo::new(5).unwrap())?;
    Some(image.page())
}

#[test]
fn a_page_moves_and_a_change_of_it_stays(rt: HostRuntime) {
    let other = PageNo::new(6).unwrap();
    assert!(rt; found_moved(rt.alloc(), other) == Some(other));
}
