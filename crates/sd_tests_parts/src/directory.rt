//! The page directory: one page that is locked, changed, asked for, sent, taken and lost; each call succeeds with ample
//! memory.

ghost use Rattle.std.specs.Prelude.{◌≡◌, []};
ghost use Rattle.sd_pagelock.specs.Directory.{asks_at};

use sd_base::{InstNo, InstSet, Lsn, Memory, Mode, PageNo, Place};
use sd_pagelock::rows::changed;
use sd_pagelock::{Directory, is_lawful};
use std::alloc::Global;

// Moves the page where that is lawful, and the LSN of a first change is given. Whether it moved.
fn moved(directory: &mut Directory<u32>, p: PageNo, to: &Place, rec: Option<Lsn>) -> bool {
    let from = directory.entry(p);
    if !is_lawful(&from, to) {
        return false;
    }
    if changed(to) && !changed(&from) && rec.is_none() {
        return false;
    }
    directory.set(p, *to, rec);
    true
}

fn names() -> (InstNo, InstNo, PageNo) {
    (
        InstNo::new(1).unwrap(),
        InstNo::new(2).unwrap(),
        PageNo::new(1023).unwrap(),
    )
}

// Moves the page by each place in turn, while the second instance asks for it. Whether all is as it is told.
fn passes_on(
    directory: &mut Directory<u32>,
    one: InstNo,
    two: InstNo,
    p: PageNo,
) -> Result<bool, Memory> {
    let excl = |holder: InstNo, dirty: bool| Place::Excl { holder, dirty };
    let way = Place::Moving {
        to: two,
        mode: Mode::Excl,
        rest: InstSet::EMPTY,
        dirty: true,
    };
    // Each place, an LSN, whether the page moves there, and its RecLSN then.
    let places = [
        (excl(one, true), Some(5), false, None),
        (excl(one, false), None, true, None),
        (excl(one, true), None, false, None),
        (excl(one, true), Some(5), true, Some(5)),
        (excl(one, true), Some(9), true, Some(5)),
        (way, None, true, Some(5)),
        (excl(two, true), None, true, Some(5)),
        (Place::Lost, None, false, Some(5)),
    ];
    for (place, rec, moves, rec_lsn) in places {
        directory.ask(two, p, Mode::Excl, 0)?;
        if moved(directory, p, &place, rec) != moves || directory.rec_lsn(p) != rec_lsn {
            return Ok(false);
        }
    }
    Ok(true)
}

// An image of the page sets out and arrives, and the first instance's ask is forgotten. Whether all is as it should be.
fn sets_out(
    directory: &mut Directory<u32>,
    one: InstNo,
    two: InstNo,
    p: PageNo,
) -> Result<bool, Memory> {
    directory.ask(one, p, Mode::Shared, 0)?;
    let is_asked = directory.oldest_ask(p, two) == Some((one, Mode::Shared));
    let is_first = directory.first_for(two) == Some(p);
    directory.send(p, 40);
    let is_under_way = directory.under_way(p) == Some(&40);
    let has_arrived = directory.arrive(p, 0) == Some(40);
    directory.forget(one);
    let is_forgotten = directory.oldest_ask(p, two).is_none();
    Ok(is_asked && is_first && is_under_way && has_arrived && is_forgotten)
}

// Whether the page passes on, sets out, and is lost with the instance that has it.
fn passes_on_and_is_lost(alloc: Global) -> Result<bool, Memory> {
    let (one, two, p) = names();
    let mut directory: Directory<u32> = Directory::new(alloc)?;
    let passes = passes_on(&mut directory, one, two, p)?;
    let sets_out = sets_out(&mut directory, one, two, p)?;
    directory.fall(two);
    Ok(passes && sets_out && directory.first_lost() == Some(p))
}

#[test]
fn a_page_passes_on_and_is_lost(rt: HostRuntime) {
    assert!(rt; matches!(passes_on_and_is_lost(rt.alloc()), Ok(true)));
}

// What arrives of a copy that set out in the room of an ask.
fn copied(
    alloc: Global,
    directory: &mut Directory<Box<u32>>,
    one: InstNo,
    p: PageNo,
) -> Result<Option<u32>, Memory>
    requires { asks_at directory.old p ≡ [] }
{
    directory.ask(one, p, Mode::Shared, Box::new(alloc, 0)?)?;
    directory.send_copy(p, &40);
    let room = Box::new(alloc, 0)?;
    Ok(directory.arrive(p, room).map(|image| *image))
}

// The same in a directory that is made.
fn copied_anew(alloc: Global) -> Result<Option<u32>, Memory> {
    let (one, _, p) = names();
    let mut directory: Directory<Box<u32>> = Directory::new(alloc)?;
    copied(alloc, &mut directory, one, p)
}

#[test]
fn a_copy_sets_out_in_the_room_of_an_ask(rt: HostRuntime) {
    assert!(rt; matches!(copied_anew(rt.alloc()), Ok(Some(40))));
}
