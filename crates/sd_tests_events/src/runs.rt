//! Runs of the hall that opens from blank devices, each reply beside the one that is worked out by hand.

ghost use Rattle.std.specs.Prelude.{◌≤◌, IfOk, IfSome, OnOk};
ghost use Rattle.sd_world.specs.Serving.{Core, telling};
ghost use Rattle.sd_hall.specs.Keeping.{Keeps};
ghost use Rattle.sd_hall.specs.Served.{IsServed};

use crate::checkpoints::CHECKPOINTS;
use crate::faults::FAULTS;
use crate::faults::KEPT;
use crate::faults::OWN_LOG;
use crate::faults::UNKEPT;
use crate::hand::FULL as FULL_AREA;
use crate::hand::FULL_LOG;
use crate::hand::HIGH;
use crate::hand::HIGH_PAGE;
use crate::hand::LAST_EPOCH;
use crate::hand::LAST_LSNS;
use crate::hand::NO_EPOCH;
use crate::hand::NO_LSN;
use crate::hand::Patch;
use crate::hand::written;
use crate::lines::AGAIN;
use crate::lines::Ask;
use crate::lines::Ask::Add;
use crate::lines::Ask::Alone;
use crate::lines::Ask::Arm;
use crate::lines::Ask::Back;
use crate::lines::Ask::Begin;
use crate::lines::Ask::Commit;
use crate::lines::Ask::Delete;
use crate::lines::Ask::Evict;
use crate::lines::Ask::Fail as Falls;
use crate::lines::Ask::FailAll;
use crate::lines::Ask::Flush;
use crate::lines::Ask::Force;
use crate::lines::Ask::Give;
use crate::lines::Ask::Insert;
use crate::lines::Ask::Join;
use crate::lines::Ask::List;
use crate::lines::Ask::Read;
use crate::lines::Ask::RecoverBy;
use crate::lines::Ask::RecoverStep;
use crate::lines::Ask::Reopen;
use crate::lines::Ask::Rollback;
use crate::lines::Ask::Save;
use crate::lines::Ask::Share;
use crate::lines::Ask::Show;
use crate::lines::Ask::Take;
use crate::lines::Ask::Undo;
use crate::lines::Ask::Write;
use crate::lines::FAR;
use crate::lines::FIRST;
use crate::lines::LAST;
use crate::lines::Line;
use crate::lines::NEXT;
use crate::lines::ONE;
use crate::lines::Say::Absent;
use crate::lines::Say::Asked;
use crate::lines::Say::At;
use crate::lines::Say::Began;
use crate::lines::Say::Did;
use crate::lines::Say::Finished;
use crate::lines::Say::Gave;
use crate::lines::Say::Have;
use crate::lines::Say::Joined;
use crate::lines::Say::No;
use crate::lines::Say::Rows;
use crate::lines::Say::Shown;
use crate::lines::Say::Step;
use crate::lines::Say::Value;
use crate::lines::Spot::Both;
use crate::lines::Spot::Changed;
use crate::lines::Spot::Clean;
use crate::lines::Spot::Free;
use crate::lines::Spot::Lost;
use crate::lines::Spot::Moving;
use crate::lines::Spot::Shared;
use crate::lines::TWO;
use crate::lines::Who;
use crate::lines::Why::Blocked;
use crate::lines::Why::Busy;
use crate::lines::Why::Cut;
use crate::lines::Why::Deadlock;
use crate::lines::Why::Dirty;
use crate::lines::Why::Down;
use crate::lines::Why::Failed;
use crate::lines::Why::Fallen;
use crate::lines::Why::MovingTo;
use crate::lines::Why::NeedPage;
use crate::lines::Why::NoRecord;
use crate::lines::Why::NoSavepoint;
use crate::lines::Why::NoTxn;
use crate::lines::Why::NotAsked;
use crate::lines::Why::NotFallen;
use crate::lines::Why::NotNumber;
use crate::lines::Why::NotRecovered;
use crate::lines::Why::PageFull;
use crate::lines::Why::PoolFull;
use crate::lines::Why::Recovering;
use crate::lines::Why::TooLong;
use crate::lines::Why::Up;
use crate::lines::event;
use crate::lines::is_said;
use sd_base::Memory;
use sd_base::Pick;
use sd_base::Trouble;
use sd_hall::Hall;
use sd_model::Event;
use sd_rig::MemRig;
use sd_rig::Rig;
use sd_state::Shape;
use std::alloc::Global;
use std::test::Fail;

/// One instance, one page, and records that aren't there.
static ALONE: &[Line] = &[
    (ONE, Begin, No(Down)),
    (ONE, Join, Joined(1)),
    (ONE, Join, No(Up)),
    (ONE, Begin, Began(FIRST)),
    (FIRST, Read(0), No(NeedPage(Free))),
    (ONE, Alone(0), Have),
    (FIRST, Read(0), Absent),
    (FIRST, Write(0, &[7; 257]), No(TooLong)),
    (FIRST, Write(0, b"red"), No(NoRecord)),
    (FIRST, Add(1, -3), No(NoRecord)),
    (FIRST, Delete(2), No(NoRecord)),
    // Whoever was refused for what it found has the record's lock.
    (ONE, List(0), No(Busy(FIRST))),
    (FIRST, Commit, Did),
    (FIRST, Commit, No(NoTxn)),
    (FIRST, Read(0), No(NoTxn)),
    (ONE, List(0), Rows(&[])),
    (ONE, Flush(0), Did),
    (ONE, Evict(0), Did),
    (ONE, Evict(0), No(NeedPage(Free))),
    (ONE, Alone(0), Have),
    (ONE, Force, Did),
    (ONE, Begin, Began(NEXT)),
    (ONE, Falls, Did),
    (ONE, Falls, No(Down)),
    (ONE, Begin, No(Down)),
    (NEXT, Commit, No(Down)),
    (ONE, Force, No(Down)),
    (ONE, Join, No(NotRecovered)),
    (FIRST, Commit, No(NoTxn)),
];

/// A pool of one frame, and an instance that asks another.
static PAGES: &[Line] = &[
    (ONE, Join, Joined(1)),
    (TWO, Join, Joined(1)),
    (ONE, Share(0), Have),
    (ONE, Share(1), No(PoolFull)),
    (TWO, Share(0), Asked(ONE)),
    (ONE, Evict(0), Did),
    (ONE, Share(1), Have),
    (TWO, Share(0), Have),
    (TWO, Alone(1), Asked(ONE)),
    (ONE, Alone(1), Have),
];

/// Locks of records, on one instance and on two.
static LOCKS: &[Line] = &[
    (ONE, Join, Joined(1)),
    (TWO, Join, Joined(1)),
    (ONE, Begin, Began(FIRST)),
    (ONE, Begin, Began(NEXT)),
    (TWO, Begin, Began(FAR)),
    (ONE, Alone(0), Have),
    (FIRST, Read(0), Absent),
    (NEXT, Read(0), Absent),
    (FIRST, Write(0, b"red"), No(Blocked(NEXT))),
    (NEXT, Delete(0), No(Deadlock(NEXT, FIRST))),
    (FAR, Write(0, b"red"), No(Blocked(FIRST))),
    (NEXT, Commit, Did),
    (FIRST, Write(0, b"red"), No(NoRecord)),
    (FAR, Read(0), No(Blocked(FIRST))),
    // The locks of who falls stay.
    (ONE, Falls, Did),
    (FIRST, Commit, No(Down)),
    (TWO, Alone(0), Have),
    (FAR, Write(0, b"red"), No(Blocked(FIRST))),
    (FAR, Commit, Did),
];

/// Records made, changed and deleted by one transaction after another, and listed once they are committed.
static RECORDS: &[Line] = &[
    (ONE, Join, Joined(1)),
    (ONE, Begin, Began(FIRST)),
    (ONE, Alone(0), Have),
    (FIRST, Insert(0, b"red", 4), At(0)),
    (FIRST, Insert(0, b"tan", 3), At(1)),
    (FIRST, Read(0), Value(b"red")),
    (FIRST, Commit, Did),
    (ONE, List(0), Rows(&[(0, b"red"), (1, b"tan")])),
    (ONE, Begin, Began(NEXT)),
    (NEXT, Write(0, b"green"), No(TooLong)),
    (NEXT, Add(0, 2), No(NotNumber)),
    (NEXT, Write(0, b"40"), Did),
    (NEXT, Add(0, 2), Did),
    (NEXT, Read(0), Value(b"42")),
    (NEXT, Delete(1), Did),
    (NEXT, Read(1), Absent),
    (ONE, List(0), No(Busy(NEXT))),
    (NEXT, Commit, Did),
    (ONE, List(0), Rows(&[(0, b"42")])),
    (ONE, Begin, Began(LAST)),
    (LAST, Add(0, 9_958), No(TooLong)),
    (LAST, Add(0, -1_041), Did),
    (LAST, Insert(0, b"blue", 3), No(TooLong)),
    // The dead slot is too short for the first of these, and keeps its three bytes for the second.
    (LAST, Insert(0, b"blue", 4), At(2)),
    (LAST, Insert(0, b"", 0), At(1)),
    (LAST, Write(1, b"gold"), No(TooLong)),
    (LAST, Write(1, b"sky"), Did),
    (LAST, Commit, Did),
    (
        ONE,
        List(0),
        Rows(&[(0, b"-999"), (1, b"sky"), (2, b"blue")]),
    ),
];

/// Two pages through a pool of one frame.
static FRAME: &[Line] = &[
    (ONE, Show(0), Shown(Free, 0)),
    (ONE, Join, Joined(1)),
    (ONE, Begin, Began(FIRST)),
    (ONE, Alone(0), Have),
    (ONE, Show(0), Shown(Clean(ONE), 0)),
    // The log's first record is that of the join.
    (FIRST, Insert(0, b"red", 3), At(0)),
    (ONE, Show(0), Shown(Changed(ONE), 2)),
    (ONE, Alone(1), No(PoolFull)),
    (ONE, Evict(0), No(Dirty)),
    (ONE, Flush(0), Did),
    (ONE, Show(0), Shown(Clean(ONE), 2)),
    (ONE, Evict(0), Did),
    (FIRST, Read(0), No(NeedPage(Free))),
    (ONE, Alone(1), Have),
    (FIRST, Insert(1, b"tan", 3), At(0)),
    (FIRST, Commit, Did),
    (ONE, Show(0), Shown(Free, 0)),
    (ONE, Show(1), Shown(Changed(ONE), 3)),
    (ONE, List(1), Rows(&[(0, b"tan")])),
    (ONE, Flush(1), Did),
    (ONE, Evict(1), Did),
    (ONE, Share(0), Have),
    (ONE, Show(0), Shown(Shared(ONE), 2)),
    (ONE, List(0), Rows(&[(0, b"red")])),
];

/// A page that fills.
static FULL: &[Line] = &[
    (ONE, Join, Joined(1)),
    (ONE, Begin, Began(FIRST)),
    (ONE, Alone(0), Have),
    (FIRST, Insert(0, &[7; 250], 250), At(0)),
    (FIRST, Insert(0, &[7; 250], 250), At(1)),
    (FIRST, Insert(0, &[7; 250], 250), At(2)),
    (FIRST, Insert(0, &[7; 250], 250), No(PageFull)),
    (FIRST, Insert(0, b"", 257), No(TooLong)),
    // Of the page's 1,024 bytes the head takes 16, three slots take 256 each, and the next one 6 besides its capacity.
    (FIRST, Insert(0, b"", 235), No(PageFull)),
    (FIRST, Insert(0, b"red", 234), At(3)),
    (FIRST, Insert(0, b"", 0), No(PageFull)),
    (FIRST, Delete(1), Did),
    (FIRST, Insert(0, b"tan", 200), At(1)),
    (FIRST, Insert(0, b"", 0), No(PageFull)),
    (FIRST, Commit, Did),
];

/// Records that are inserted and not committed yet, and who reads them.
static UNCOMMITTED: &[Line] = &[
    (ONE, Join, Joined(1)),
    (TWO, Join, Joined(1)),
    (ONE, Begin, Began(FIRST)),
    (ONE, Begin, Began(NEXT)),
    (TWO, Begin, Began(FAR)),
    (ONE, Alone(0), Have),
    (FIRST, Insert(0, b"red", 3), At(0)),
    (NEXT, Read(0), No(Blocked(FIRST))),
    (FAR, Read(0), No(Blocked(FIRST))),
    (NEXT, Insert(0, b"tan", 3), At(1)),
    (FIRST, Read(1), No(Blocked(NEXT))),
    (NEXT, Read(0), No(Deadlock(NEXT, FIRST))),
    (ONE, List(0), No(Busy(FIRST))),
    (NEXT, Commit, Did),
    (FIRST, Read(1), Value(b"tan")),
    (FIRST, Commit, Did),
    (ONE, List(0), Rows(&[(0, b"red"), (1, b"tan")])),
    (FAR, Read(0), No(NeedPage(Changed(ONE)))),
    (TWO, Share(0), Asked(ONE)),
];

/// Marks, rollbacks to them and whole ones.
static MARKS: &[Line] = &[
    (ONE, Join, Joined(1)),
    (ONE, Begin, Began(FIRST)),
    (ONE, Begin, Began(NEXT)),
    (ONE, Alone(0), Have),
    (FIRST, Back(b"low"), No(NoSavepoint)),
    (FIRST, Insert(0, b"red", 4), At(0)),
    (FIRST, Save(b"low"), Did),
    (FIRST, Write(0, b"blue"), Did),
    (FIRST, Save(b"high"), Did),
    (FIRST, Delete(0), Did),
    (FIRST, Undo, Finished),
    (NEXT, Read(0), No(Blocked(FIRST))),
    (FIRST, Back(b"low"), Did),
    (FIRST, Back(b"high"), No(Busy(FIRST))),
    (FIRST, Save(b"top"), No(Busy(FIRST))),
    (FIRST, Commit, No(Busy(FIRST))),
    (FIRST, Undo, Step),
    (FIRST, Undo, Step),
    (FIRST, Undo, Finished),
    // A mark above the one that it went back to is no more; that one is, at the same place.
    (FIRST, Back(b"high"), No(NoSavepoint)),
    (FIRST, Back(b"low"), Did),
    (FIRST, Undo, Finished),
    (FIRST, Read(0), Value(b"red")),
    // The join, the insert, two changes and two undos.
    (ONE, Show(0), Shown(Changed(ONE), 6)),
    (FIRST, Rollback, Did),
    (FIRST, Rollback, Did),
    (FIRST, Undo, Step),
    (NEXT, Read(0), No(Blocked(FIRST))),
    (FIRST, Undo, Finished),
    (FIRST, Undo, No(NoTxn)),
    (NEXT, Read(0), Absent),
    (NEXT, Rollback, Did),
    (NEXT, Undo, Finished),
    (ONE, List(0), Rows(&[])),
];

/// A page that passes between two pools, and is lost with the one that changed it last.
static TRANSFERS: &[Line] = &[
    (ONE, Join, Joined(1)),
    (TWO, Join, Joined(1)),
    (ONE, Begin, Began(FIRST)),
    (TWO, Begin, Began(FAR)),
    (ONE, Give(0), No(NeedPage(Free))),
    (ONE, Alone(0), Have),
    (ONE, Give(0), No(NotAsked)),
    (FIRST, Insert(0, b"red", 3), At(0)),
    (FIRST, Commit, Did),
    (TWO, Share(0), Asked(ONE)),
    (ONE, Give(0), Gave(TWO)),
    (ONE, Show(0), Shown(Moving(TWO), 2)),
    (ONE, Give(0), No(MovingTo(TWO))),
    (ONE, Take(0), No(NeedPage(Moving(TWO)))),
    (TWO, Take(0), Did),
    (ONE, Show(0), Shown(Both(ONE), 2)),
    (FAR, Read(0), Value(b"red")),
    (TWO, Alone(0), Asked(ONE)),
    // Its copy goes, and the other has the page alone.
    (ONE, Give(0), Gave(TWO)),
    (ONE, Show(0), Shown(Changed(TWO), 2)),
    (FAR, Write(0, b"tan"), Did),
    (ONE, Alone(0), Asked(TWO)),
    (TWO, Give(0), Gave(ONE)),
    (ONE, Show(0), Shown(Moving(ONE), 3)),
    (ONE, Take(0), Did),
    (TWO, Falls, Did),
    // What the one that fell had changed is in the other's pool.
    (ONE, Show(0), Shown(Changed(ONE), 3)),
    (ONE, Falls, Did),
    (ONE, Show(0), Shown(Lost, 0)),
];

/// A commit that a device cuts, and all instances that fail then: it is as if its transaction had never begun, whatever the crash
/// picks.
static CUT: &[Line] = &[
    (ONE, Join, Joined(1)),
    (ONE, Begin, Began(FIRST)),
    (ONE, Alone(0), Have),
    (FIRST, Insert(0, b"red", 3), At(0)),
    (FIRST, Commit, Did),
    (ONE, Begin, Began(NEXT)),
    (NEXT, Write(0, b"tan"), Did),
    // The first call writes the records, and none opens the gate before them.
    (ONE, Arm(Trouble::Fuse(1)), Did),
    (NEXT, Commit, No(Cut)),
    (ONE, FailAll, Did),
    (ONE, Reopen, Did),
    (ONE, Reopen, No(Fallen)),
    (NEXT, Commit, No(NoTxn)),
    (ONE, Show(0), Shown(Lost, 0)),
    (ONE, RecoverBy(ONE), Did),
    // The data device and the log are settled, and the page is rebuilt.
    (ONE, RecoverStep, Step),
    (ONE, RecoverStep, Step),
    (ONE, RecoverStep, Step),
    (ONE, RecoverStep, Finished),
    (ONE, Join, Joined(2)),
    (ONE, Begin, Began(AGAIN)),
    (ONE, Share(0), Have),
    (AGAIN, Read(0), Value(b"red")),
];

/// An instance that falls with a loser, and is recovered by another.
static LOSER: &[Line] = &[
    (ONE, Join, Joined(1)),
    (TWO, Join, Joined(1)),
    (TWO, Begin, Began(FAR)),
    (ONE, Begin, Began(FIRST)),
    (ONE, Alone(0), Have),
    (FIRST, Insert(0, b"red", 3), At(0)),
    (FIRST, Commit, Did),
    (ONE, Begin, Began(NEXT)),
    (NEXT, Write(0, b"tan"), Did),
    (ONE, Force, Did),
    (ONE, Falls, Did),
    (ONE, RecoverStep, No(NotRecovered)),
    (ONE, RecoverBy(TWO), Did),
    (ONE, RecoverBy(TWO), No(Recovering(TWO))),
    (ONE, Show(0), Shown(Lost, 0)),
    (ONE, RecoverStep, Step),
    (ONE, RecoverStep, Step),
    (ONE, RecoverStep, Step),
    // The page is on disk now, with the loser's change, which is still to be undone.
    (ONE, RecoverStep, No(NeedPage(Free))),
    (TWO, Alone(0), Have),
    (ONE, Show(0), Shown(Clean(TWO), 4)),
    (FAR, Read(0), No(Blocked(NEXT))),
    (ONE, RecoverStep, Step),
    (ONE, Show(0), Shown(Changed(TWO), 5)),
    // Its records are all undone, and it gets its end.
    (ONE, RecoverStep, Step),
    (ONE, RecoverStep, Finished),
    (FAR, Read(0), Value(b"red")),
    (NEXT, Commit, No(NoTxn)),
    (ONE, Join, Joined(2)),
];

/// What a complex answers that is closed, and one that is open to its reopening.
static CLOSED: &[Line] = &[
    (ONE, Reopen, No(NotFallen)),
    (ONE, Join, Joined(1)),
    (ONE, Reopen, No(Up)),
    (ONE, Begin, Began(FIRST)),
    (ONE, Alone(0), Have),
    (ONE, FailAll, Did),
    (ONE, Begin, No(Down)),
    (FIRST, Read(0), No(Down)),
    (FIRST, Commit, No(Down)),
    (FIRST, Undo, No(Down)),
    (ONE, List(0), No(Down)),
    (ONE, Show(0), No(Down)),
    (ONE, Share(0), No(Down)),
    (ONE, Force, No(Down)),
    (ONE, Falls, No(Down)),
    (ONE, RecoverBy(ONE), No(Down)),
    (ONE, RecoverStep, No(Down)),
    (ONE, Join, No(Down)),
    (ONE, Arm(Trouble::Fault(1)), Did),
    (ONE, Reopen, No(Failed)),
    (ONE, Join, No(Down)),
    (ONE, FailAll, Did),
    (ONE, Reopen, Did),
    (ONE, Reopen, No(NotFallen)),
    (FIRST, Commit, No(NoTxn)),
    (ONE, Show(0), Shown(Free, 0)),
    (ONE, Join, Joined(2)),
];

// The event of what is asked, made once more where there is no memory for it.
fn made(alloc: Global, pick: Pick, who: Who, ask: Ask) -> Result<Option<Event>, Memory>
    ensures { IfOk result (λ e. IfSome e (λ x. IsServed x)) }
{
    match event(alloc, pick, who, ask) {
        Ok(e) => Ok(e),
        Err(_) => event(alloc, pick, who, ask),
    }
}

fn asked(alloc: Global, pick: Pick, who: Who, ask: Ask) -> Result<Event, Fail>
    ensures { IfOk result (λ e. IsServed e) }
{
    let made = made(alloc, pick, who, ask)?;
    let Some(e) = made else {
        return Err("no such event".into());
    };
    Ok(e)
}

// What is asked happens, at the second time where there is no memory at the first and nothing was noted.
fn serve<G: Rig>(
    alloc: Global,
    hall: &mut Hall<G>,
    pick: Pick,
    who: Who,
    ask: Ask,
) -> Result<(), Fail>
    requires { (start : Core) × Keeps (telling G.seen G.leaves G.moment G.since G.faults) start hall.old }
    ensures { OnOk result ((start : Core) × Keeps (telling G.seen G.leaves G.moment G.since G.faults) start hall.new) }
{
    let noted = hall.book().count();
    let e = asked(alloc, pick, who, ask)?;
    if hall.call(0, 0, e).is_ok() {
        return Ok(());
    }
    if hall.book().count() != noted {
        return Err("what had no memory is noted".into());
    }
    let e = asked(alloc, pick, who, ask)?;
    hall.call(0, 0, e)?;
    Ok(())
}

// A hall of two instances over these devices, with so many frames in each pool; opened once more where there is no memory.
fn opened<G: Rig + Drop>(alloc: Global, rig: G, frames: u16) -> Result<Hall<G>, Fail>
    requires least { 1 ≤ frames }
    requires most { frames ≤ 1024 }
    ensures { IfOk result (λ hall. (start : Core) × Keeps (telling G.seen G.leaves G.moment G.since G.faults) start hall) }
{
    let shape = Shape {
        insts: 2,
        pages: 4,
        frames,
    };
    match Hall::open(alloc, rig, shape) {
        Ok(hall) => Ok(hall),
        Err((_, rig)) => match Hall::open(alloc, rig, shape) {
            Ok(hall) => Ok(hall),
            Err(_) => Err("no hall".into()),
        },
    }
}

// The number of lines that are answered as they say, up to one that isn't, in a hall that opens from these devices. Where all
// instances fail, a crash picks so.
fn agreeing<G: Rig + Drop>(
    alloc: Global,
    rig: G,
    pick: Pick,
    frames: u16,
    lines: &[Line],
) -> Result<usize, Fail>
    requires least { 1 ≤ frames }
    requires most { frames ≤ 1024 }
{
    let mut hall = opened(alloc, rig, frames)?;
    for n in 0..lines.len() {
        let (who, ask, say) = lines[n];
        serve(alloc, &mut hall, pick, who, ask)?;
        let Some(reply) = hall.book().last_reply() else {
            return Ok(n);
        };
        if !is_said(reply, say) {
            return Ok(n);
        }
    }
    Ok(lines.len())
}

// Devices of zeros, made once more where there is no memory.
fn devices(alloc: Global) -> Result<MemRig, Fail> {
    match MemRig::blank(alloc) {
        Ok(rig) => Ok(rig),
        Err(_) => Ok(MemRig::blank(alloc)?),
    }
}

// The number of lines that are answered as they say in a hall over devices of zeros.
fn agreed(alloc: Global, frames: u16, lines: &[Line]) -> Result<usize, Fail>
    requires least { 1 ≤ frames }
    requires most { frames ≤ 1024 }
{
    picked(alloc, Pick::Keep, frames, lines)
}

fn picked(alloc: Global, pick: Pick, frames: u16, lines: &[Line]) -> Result<usize, Fail>
    requires least { 1 ≤ frames }
    requires most { frames ≤ 1024 }
{
    agreeing(alloc, devices(alloc)?, pick, frames, lines)
}

#[test]
fn one_instance_begins_commits_and_fails(rt: HostRuntime) -> Result<(), Fail> {
    assert_eq!(rt; agreed(rt.alloc(), 2, ALONE)?, ALONE.len());
    Ok(())
}

#[test]
fn a_pool_is_full_and_a_page_is_elsewhere(rt: HostRuntime) -> Result<(), Fail> {
    assert_eq!(rt; agreed(rt.alloc(), 1, PAGES)?, PAGES.len());
    Ok(())
}

#[test]
fn locks_block_and_a_circle_is_refused(rt: HostRuntime) -> Result<(), Fail> {
    assert_eq!(rt; agreed(rt.alloc(), 2, LOCKS)?, LOCKS.len());
    Ok(())
}

#[test]
fn what_is_committed_is_listed(rt: HostRuntime) -> Result<(), Fail> {
    assert_eq!(rt; agreed(rt.alloc(), 2, RECORDS)?, RECORDS.len());
    Ok(())
}

#[test]
fn a_page_goes_to_disk_and_comes_back(rt: HostRuntime) -> Result<(), Fail> {
    assert_eq!(rt; agreed(rt.alloc(), 1, FRAME)?, FRAME.len());
    Ok(())
}

#[test]
fn a_page_fills_to_its_last_byte(rt: HostRuntime) -> Result<(), Fail> {
    assert_eq!(rt; agreed(rt.alloc(), 2, FULL)?, FULL.len());
    Ok(())
}

#[test]
fn what_is_rolled_back_is_as_it_was(rt: HostRuntime) -> Result<(), Fail> {
    assert_eq!(rt; agreed(rt.alloc(), 2, MARKS)?, MARKS.len());
    Ok(())
}

#[test]
fn a_page_passes_between_pools(rt: HostRuntime) -> Result<(), Fail> {
    assert_eq!(rt; agreed(rt.alloc(), 2, TRANSFERS)?, TRANSFERS.len());
    Ok(())
}

#[test]
fn who_reads_an_uncommitted_record_waits(rt: HostRuntime) -> Result<(), Fail> {
    assert_eq!(rt; agreed(rt.alloc(), 2, UNCOMMITTED)?, UNCOMMITTED.len());
    Ok(())
}

#[test]
fn all_fail_and_a_commit_that_was_cut_is_no_more(rt: HostRuntime) -> Result<(), Fail> {
    assert_eq!(rt; picked(rt.alloc(), Pick::Keep, 2, CUT)?, CUT.len());
    assert_eq!(rt; picked(rt.alloc(), Pick::Lose, 2, CUT)?, CUT.len());
    assert_eq!(rt; picked(rt.alloc(), Pick::Tear, 2, CUT)?, CUT.len());
    assert_eq!(rt; picked(rt.alloc(), Pick::Junk, 2, CUT)?, CUT.len());
    Ok(())
}

#[test]
fn a_loser_is_undone_by_the_recoverer(rt: HostRuntime) -> Result<(), Fail> {
    assert_eq!(rt; agreed(rt.alloc(), 2, LOSER)?, LOSER.len());
    Ok(())
}

#[test]
fn a_closed_complex_answers_that_it_is_down(rt: HostRuntime) -> Result<(), Fail> {
    assert_eq!(rt; agreed(rt.alloc(), 2, CLOSED)?, CLOSED.len());
    Ok(())
}

#[test]
fn a_commit_in_doubt_is_decided_by_its_log(rt: HostRuntime) -> Result<(), Fail> {
    assert_eq!(rt; agreed(rt.alloc(), 2, KEPT)?, KEPT.len());
    assert_eq!(rt; agreed(rt.alloc(), 2, UNKEPT)?, UNKEPT.len());
    Ok(())
}

#[test]
fn a_device_fails_in_a_join_a_read_a_force_and_an_undo(rt: HostRuntime) -> Result<(), Fail> {
    assert_eq!(rt; agreed(rt.alloc(), 2, FAULTS)?, FAULTS.len());
    assert_eq!(rt; agreed(rt.alloc(), 2, OWN_LOG)?, OWN_LOG.len());
    Ok(())
}

#[test]
fn a_checkpoint_ends_with_its_end_or_a_fall(rt: HostRuntime) -> Result<(), Fail> {
    assert_eq!(rt; agreed(rt.alloc(), 2, CHECKPOINTS)?, CHECKPOINTS.len());
    Ok(())
}

#[test]
fn the_last_bytes_and_lsns_are_for_what_is_owed(rt: HostRuntime) -> Result<(), Fail> {
    let cases: [(&[Patch], &[Line]); 4] = [
        (HIGH, LAST_LSNS),
        (HIGH_PAGE, NO_LSN),
        (LAST_EPOCH, NO_EPOCH),
        (FULL_AREA, FULL_LOG),
    ];
    for (n, (patches, lines)) in cases.iter().enumerate() {
        let mut rig = devices(rt.alloc())?;
        written(&mut rig, patches)?;
        let agreed = agreeing(rt.alloc(), rig, Pick::Keep, 2, lines)?;
        assert_eq!(rt; agreed, lines.len(), "case {n}");
    }
    Ok(())
}
