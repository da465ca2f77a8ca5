//! A crash at each device call of one instance's work leaves the table as it was before a commit, or behind it.

ghost use Rattle.std.specs.Prelude.{◌≡◌, ◌+◌, ◌≤◌, length, IfOk, OnOk};
ghost use Rattle.sd_recovered.specs.Devices.{AreDevices};
ghost use Rattle.sd_rig.specs.Devices.{device_len};
ghost use Rattle.sd_state.specs.Complexes.{parts};
ghost use Rattle.sd_state.specs.Fresh.{AreBlank};
ghost use Rattle.sd_one.specs.Ready.{IsReady};

use sd_base::{Bytes, Memory, Pick, Refusal, Rid, Trouble};
use sd_model::Table;
use sd_one::{
    Stop, begun, blank, commit, first, get_page, is_lack, is_up, lacked, record, roll_back_whole,
    start, undo, written,
};
use sd_recovered::recovered;
use sd_rig::{MemRig, Rig};
use sd_state::Complex;
use std::alloc::Global;

// The log of the instance is forced. `Odd` where it isn't up.
fn forced<G: Rig>(c: &mut Complex<G>) -> Result<(), Stop>
    requires { IsReady (G.seen c.old.rig) (G.leaves c.old.rig) (parts c.old) }
    ensures { OnOk result (IsReady (G.seen c.new.rig) (G.leaves c.new.rig) (parts c.new)) }
{
    if !is_up(c) {
        return Err(Stop::Odd);
    }
    c.force_log(first())?;
    Ok(())
}

// Forces a change and commits it; forces another one, takes it back, and rolls that transaction back. Notes when the commit is
// told.
fn work<G: Rig>(alloc: Global, c: &mut Complex<G>, r: &Rid, told: &mut bool) -> Result<(), Stop>
    requires { IsReady (G.seen c.old.rig) (G.leaves c.old.rig) (parts c.old) }
{
    get_page(c)?;
    let t = begun(c)?;
    written(alloc, c, &t, r, b"red")?;
    forced(c)?;
    commit(c, &t)?;
    *told = true;
    let u = begun(c)?;
    written(alloc, c, &u, r, b"tan")?;
    forced(c)?;
    undo(c, &u)?;
    roll_back_whole(c, &u)?;
    Ok(())
}

// What this device reads.
fn image(alloc: Global, rig: &MemRig, dev: u8) -> Result<Bytes, Memory>
    requires { dev ≤ 8 }
    ensures { IfOk result (λ image. length image ≡ device_len dev) }
{
    Bytes::of(alloc, rig.image(alloc, dev)?)
}

// What each device reads.
#[tactic(auto, using(sd_recovered::proofs::Nine::are_devices))]
fn images(alloc: Global, rig: &MemRig) -> Result<Vec<Bytes>, Memory>
    ensures { IfOk result (λ images. AreDevices images.items) }
{
    let (zero, one, two) = triple(alloc, rig, 0)?;
    let (three, four, five) = triple(alloc, rig, 3)?;
    let (six, seven, eight) = triple(alloc, rig, 6)?;
    let images = [zero, one, two, three, four, five, six, seven, eight];
    Ok(Vec::from_array(alloc, images)?)
}

// What three devices read, from this one on.
fn triple(alloc: Global, rig: &MemRig, dev: u8) -> Result<(Bytes, Bytes, Bytes), Memory>
    requires { dev ≤ 6 }
    ensures low { IfOk result (λ found. length found.0 ≡ device_len dev) }
    ensures middle { IfOk result (λ found. length found.1 ≡ device_len (dev + 1)) }
    ensures high { IfOk result (λ found. length found.2 ≡ device_len (dev + 2)) }
{
    let low = image(alloc, rig, dev)?;
    let middle = image(alloc, rig, dev + 1)?;
    let high = image(alloc, rig, dev + 2)?;
    Ok((low, middle, high))
}

// Sets which of the calls of blank devices fail.
fn arm<G: Rig>(rig: &mut G, trouble: Trouble)
    requires { AreBlank (G.seen rig.old) (G.leaves rig.old) }
    ensures { AreBlank (G.seen rig.new) (G.leaves rig.new) }
{
    rig.arm(trouble);
}

// What is left of devices behind the work of a complex, and whether that found no memory.
fn left_by<G: Rig>(alloc: Global, mut c: Complex<G>, r: &Rid, told: &mut bool) -> (G, bool)
    requires { IsReady (G.seen c.rig) (G.leaves c.rig) (parts c) }
{
    let lacks = lacked(&work(alloc, &mut c, r, told));
    (c.images(), lacks)
}

// What is left of devices of which so many calls pass, and then each fails.
fn run(alloc: Global, r: &Rid, calls: u64, told: &mut bool) -> Result<MemRig, Stop> {
    let mut rig = blank(alloc)?;
    arm(&mut rig, Trouble::Fuse(calls));
    let (rig, lacks) = match start(alloc, rig, 2) {
        Ok(c) => left_by(alloc, c, r, told),
        Err((stop, rig)) => (rig, is_lack(&stop)),
    };
    if lacks {
        return Err(Stop::Refused(Refusal::Memory));
    }
    Ok(rig)
}

// The table for which the devices stand.
fn table_of(alloc: Global, rig: &MemRig) -> Result<Table, Stop> {
    let images = images(alloc, rig)?;
    Ok(recovered(alloc, &images)?)
}

// Whether the table has of the record what it may: the value where the commit was told, none where no call forced the Commit, and
// either in between.
fn is_left(table: &Table, r: &Rid, told: bool, calls: u64) -> bool {
    match table.get(*r) {
        None => !told,
        Some(found) => found == b"red".as_slice() && calls > 9,
    }
}

// Whether the commit is told where it may be, and the devices stand for the table before or behind it, where so many device calls
// pass and then each fails until a crash of this pick.
fn agrees(alloc: Global, r: &Rid, calls: u64, pick: Pick) -> Result<bool, Stop> {
    let mut told = false;
    let mut rest = run(alloc, r, calls, &mut told)?;
    rest.crash(pick);
    let table = table_of(alloc, &rest)?;
    Ok(told == (calls >= 13) && is_left(&table, r, told, calls))
}

// The same, once more where there was no memory; `false` where a call stops.
fn agrees_at_last(alloc: Global, calls: u64, pick: Pick) -> bool {
    let r = record();
    match agrees(alloc, &r, calls, pick) {
        Ok(holds) => holds,
        Err(_) => matches!(agrees(alloc, &r, calls, pick), Ok(true)),
    }
}

// Four calls force the Start, one reads the page, and four each force the change, the Commit, the other change, and its undo with
// the End.
#[test]
fn a_crash_at_each_call_leaves_the_table_before_or_behind_a_commit(rt: HostRuntime) {
    for calls in 0..22u64 {
        for pick in [Pick::Keep, Pick::Lose, Pick::Tear, Pick::Junk] {
            assert!(rt;
                agrees_at_last(rt.alloc(), calls, pick),
                "{calls} calls, {pick:?}"
            );
        }
    }
}
