//! A complex opened near the end of LSNs.

ghost use Rattle.std.specs.Prelude.{◌≡◌, false, IfOk, IsTrue, OnOk};
ghost use Rattle.sd_state.specs.Complexes.{parts};
ghost use Rattle.sd_state.specs.Parts.{IsShape, is_loose};
ghost use Rattle.sd_one.specs.Ready.{IsReady};

use crate::checks::checked;
use crate::seeing::{Seen, seen};
use sd_base::{Refusal, Rid, Status, TxnId};
use sd_logrec::AREA;
use sd_one::{Stop, begun, blank, first, get_page, record, roll_back_whole, written};
use sd_restart::reopen;
use sd_rig::{MemRig, Rig};
use sd_state::{Complex, Shape};
use sd_update::seal_start;
use std::alloc::Global;

// The group of a Start of epoch 1, whose LSN is four below the greatest.
const START_GROUP: [u8; 18] = [
    0xa5, 0, 0, 0, 13, 1, 0x3f, 0xff, 0xff, 0xff, 0xff, 0xff, 0xff, 0xfb, 0, 0, 0, 1,
];

// What is seen behind the change.
const CHANGED: Seen<'static> = (3, 2, true, Some(b"red"));

// A complex over devices on which instance 1 has begun an epoch near the end; it has come up in the next one, and has page 5. All
// is made once more where there is no memory.
fn at_work(alloc: Global) -> Result<Complex<MemRig>, Stop>
    ensures { IfOk result (λ c. IsReady (⟦<MemRig as Rig>⟧.seen c.rig) (⟦<MemRig as Rig>⟧.leaves c.rig) (parts c)) }
{
    match opened(alloc) {
        Ok(c) => Ok(c),
        Err(_) => opened(alloc),
    }
}

fn opened(alloc: Global) -> Result<Complex<MemRig>, Stop>
    ensures { IfOk result (λ c. IsReady (⟦<MemRig as Rig>⟧.seen c.rig) (⟦<MemRig as Rig>⟧.leaves c.rig) (parts c)) }
{
    let mut rig = blank(alloc)?;
    if rig.write(1, AREA, &START_GROUP).is_err() {
        return Err(Stop::Odd);
    }
    let Ok(mut c) = open(alloc, rig) else {
        return Err(Stop::Odd);
    };
    come_up(&mut c)?;
    Ok(c)
}

fn open<G: Rig>(alloc: Global, rig: G) -> Result<Complex<G>, (Refusal, G)>
    ensures { IfOk result (λ c. IsReady (G.seen c.rig) (G.leaves c.rig) (parts c)) }
{
    let shape = Shape {
        insts: 1,
        pages: 1024,
        frames: 2,
    };
    let complex = reopen(alloc, rig, shape)?;
    Ok(complex)
}

// The instance joins, and gets page 5.
fn come_up<G: Rig>(c: &mut Complex<G>) -> Result<(), Stop>
    requires { IsReady (G.seen c.old.rig) (G.leaves c.old.rig) (parts c.old) }
    ensures { OnOk result (IsReady (G.seen c.new.rig) (G.leaves c.new.rig) (parts c.new)) }
{
    join(c)?;
    get_page(c)
}

// Instance 1 begins its next epoch, and comes up. `Odd` where it isn't clean.
fn join<G: Rig>(c: &mut Complex<G>) -> Result<(), Stop>
    requires { IsReady (G.seen c.old.rig) (G.leaves c.old.rig) (parts c.old) }
    ensures { OnOk result (IsReady (G.seen c.new.rig) (G.leaves c.new.rig) (parts c.new)) }
{
    let i = first();
    if !is_settled(c) {
        return Err(Stop::Odd);
    }
    if !matches!(c.status(i), Status::Clean) {
        return Err(Stop::Odd);
    }
    seal_start(c, i)?;
    c.force_log(i)?;
    c.joined(i);
    Ok(())
}

// Whether log 1 is settled.
fn is_settled<G>(c: &Complex<G>) -> bool
    requires { IsShape (parts c.now) }
    ensures { IsTrue result → is_loose (parts c.now) 1 ≡ false }
{
    !c.loose[1]
}

fn is_at_end(told: Result<(), Stop>) -> bool {
    matches!(told, Err(Stop::Refused(Refusal::LsnEnd)))
}

// Whether a second change and a checkpoint's record are refused for want of an LSN, and leave all as it was.
fn has_no_lsn<G: Rig>(alloc: Global, c: &mut Complex<G>, t: &TxnId, r: &Rid) -> bool
    requires { IsReady (G.seen c.old.rig) (G.leaves c.old.rig) (parts c.old) }
    ensures { IsReady (G.seen c.new.rig) (G.leaves c.new.rig) (parts c.new) }
{
    let changed = seen(c, r) == CHANGED;
    let is_change_refused = is_at_end(written(alloc, c, t, r, b"tan"));
    let is_check_refused = is_at_end(checked(c));
    changed && is_change_refused && is_check_refused && seen(c, r) == CHANGED
}

// One transaction changes the record, and no LSN is left for a second change; both roll back. Whether all is so.
fn runs_out<G: Rig>(alloc: Global, c: &mut Complex<G>) -> Result<bool, Stop>
    requires { IsReady (G.seen c.old.rig) (G.leaves c.old.rig) (parts c.old) }
{
    let r = record();
    let t = begun(c)?;
    let u = begun(c)?;
    written(alloc, c, &t, &r, b"red")?;
    let has_none = has_no_lsn(alloc, c, &t, &r);
    roll_back_whole(c, &t)?;
    let is_first_back = seen(c, &r) == (5, 1, true, None);
    let is_refused = is_at_end(written(alloc, c, &u, &r, b"tan"));
    roll_back_whole(c, &u)?;
    let are_both_back = seen(c, &r) == (5, 0, true, None);
    Ok(has_none && is_first_back && is_refused && are_both_back)
}

// The same of a complex that is made.
fn is_run_out(alloc: Global) -> Result<bool, Stop> {
    let mut c = at_work(alloc)?;
    runs_out(alloc, &mut c)
}

// Three LSNs are left behind the Start: one for a change, and two that are owed for that, its undo and the End.
#[test]
fn the_last_lsns_are_for_what_is_owed(rt: HostRuntime) {
    assert!(rt; matches!(is_run_out(rt.alloc()), Ok(true)));
}
