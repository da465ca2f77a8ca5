//! Changes, commits and their forces of one instance at work.

ghost use Rattle.std.specs.Prelude.{◌≤◌, OnOk};
ghost use Rattle.sd_state.specs.Complexes.{parts};
ghost use Rattle.sd_one.specs.Ready.{IsReady};

use sd_base::{Bytes, Memory, PageNo, Rid, TxnId};
use sd_one::{Stop, begin, commit, hold, put, start};
use sd_rig::{MemRig, Rig};
use sd_state::Complex;
use std::alloc::Global;

/// On each of so many fresh complexes sets values of 32 bytes so many times, in 16 records of a page in turn, with a commit after
/// each so many. `false` where a call stops, as in a full log.
pub fn changes(alloc: Global, complexes: u32, times: u32, each: u32) -> bool
    requires { 1 ≤ each }
{
    for _ in 0..complexes {
        if once(alloc, times, each).is_err() {
            return false;
        }
    }
    true
}

// The same on one complex.
fn once(alloc: Global, times: u32, each: u32) -> Result<(), Stop>
    requires { 1 ≤ each }
{
    let rig = MemRig::blank(alloc)?;
    let page = PageNo::new(0).ok_or(Stop::Odd)?;
    match start(alloc, rig, 4) {
        Ok(mut c) => work(alloc, &mut c, page, times, each),
        Err((stop, _rig)) => Err(stop),
    }
}

fn work<G: Rig>(
    alloc: Global,
    c: &mut Complex<G>,
    page: PageNo,
    times: u32,
    each: u32,
) -> Result<(), Stop>
    requires ready { IsReady (G.seen c.old.rig) (G.leaves c.old.rig) (parts c.old) }
    requires some { 1 ≤ each }
{
    hold(c, page)?;
    for n in 0..times / each {
        transact(alloc, c, page, n.wrapping_mul(each), each)?;
    }
    Ok(())
}

// Begins, sets so many values, and commits.
fn transact<G: Rig>(
    alloc: Global,
    c: &mut Complex<G>,
    page: PageNo,
    first: u32,
    each: u32,
) -> Result<(), Stop>
    requires { IsReady (G.seen c.old.rig) (G.leaves c.old.rig) (parts c.old) }
    ensures { OnOk result (IsReady (G.seen c.new.rig) (G.leaves c.new.rig) (parts c.new)) }
{
    let t = begin(c)?;
    for k in 0..each {
        change(alloc, c, &t, page, first.wrapping_add(k))?;
    }
    commit(c, &t)
}

fn change<G: Rig>(
    alloc: Global,
    c: &mut Complex<G>,
    t: &TxnId,
    page: PageNo,
    n: u32,
) -> Result<(), Stop>
    requires { IsReady (G.seen c.old.rig) (G.leaves c.old.rig) (parts c.old) }
    ensures { IsReady (G.seen c.new.rig) (G.leaves c.new.rig) (parts c.new) }
{
    let value = value_of(alloc, n)?;
    let slot = (n % 16) as u16;
    put(c, t, &Rid { page, slot }, 32, Some(value))
}

fn value_of(alloc: Global, n: u32) -> Result<Bytes, Memory> {
    Ok(Bytes::copy_of(alloc, &[(n % 256) as u8; 32])?)
}
