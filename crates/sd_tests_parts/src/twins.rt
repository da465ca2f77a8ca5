//! Twins: puts fill the two slots in turn, and trouble meets a put at each of its calls, which it doesn't make again.

ghost use Rattle.std.specs.Prelude.{◌≡◌, ◌*◌, ◌<◌, ◌≤◌, length, option_copied, IfSome, IsTrue, OnOk};
ghost use Rattle.sd_rig.specs.Devices.{LeavesOnly};
ghost use Rattle.sd_base.specs.Twin as twin;

use sd_base::{Failed, Pick, Trouble};
use sd_rig::{Chosen, MemRig, Rig, Twin, choose, number_of, put};
use std::test::Fail;

const BODY: usize = 1024;

const BOTH: usize = 2050;

// The twin of a page.
fn twin_of(page: u32) -> Twin
    requires { page < 1024 }
    ensures dev { result.dev ≡ 0 }
    ensures at { result.at ≡ 2050 * page }
    ensures body { result.body ≡ 1024 }
{
    Twin {
        dev: 0,
        at: 2050 * page,
        body: 1024,
    }
}

// A body that begins with this number and repeats it.
fn body_of(number: u8) -> [u8; BODY] {
    let mut body = [number; BODY];
    body[..7].fill(0);
    body
}

// Whether the body's number is greater than that of the one that counts.
fn is_greater(body: &[u8], counts: Option<&[u8]>) -> bool
    requires body { 8 ≤ length body.now }
    requires counts { IfSome (option_copied counts) (λ b. 8 ≤ length b) }
    ensures { IsTrue result → IfSome (option_copied counts.entry) (λ b. twin.number_of b < twin.number_of body.now) }
{
    match counts {
        None => true,
        Some(counts) => number_of(counts) < number_of(body),
    }
}

// Puts the body of this number, and tells what counted before; nothing where the number isn't greater.
fn put_next<G: Rig>(rig: &mut G, page: u32, number: u8) -> Result<Option<Chosen>, Failed>
    requires page { page < 1024 }
    requires stable { LeavesOnly (G.seen rig.old 0) (G.leaves rig.old 0) }
    ensures { OnOk result (LeavesOnly (G.seen rig.new 0) (G.leaves rig.new 0)) }
{
    let t = twin_of(page);
    let body = body_of(number);
    let mut both = [0u8; BOTH];
    let old = choose(rig, t, &mut both)?;
    if old == Chosen::Same || !is_greater(&body, old.body(t.body as usize, &both)) {
        return Ok(None);
    }
    put(rig, t, old, &body)?;
    Ok(Some(old))
}

// Whether trouble stops the third put of the page at the call after so many, and the fourth goes on where it ought to.
fn is_stopped(rig: &mut MemRig, page: u32, calls: u64) -> Result<bool, Fail>
    requires { page < 1024 }
{
    rig.sync(0)?;
    put_next(rig, page, 1)?;
    put_next(rig, page, 2)?;
    rig.sync(0)?;
    rig.arm(Trouble::Fault(calls));
    let stopped = put_next(rig, page, 3).is_err();
    rig.crash(Pick::Keep);
    rig.sync(0)?;
    let went_on = put_next(rig, page, 4)?;
    Ok(stopped && went_on.is_some())
}

#[test]
fn a_put_is_stopped_at_each_of_its_calls(rt: HostRuntime) -> Result<(), Fail> {
    let mut rig = MemRig::blank(rt.alloc())?;
    // A read, and six calls of a put that closes its slot.
    for call in 0..8u32 {
        assert_eq!(rt; is_stopped(&mut rig, call, u64::from(call) + 1)?, call < 7);
    }
    assert_eq!(rt; rig.short(), 0);
    Ok(())
}
