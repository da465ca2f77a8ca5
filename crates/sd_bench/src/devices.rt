//! Writes and syncs of a device, in memory and in a file.

ghost use Rattle.std.specs.Prelude.{◌≤◌};

use sd_filerig::FileRig;
use sd_rig::{MemRig, Rig};
use std::alloc::Global;

const PLACES: u32 = 1024;

/// Writes 64 bytes and syncs, so many times, at 1,024 places of the device in turn. `false` where there was no memory.
pub fn cycles(alloc: Global, dev: u8, times: u32) -> bool
    requires { dev ≤ 8 }
{
    match MemRig::blank(alloc) {
        Ok(mut rig) => are_done(&mut rig, dev, times),
        Err(_) => false,
    }
}

/// The same of the devices in a folder. `false` also where a call on a file failed; no other is made then.
pub fn cycles_in(rt: &HostRuntime, alloc: Global, dir: &str, dev: u8, times: u32) -> bool
    requires { dev ≤ 8 }
{
    match FileRig::at(rt, alloc, dir) {
        Ok(mut rig) => are_done(&mut rig, dev, times),
        Err(_) => false,
    }
}

// All of them, up to one that fails.
fn are_done<G: Rig>(rig: &mut G, dev: u8, times: u32) -> bool
    requires { dev ≤ 8 }
{
    for n in 0..times {
        if !cycle(rig, dev, n) {
            return false;
        }
    }
    true
}

// One write and one sync.
#[tactic(auto, using(crate::proofs::Places::in_device))]
fn cycle<G: Rig>(rig: &mut G, dev: u8, n: u32) -> bool
    requires { dev ≤ 8 }
{
    let at = n % PLACES * 64;
    rig.write(dev, at, &[(n % 256) as u8; 64]).is_ok() && rig.sync(dev).is_ok()
}
