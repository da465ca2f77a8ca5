//! Gates: a fill succeeds where no trouble meets it, and trouble meets it at each of its four calls.

ghost use Rattle.std.specs.Prelude.{◌<◌};

use sd_base::{Failed, Pick, Trouble};
use sd_rig::{MemRig, Rig, fill, is_open};
use std::test::Fail;

// Whether a fill that trouble meets succeeds, and whether the gate is open after a crash that keeps what was written.
fn filled(rig: &mut MemRig, gate: u32, trouble: Trouble) -> Result<(bool, bool), Failed>
    requires { gate < 1000 }
{
    rig.sync(0)?;
    let mut slot = [0u8; 5];
    rig.read(0, gate, &mut slot)?;
    if is_open(&slot, 0) {
        return Err(Failed);
    }
    rig.arm(trouble);
    let done = fill(rig, 0, gate, b"body").is_ok();
    rig.crash(Pick::Keep);
    rig.read(0, gate, &mut slot)?;
    Ok((done, is_open(&slot, 0)))
}

#[test]
fn a_fill_is_stopped_at_each_call_that_trouble_meets(rt: HostRuntime) -> Result<(), Fail> {
    let mut rig = MemRig::blank(rt.alloc())?;
    let cases = [
        (0u32, (false, false)),
        (1, (false, false)),
        (2, (false, true)),
        (3, (false, true)),
        (4, (true, true)),
    ];
    for (calls, expected) in cases {
        let trouble = Trouble::Fuse(u64::from(calls));
        assert_eq!(rt; filled(&mut rig, 10 * calls, trouble)?, expected);
    }
    Ok(())
}
