//! Rigs in memory: calls succeed where no trouble meets them and memory is ample.

use sd_base::{Pick, Trouble};
use sd_rig::{MemRig, Rig};
use std::test::Fail;

// Calls without trouble, with no memory found short, and one of each kind that trouble meets.
#[test]
fn calls_fail_where_trouble_meets_them_alone(rt: HostRuntime) -> Result<(), Fail> {
    let mut rig = MemRig::blank(rt.alloc())?;
    rig.reserve(10_000)?;
    rig.arm(Trouble::Fault(3));
    let calls = [
        rig.write(8, 2_097_280, b"xy").is_ok(),
        rig.sync(8).is_ok(),
        rig.write(8, 2_097_280, b"uv").is_err(),
    ];
    assert!(rt; calls == [true; 3]);
    rig.poke(8, 2_097_281, 7)?;
    rig.crash(Pick::Lose);
    assert!(rt; rig.image(rt.alloc(), 8)?.ends_with(b"x\x07"));
    assert_eq!(rt; rig.short(), 0);
    Ok(())
}
