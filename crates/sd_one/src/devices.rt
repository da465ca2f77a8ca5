//! Devices for the runs: of zeros.

ghost use Rattle.std.specs.Prelude.{IfOk};
ghost use Rattle.sd_rig.specs.Replay.{left_of};
ghost use Rattle.sd_rig.specs.Rigs.{device, devices};
ghost use Rattle.sd_state.specs.Fresh.{AreBlank};

use sd_base::Memory;
use sd_rig::MemRig;
use std::alloc::Global;

/// Devices of zeros. `Memory` where there is none for them.
pub fn blank(alloc: Global) -> Result<MemRig, Memory>
    ensures { IfOk result (λ rig. AreBlank (λ d. (device rig d).seen) (left_of (devices rig))) }
{
    let rig = MemRig::blank(alloc)?;
    Ok(rig)
}
