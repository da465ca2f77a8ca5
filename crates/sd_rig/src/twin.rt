//! Twins, and which of their slots counts.

ghost use Rattle.std.specs.Prelude.{◌≡◌, ℕ, ◌+◌, ◌≤◌, length, slice_range, IfOk, OnErr, OnOk};
ghost use Rattle.sd_base.specs.Streams.{Rises};
ghost use Rattle.sd_base.specs.Twin.{chosen_body, chosen_slot};
ghost use Rattle.sd_rig.specs.Devices.{IsUnchanged, device_len};
ghost use Rattle.sd_rig.specs.Slots.{named_body, slot, slots_len};

use crate::{Chosen, Rig, chosen_of};
use sd_base::Failed;

/// Two slots of a device, one behind the other, each a gate byte and a body. `at` is the place of the first gate and
/// `body` the length of a body, both in bytes.
#[derive(Clone, Copy, PartialEq, Eq)]
pub struct Twin {
    pub dev: u8,
    pub at: u32,
    pub body: u16,
}

/// Reads both slots into `out`, of their two times one more than `body` bytes, and tells which counts. It takes no
/// memory, makes one read and changes nothing. `Failed` comes only where the rig's count of faults rose.
pub fn choose<G: Rig>(rig: &mut G, t: Twin, out: &mut [u8]) -> Result<Chosen, Failed>
    requires device { t.dev ≤ 8 }
    requires numbered { 8 ≤ t.body }
    requires range { t.at + slots_len t.body ≤ device_len t.dev }
    requires room { length out.old ≡ slots_len t.body }
    ensures chosen { IfOk result (λ c. slot c ≡ chosen_slot t.at t.body (G.seen rig.old t.dev)) }
    ensures body { IfOk result (λ c. named_body c t.body out.new ≡ chosen_body t.at t.body (G.seen rig.old t.dev)) }
    ensures bytes { OnOk result (out.new ≡ slice_range (G.seen rig.old t.dev) t.at (t.at + slots_len t.body)) }
    ensures stays { IsUnchanged (G.seen rig.old) (G.seen rig.new) (G.leaves rig.old) (G.leaves rig.new)
        (G.moment rig.old) (G.moment rig.new) (G.since rig.old) (G.since rig.new) }
    ensures cause { OnErr result (Rises (G.faults rig.old) (G.faults rig.new)) }
    ensures quiet { OnOk result (G.faults rig.new ≡ G.faults rig.old) }
    ensures count { G.faults rig.old ≤ G.faults rig.new }
{
    rig.read(t.dev, t.at, out)?;
    Ok(chosen_of(out, t.body as usize))
}
