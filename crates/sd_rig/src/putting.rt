//! How a body is put: the slot that doesn't count is closed, filled, and opened, with a sync behind each write.

ghost use Rattle.std.specs.Prelude.{◌≡◌, ◌≢◌, ◌⊎◌, ℕ, Some, ◌+◌, ◌<◌, ◌≤◌, true, false, length, IfSome, OnErr, OnOk, if◌then◌else◌};
ghost use Rattle.sd_base.specs.Streams.{Rises};
ghost use Rattle.sd_base.specs.Twin as twin;
ghost use Rattle.sd_rig.specs.Devices.{AgreesOutside, Elapses, LeavesOnly, LeavesSame, Span, device_len};
ghost use Rattle.sd_rig.specs.Gates.{Closes};
ghost use Rattle.sd_rig.specs.Slots.{slot, slots_len};
ghost use Rattle.sd_rig.specs.Puts.{Puts, after_put, filled_gate, filled_open};

use crate::twin::Twin;
use crate::{Chosen, Rig, close, fill};
use sd_base::Failed;

// Closes the gate of a slot, if it is open.
fn make_closed<G: Rig>(rig: &mut G, dev: u8, gate: u32, is_open: bool) -> Result<(), Failed>
    requires device { dev ≤ 8 }
    requires range { gate + 1 ≤ device_len dev }
    requires stable { LeavesOnly (G.seen rig.old dev) (G.leaves rig.old dev) }
    requires open { twin.is_open gate (G.seen rig.old dev) ≡ is_open }
    ensures closed { OnOk result (twin.is_open gate (G.seen rig.new dev) ≡ false) }
    ensures durable { OnOk result (LeavesOnly (G.seen rig.new dev) (G.leaves rig.new dev)) }
    ensures outside { AgreesOutside gate 1 (G.seen rig.old dev) (G.seen rig.new dev) }
    ensures shut { twin.is_open gate (G.seen rig.new dev) ≡ true → twin.is_open gate (G.seen rig.old dev) ≡ true }
    ensures any_moment { Span (G.moment rig.old) (G.since rig.new) (Closes dev gate (G.seen rig.old) (G.leaves rig.old)) }
    ensures others { (d : ℕ) → d ≢ dev → G.seen rig.new d ≡ G.seen rig.old d }
    ensures others_leave { (d : ℕ) → d ≢ dev → LeavesSame (G.leaves rig.old d) (G.leaves rig.new d) }
    ensures time { Elapses (G.moment rig.old) (G.moment rig.new) (G.since rig.old) (G.since rig.new) }
    ensures tick { OnOk result (G.moment rig.new ≡ G.moment rig.old + (if is_open then 2 else 0)) }
    ensures most { G.moment rig.new ≤ G.moment rig.old + 2 }
    ensures cause { OnErr result (Rises (G.faults rig.old) (G.faults rig.new)) }
    ensures quiet { OnOk result (G.faults rig.new ≡ G.faults rig.old) }
    ensures count { G.faults rig.old ≤ G.faults rig.new }
{
    if !is_open {
        return Ok(());
    }
    close(rig, dev, gate)
}

// The gate of the slot that a put fills, and whether it is open.
fn target(t: Twin, old: Chosen) -> (u32, bool)
    requires range { t.at + slots_len t.body ≤ device_len t.dev }
    ensures gate { result.0 ≡ filled_gate (slot old) t.at t.body }
    ensures open { result.1 ≡ filled_open (slot old) }
{
    match old {
        Chosen::First { other } => (t.at + t.body as u32 + 1, other),
        Chosen::Second { other } => (t.at, other),
        Chosen::Neither | Chosen::Same => (t.at, false),
    }
}

/// Puts a body into the slot that doesn't count, the first where neither does: it closes the slot, if it is open,
/// writes the body, and opens it, with a sync behind each write. A crash at any moment leaves the old body or the new
/// one, whole, and after `Ok` the new one. It takes no memory. `Failed` comes only where the rig's count of faults rose;
/// the device is then to be synced before anything is read of it.
///
/// `old` is what `choose` answers now, and the body's number is greater than that of the slot that counts.
pub fn put<G: Rig>(rig: &mut G, t: Twin, old: Chosen, body: &[u8]) -> Result<(), Failed>
    requires device { t.dev ≤ 8 }
    requires numbered { 8 ≤ t.body }
    requires range { t.at + slots_len t.body ≤ device_len t.dev }
    requires length { length body.now ≡ t.body }
    requires stable { LeavesOnly (G.seen rig.old t.dev) (G.leaves rig.old t.dev) }
    requires chosen { twin.chosen_slot t.at t.body (G.seen rig.old t.dev) ≡ slot old }
    requires differs { old ≢ Chosen.Same }
    requires greater { IfSome (twin.chosen_body t.at t.body (G.seen rig.old t.dev)) (λ b. twin.number_of b < twin.number_of body.now) }

    ensures body { OnOk result (twin.chosen_body t.at t.body (G.seen rig.new t.dev) ≡ Some body.now) }
    ensures slot { OnOk result (twin.chosen_slot t.at t.body (G.seen rig.new t.dev) ≡ after_put (slot old)) }
    ensures durable { OnOk result (LeavesOnly (G.seen rig.new t.dev) (G.leaves rig.new t.dev)) }

    // A crash during the call, or after it, leaves the old body or the new one, and so does a read.
    ensures any_moment { Span (G.moment rig.old) (G.since rig.new) (Puts t.dev t.at t.body body.now (G.seen rig.old) (G.leaves rig.old)) }
    ensures whole { (twin.chosen_body t.at t.body (G.seen rig.new t.dev) ≡ twin.chosen_body t.at t.body (G.seen rig.old t.dev)) ⊎ (twin.chosen_body t.at t.body (G.seen rig.new t.dev) ≡ Some body.now) }
    ensures outside { AgreesOutside t.at (slots_len t.body) (G.seen rig.old t.dev) (G.seen rig.new t.dev) }
    ensures others { (d : ℕ) → d ≢ t.dev → G.seen rig.new d ≡ G.seen rig.old d }
    ensures others_leave { (d : ℕ) → d ≢ t.dev → LeavesSame (G.leaves rig.old d) (G.leaves rig.new d) }
    ensures time { Elapses (G.moment rig.old) (G.moment rig.new) (G.since rig.old) (G.since rig.new) }

    ensures tick { OnOk result (G.moment rig.new ≡ G.moment rig.old + (if filled_open (slot old) then 6 else 4)) }
    ensures most { G.moment rig.new ≤ G.moment rig.old + 6 }
    ensures cause { OnErr result (Rises (G.faults rig.old) (G.faults rig.new)) }
    ensures quiet { OnOk result (G.faults rig.new ≡ G.faults rig.old) }
    ensures count { G.faults rig.old ≤ G.faults rig.new }
{
    let (gate, is_open) = target(t, old);
    make_closed(rig, t.dev, gate, is_open)?;
    fill(rig, t.dev, gate, body)
}
