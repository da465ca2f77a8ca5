//! How bytes come behind a gate: while it is closed, and then it is opened, with a sync behind each write.

ghost use Rattle.std.specs.Prelude.{◌≡◌, ◌≢◌, ◌⊎◌, ℕ, ◌+◌, ◌≤◌, true, false, length, OnErr, OnOk};
ghost use Rattle.sd_base.specs.Streams.{Rises};
ghost use Rattle.sd_base.specs.Twin as twin;
ghost use Rattle.sd_rig.specs.Devices.{AgreesOutside, Elapses, LeavesOnly, LeavesSame, Span, device_len, overwritten};
ghost use Rattle.sd_rig.specs.Gates.{Closes, Fills, Writes};

use crate::Rig;
use sd_base::Failed;

/// What the gate of a slot or of a group that counts holds.
pub const OPEN: u8 = 0xA5;

/// Whether the gate at this place is open. Behind the end of the bytes none is.
pub fn is_open(bytes: &[u8], gate: usize) -> bool
    ensures { result ≡ twin.is_open gate bytes.now }
{
    match bytes.get(gate) {
        Some(byte) => *byte == OPEN,
        None => false,
    }
}

// Writes and syncs.
fn write_synced<G: Rig>(rig: &mut G, dev: u8, at: u32, bytes: &[u8]) -> Result<(), Failed>
    requires device { dev ≤ 8 }
    requires range { at + length bytes.now ≤ device_len dev }
    requires stable { LeavesOnly (G.seen rig.old dev) (G.leaves rig.old dev) }
    ensures written { OnOk result (G.seen rig.new dev ≡ overwritten at bytes.now (G.seen rig.old dev)) }
    ensures durable { OnOk result (LeavesOnly (G.seen rig.new dev) (G.leaves rig.new dev)) }
    ensures outside { AgreesOutside at (length bytes.now) (G.seen rig.old dev) (G.seen rig.new dev) }
    ensures any_moment { Span (G.moment rig.old) (G.since rig.new) (Writes dev at (length bytes.now) (G.seen rig.old) (G.leaves rig.old)) }
    ensures others { (d : ℕ) → d ≢ dev → G.seen rig.new d ≡ G.seen rig.old d }
    ensures others_leave { (d : ℕ) → d ≢ dev → LeavesSame (G.leaves rig.old d) (G.leaves rig.new d) }
    ensures time { Elapses (G.moment rig.old) (G.moment rig.new) (G.since rig.old) (G.since rig.new) }
    ensures tick { OnOk result (G.moment rig.new ≡ G.moment rig.old + 2) }
    ensures most { G.moment rig.new ≤ G.moment rig.old + 2 }
    ensures cause { OnErr result (Rises (G.faults rig.old) (G.faults rig.new)) }
    ensures quiet { OnOk result (G.faults rig.new ≡ G.faults rig.old) }
    ensures count { G.faults rig.old ≤ G.faults rig.new }
{
    rig.write(dev, at, bytes)?;
    rig.sync(dev)
}

/// Closes the gate at a place, in bytes, which is open: two device calls. A crash at any moment leaves all else as it was,
/// and after `Ok` the gate closed. `Failed` comes only where the rig's count of faults rose.
pub fn close<G: Rig>(rig: &mut G, dev: u8, gate: u32) -> Result<(), Failed>
    requires device { dev ≤ 8 }
    requires range { gate + 1 ≤ device_len dev }
    requires stable { LeavesOnly (G.seen rig.old dev) (G.leaves rig.old dev) }
    requires open { twin.is_open gate (G.seen rig.old dev) ≡ true }
    ensures closed { OnOk result (twin.is_open gate (G.seen rig.new dev) ≡ false) }
    ensures durable { OnOk result (LeavesOnly (G.seen rig.new dev) (G.leaves rig.new dev)) }
    ensures outside { AgreesOutside gate 1 (G.seen rig.old dev) (G.seen rig.new dev) }
    ensures any_moment { Span (G.moment rig.old) (G.since rig.new) (Closes dev gate (G.seen rig.old) (G.leaves rig.old)) }
    ensures others { (d : ℕ) → d ≢ dev → G.seen rig.new d ≡ G.seen rig.old d }
    ensures others_leave { (d : ℕ) → d ≢ dev → LeavesSame (G.leaves rig.old d) (G.leaves rig.new d) }
    ensures time { Elapses (G.moment rig.old) (G.moment rig.new) (G.since rig.old) (G.since rig.new) }
    ensures tick { OnOk result (G.moment rig.new ≡ G.moment rig.old + 2) }
    ensures most { G.moment rig.new ≤ G.moment rig.old + 2 }
    ensures cause { OnErr result (Rises (G.faults rig.old) (G.faults rig.new)) }
    ensures quiet { OnOk result (G.faults rig.new ≡ G.faults rig.old) }
    ensures count { G.faults rig.old ≤ G.faults rig.new }
{
    write_synced(rig, dev, gate, &[0])
}

/// Writes bytes behind the gate at a place, in bytes, which is closed, and then opens it: four device calls. A crash at any
/// moment leaves the gate closed or the bytes whole, and after `Ok` the gate open before them. `Failed` comes only where
/// the rig's count of faults rose.
pub fn fill<G: Rig>(rig: &mut G, dev: u8, gate: u32, body: &[u8]) -> Result<(), Failed>
    requires device { dev ≤ 8 }
    requires range { gate + 1 + length body.now ≤ device_len dev }
    requires stable { LeavesOnly (G.seen rig.old dev) (G.leaves rig.old dev) }
    requires closed { twin.is_open gate (G.seen rig.old dev) ≡ false }
    ensures filled { OnOk result ((twin.is_open gate (G.seen rig.new dev) ≡ true) × (twin.body_at (length body.now) gate (G.seen rig.new dev) ≡ body.now)) }
    ensures durable { OnOk result (LeavesOnly (G.seen rig.new dev) (G.leaves rig.new dev)) }
    ensures outside { AgreesOutside gate (length body.now + 1) (G.seen rig.old dev) (G.seen rig.new dev) }
    ensures whole { (twin.is_open gate (G.seen rig.new dev) ≡ false) ⊎ (twin.body_at (length body.now) gate (G.seen rig.new dev) ≡ body.now) }
    ensures any_moment { Span (G.moment rig.old) (G.since rig.new) (Fills dev gate (length body.now) body.now (G.seen rig.old) (G.leaves rig.old)) }
    ensures others { (d : ℕ) → d ≢ dev → G.seen rig.new d ≡ G.seen rig.old d }
    ensures others_leave { (d : ℕ) → d ≢ dev → LeavesSame (G.leaves rig.old d) (G.leaves rig.new d) }
    ensures time { Elapses (G.moment rig.old) (G.moment rig.new) (G.since rig.old) (G.since rig.new) }
    ensures tick { OnOk result (G.moment rig.new ≡ G.moment rig.old + 4) }
    ensures most { G.moment rig.new ≤ G.moment rig.old + 4 }
    ensures cause { OnErr result (Rises (G.faults rig.old) (G.faults rig.new)) }
    ensures quiet { OnOk result (G.faults rig.new ≡ G.faults rig.old) }
    ensures count { G.faults rig.old ≤ G.faults rig.new }
{
    write_synced(rig, dev, gate + 1, body)?;
    write_synced(rig, dev, gate, &[OPEN])
}
