//! A tail as it comes onto the device: the group's length, the records, and the next gate.

ghost use Rattle.std.specs.Prelude.{◌≡◌, ◌≢◌, ◌⊎◌, ℕ, ◌+◌, ◌^◌, ◌<◌, ◌≤◌, true, false, length, vec_len, vec_capacity, IsOk, OnErr, OnOk};
ghost use Rattle.sd_base.specs.Streams.{Rises};
ghost use Rattle.sd_base.specs.Twin as twin;
ghost use Rattle.sd_rig.specs.Devices.{AgreesOutside, Elapses, LeavesOnly, LeavesSame, Span, device_len};
ghost use Rattle.sd_rig.specs.Gates.{Fills};
ghost use Rattle.sd_log.specs.Buffers.{BufferState, framed};

use sd_base::{Failed, Memory};
use sd_logrec::{GROUP_HEAD, put_bytes, put_u32};
use sd_rig::{Rig, fill};
use std::alloc::Global;
use std::marker::Model;

/// The length of a group's length in bytes.
const HEAD: usize = 4;

/// Memory for a tail with the group's length in front and the next gate behind. Between two calls it has no bytes.
#[derive(Drop)]
pub struct Buffer {
    bytes: Vec<u8>,
}

impl Model for Buffer {
    ghost use Rattle.std.specs.Prelude.{◌≡◌, ◌-◌, ◌≤◌, vec_len, vec_capacity};
    ghost use Rattle.sd_log.specs.Buffers.{BufferState};

    ghost Value = { BufferState };

    ghost view = { λ b. record { room = vec_capacity b.bytes - 5 } };

    ghost invariant = { λ b. (vec_len b.bytes ≡ 0) × (5 ≤ vec_capacity b.bytes) };
}

impl Buffer {
    /// Room for no bytes.
    pub fn new(alloc: Global) -> Result<Self, Memory> {
        let bytes = Vec::with_capacity(alloc, HEAD + 1)?;
        Ok(Buffer { bytes })
    }

    /// Makes room for a tail of so many bytes.
    pub fn reserve(&mut self, room: usize) -> Result<(), Memory>
        requires { room < 2 ^ 33 }
        ensures ok { OnOk result (room ≤ self.new.room) }
        ensures stays { self.old.room ≤ self.new.room }
        ensures there { room ≤ self.old.room → IsOk result }
    {
        self.bytes.reserve(HEAD + room + 1)?;
        Ok(())
    }

    /// Writes a tail of these bytes as a group behind its gate, with a closed gate behind it, and opens its gate.
    pub fn write<G: Rig>(
        &mut self,
        rig: &mut G,
        dev: u8,
        gate: u32,
        text: &[u8],
    ) -> Result<(), Failed>
        requires room { length text.now ≤ self.old.room }
        requires device { dev ≤ 8 }
        requires short { length text.now < 2 ^ 32 }
        requires range { gate + 1 + (HEAD + length text.now + 1) ≤ device_len dev }
        requires stable { LeavesOnly (G.seen rig.old dev) (G.leaves rig.old dev) }
        requires closed { twin.is_open gate (G.seen rig.old dev) ≡ false }
        ensures room { self.old.room ≤ self.new.room }
        ensures filled { OnOk result ((twin.is_open gate (G.seen rig.new dev) ≡ true) × (twin.body_at (GROUP_HEAD + length text.now) gate (G.seen rig.new dev) ≡ framed text.now)) }
        ensures durable { OnOk result (LeavesOnly (G.seen rig.new dev) (G.leaves rig.new dev)) }
        ensures outside { AgreesOutside gate (GROUP_HEAD + length text.now + 1) (G.seen rig.old dev) (G.seen rig.new dev) }
        ensures whole { (twin.is_open gate (G.seen rig.new dev) ≡ false) ⊎ (twin.body_at (GROUP_HEAD + length text.now) gate (G.seen rig.new dev) ≡ framed text.now) }
        ensures any_moment { Span (G.moment rig.old) (G.since rig.new) (Fills dev gate (GROUP_HEAD + length text.now) (framed text.now) (G.seen rig.old) (G.leaves rig.old)) }
        ensures others { (d : ℕ) → d ≢ dev → G.seen rig.new d ≡ G.seen rig.old d }
        ensures others_leave { (d : ℕ) → d ≢ dev → LeavesSame (G.leaves rig.old d) (G.leaves rig.new d) }
        ensures time { Elapses (G.moment rig.old) (G.moment rig.new) (G.since rig.old) (G.since rig.new) }
        ensures cause { OnErr result (Rises (G.faults rig.old) (G.faults rig.new)) }
        ensures quiet { OnOk result (G.faults rig.new ≡ G.faults rig.old) }
        ensures tick { OnOk result (G.moment rig.new ≡ G.moment rig.old + 4) }
        ensures most { G.moment rig.new ≤ G.moment rig.old + 4 }
        ensures count { G.faults rig.old ≤ G.faults rig.new }
    {
        frame(&mut self.bytes, text);
        let filled = fill(rig, dev, gate, &self.bytes);
        self.bytes.truncate(0);
        filled
    }
}

// Writes the group's length, the tail's bytes, and a closed gate.
fn frame(bytes: &mut Vec<u8>, text: &[u8])
    requires none { vec_len bytes.old ≡ 0 }
    requires short { length text.now < 2 ^ 32 }
    requires room { length text.now + 5 ≤ vec_capacity bytes.old }
    ensures items { bytes.new.items ≡ framed text.now }
    ensures capacity { vec_capacity bytes.old ≤ vec_capacity bytes.new }
{
    put_u32(bytes, text.len() as u32);
    put_bytes(bytes, text);
    bytes.push_reserved(0);
}
