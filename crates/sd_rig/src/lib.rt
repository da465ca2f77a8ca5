//! Nine devices, the data device 0 and eight logs: what a crash may leave of them, and writes that it leaves whole or not at all.
//!
//! Meaning: `Rig` tells what a read gives, what a crash now may leave, and what crashes since a moment may have left
//! (`specs/Devices.antt`, `specs/Spans.antt`); `MemRig` tells them from a record of what was done (`specs/Replay.antt`). What a
//! gate and the two slots of a twin stand for is said in sd_base (`specs/Twin.antt`: `chosen_slot`).
//! Keeps: after a sync that succeeds a crash leaves what a read gives; a crash touches only ranges that were written, and leaves
//! bytes. A gate opens once what stands behind it is stable; a put changes the slot that doesn't count, its gate closed.
//! Promises: `Failed` only where the count of faults rose (`cause`); a `MemRig` fails exactly where its armed trouble meets the
//! call (`met`, `fails`), since its record takes no memory and `short` never rises. At any moment of a `fill` a crash leaves the
//! gate closed or the bytes whole, and of a `put` the old body or the new one (`any_moment`); at `Ok` the gate is open (`filled`),
//! the new body counts (`body`), and both last (`durable`). `choose` and `chosen_of` answer which slot counts.
//! Refuses: nothing; the range lies in the device by condition. What is written behind gates takes no memory.
//! Knows nothing of: pages, logs, what the bytes mean, but for the number that a body begins with.
//! Stands on: sd_base.
//! Held by the caller: a crash leaves of the device what it reads (`stable`); the gate is closed (`fill`), or open (`close`).
//!
//! To change:
//! - free: bodies, `Front`, `Disk`, `History` and `Drives` inside
//! - dear: the clauses and laws of `Rig`, those of `fill`, `close` and `put`, the lengths of the devices
//! - frozen: which bytes a pick leaves (tests above name them); the open gate, 0xA5, where the gates of two slots stand, which slot
//!   a put fills (docs/FORMATS.md)
#![tactic(auto)]

mod disk;
mod drives;
mod front;
mod gate;
mod history;
mod memory_rig;
mod putting;
mod rig;
mod slots;
mod troubles;
mod twin;

pub use gate::{OPEN, close, fill, is_open};
pub use memory_rig::MemRig;
pub use putting::put;
pub use rig::{DATA_LEN, LOG_LEN, Rig, device_len};
pub use slots::{Chosen, chosen_of, number_of};
pub use twin::{Twin, choose};
