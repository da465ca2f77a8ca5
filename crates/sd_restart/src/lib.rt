//! Restart: a complex opened from nine devices, each part made of what was read of them.
//!
//! Meaning: `OpensTo` (sd_moves) says to which states of the serial table devices open, and `Recovered` (sd_chain) what table they
//! stand for; `Calms` (`specs/Devices.antt`) what syncs and reads do to them. `IsReading` (`specs/Reading.antt`) says what was read
//! of sound devices, and `IsMade` (`specs/Made.antt`) what each part of a complex is made of it.
//! Keeps: nothing.
//! Promises: `restart` syncs each device once (`tick`) and opens sound devices to a complex that is good for each state to which
//! they open, with the table that they stand for; no image that a crash may leave meanwhile is one that it might not leave before.
//! Of whom a log leaves open a row stands in its instance's table, retained, with an exclusive lock on each record that it has
//! open; a page with records that the data device lacks is lost, each other free (`restored_of`, `made`). What stands for a state
//! of the serial table opens to that state's table (`laws.rt`).
//! Refuses: `Failed` where a device fails, `Memory`, and `Damaged` exactly where the devices aren't sound, with the first place
//! that fails.
//! Knows nothing of: events, waits, the number of instances that are to join.
//! Stands on: sd_base, sd_model, sd_page, sd_logrec, sd_rig, sd_log, sd_txn, sd_reclock, sd_pagelock, sd_chain, sd_recovered,
//! sd_state, sd_moves.
//! Lends: in `proofs`, that what was read of sound devices is what `restored_of` wants, and what it makes of that (Found).
//! Held by the caller: that a pool has a frame, and at most 1,024.
//!
//! To change:
//! - free: bodies, private helpers
//! - dear: the clauses of `restart` and `reopen`, `IsReading`, `IsMade`
//! - frozen: nothing
#![tactic(auto)]

mod claims;
mod devices;
mod finding;
pub mod laws;
mod parts;
mod restarting;

pub use devices::{read_devices, settle_devices};
pub use finding::restored_of;
pub use restarting::{reopen, restart};
