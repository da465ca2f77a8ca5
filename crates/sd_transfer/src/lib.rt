//! Page events: a page is asked for, given, taken, evicted, written and shown, and the log of an instance is forced.
//!
//! Meaning: each call is an event of the serial table, and serves it as `Serving` of sd_fits says; but `force_or_fall`, for any
//! event that wants a log forced before it goes on: it spares the event's worlds, or serves it as `Failed`.
//! Keeps: nothing.
//! Promises: from each world that the complex fits, the answer leads to one that it fits then (`served`). The log of an instance
//! that has a page alone is forced, where it is settled, before the page leaves it (`give`, `forced`), and a page is on the data
//! device only once the records that changed it are forced. An ask reads alone; a take and an eviction call no device; a give
//! leaves the data device as it was (`disk`); to show a page changes nothing. A force, a give and a page write make the writes and
//! syncs that are due, and no other (`idle`, `shared`, `clean`, `tick`). What no world has stays, but for what the event is for and
//! what a fall leaves (`untouched`), and recoveries that are under way go on (`rest`).
//! Refuses: what the order of the event's causes says, the first that applies; `Memory`, by `ask` and `take` alone, changes nothing
//! that a world tells. Once the device of a log fails, or a write of the data device, the instance has fallen (`down`, `failed`).
//! Knows nothing of: whose turn it is, what is noted of an answer.
//! Stands on: sd_base, sd_model, sd_page, sd_logrec, sd_rig, sd_log, sd_pool, sd_txn, sd_pagelock, sd_chain, sd_world, sd_state,
//! sd_moves, sd_fits.
//! Lends: in `proofs`, what a page that moves fits (PassFits), what an answer tells (Told), how a failed event (Broken) and a failed put
//! (Unput) are served, and what a force, a put and a fall leave of what no world has (Touched) and of recoveries (Rested).
//! Held by the caller: that no fall is due, which `Fits` says.
//!
//! To change:
//! - free: bodies, proofs
//! - dear: the clauses of `force_or_fall`
//! - frozen: nothing
#![tactic(auto)]

mod asking;
mod barring;
mod evicting;
mod forcing;
mod giving;
mod showing;
mod taking;
mod writing;

pub use asking::ask;
pub use evicting::evict;
pub use forcing::{force, force_or_fall};
pub use giving::give;
pub use showing::show;
pub use taking::take;
pub use writing::write_page;
