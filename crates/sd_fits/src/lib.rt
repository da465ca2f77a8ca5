//! A complex that fits a world, and how it goes on fitting: laws alone.
//!
//! Meaning: `Fits` says when a complex is as a world says; `Serving` is what a call of an event promises of it, and `ServingHall`
//! of one that is open or closed (Bodies); `IsWithinSums` says when devices are within a world's sums (Sums), `FitsClosed` when a
//! closed complex is as a world says (Closed), `opening_core` which world devices tell (Opened), `LeavesRest` what others leave of
//! a recovery (Resting), `IsUntouched`, `HasChanged` and `FallTouches` what a call leaves that no world has (Untouched).
//! Keeps: nothing.
//! Promises: whatever a crash leaves of a complex that fits stands for the world's state and is within its sums; a fresh complex,
//! and one opened from sound devices, fits its world, and so on through a closing and a reopening (`laws.rt`).
//! Refuses: nothing.
//! Knows nothing of: the calls of events.
//! Stands on: sd_base, sd_model, sd_page, sd_logrec, sd_rig, sd_log, sd_pool, sd_txn, sd_reclock, sd_pagelock, sd_chain, sd_world,
//! sd_state, sd_update, sd_moves.
//! Lends: in `proofs` the lemma of each law (Fitting), and how a complex goes on fitting: where nothing or locks alone change
//! (Served, Still), where transactions work, turn and end (Heads, Worked, Taking, Turning, Leaving), where pages come and go
//! (Places, Frames), where a log grows or is forced (Recording, Changing, Undoing, Sealing, Forcing), where an instance falls or is
//! recovered (Falling, Recovering); of a record (Values, Unclaimed, Doubts), of who stands in the way of a lock (Looking), of a
//! refusal (Refused), of a row (Known), of the data device (Disk), the sums (Sums), frames (Framed) and events of others (Resting);
//! how a complex is closed and opened (Closing, Reopening, Opening, Opened), and events on one that is open or closed (Bodies).
//!
//! To change:
//! - free: proofs
//! - dear: `Fits`, `Serving`, `FitsClosed`, `ServingHall`, `Body`
//! - frozen: nothing
#![tactic(auto)]

mod body;
pub mod laws;

pub use body::Body;
