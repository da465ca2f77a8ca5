//! One instance of a complex at work, one call at a time: for tests and benches.
//!
//! Meaning: `IsReady` is the invariant of sd_state with nothing under way and no fall due, for some state of the serial table
//! (`specs/Ready.antt`).
//! Keeps: nothing; each call is one or several of sd_state, sd_update and sd_moves, of instance 1 for the transactions that it
//! began.
//! Promises: a complex that is ready is so after each call, but for one whose force failed; what a call needs and code can see is
//! tested (`standing.rt`), so nothing but `IsReady` is asked for. `begun` and `written` make their call once more where there was
//! no memory.
//! Refuses: what these crates refuse, and `Odd` what doesn't stand as the call needs it; both leave the complex ready, but for
//! `Failed` by a force.
//! Knows nothing of: which state of the serial table it is, replies, other instances, recovery.
//! Stands on: sd_base, sd_model, sd_page, sd_logrec, sd_rig, sd_log, sd_pool, sd_txn, sd_reclock, sd_pagelock, sd_chain, sd_state,
//! sd_update, sd_moves.
//! Beside the house: tests and benches hold it, and no part of the program is to stand on it.
//!
//! To change:
//! - free: all but the clauses
//! - dear: nothing
//! - frozen: nothing
#![tactic(auto)]

mod calls;
mod devices;
mod ends;
mod standing;
mod starting;
mod stop;
mod work;

pub use calls::{begun, get_page, is_lack, is_up, lacked, record, written};
pub use devices::blank;
pub use ends::{commit, roll_back_whole, undo};
pub use starting::{arm, first, hold, start};
pub use stop::Stop;
pub use work::{begin, put};
