//! Moves without a log record: a page passes, is put or rebuilt, an instance falls, a device is settled, a complex is made.
//!
//! Meaning: `specs/` says what a call leaves of the parts of a complex: of a page's place (Places), of a page that passes
//! (Passing), is put (`with_written`) or rebuilt (`MayRebuild`), of a fall (`IsFallen`), of a log that is read again (`IsReread`).
//! `OpensTo` (Opening) says to which states of the serial table devices open.
//! Keeps: nothing; each call takes a complex, or makes one (`fresh`, `assemble`).
//! Promises: each call keeps the complex good for each state for which it is, and a fall for the state in which the instance fell
//! (`good`); a move, a put and a rebuild leave each page's newest version. `put_page`, `rebuild`, `newest_image` and `settle` alone
//! call devices: each image meanwhile stands for that (`images`), and the data device has what was put or rebuilt (`clean`).
//! Refuses: `Memory` in `queue_ask`, `take_copy`, `newest_image` and `settle`, and in `fresh` and `assemble`, which hand the
//! devices back; `Unread`, `Unwritten`, `Unsynced` and `Failed` only where the rig's count of faults rose. A fall takes no memory.
//! Knows nothing of: events, scripts, replies; who may ask for a move, why an instance falls, how a log is forced.
//! Stands on: sd_base, sd_model, sd_page, sd_logrec, sd_rig, sd_log, sd_pool, sd_txn, sd_reclock, sd_pagelock, sd_chain, sd_redo,
//! sd_recovered, sd_world, sd_state.
//! Lends: in `proofs`, how `Good` goes through the moves of a page (Placed, Passed, PutCleaned, Freed), a fall (FallGood, FallDown)
//! and a log read again (SettledWhole), and what sums see of it (FallBounds, SettledBounds); of copies (Copies) and of opening
//! again (OpenedAgain).
//! Held by the caller: that the row of the directory may be taken; that the log is forced of who gives or puts a page; that the
//! instance falls after a failed force or `Unwritten`.
//!
//! To change:
//! - free: bodies, private helpers, proofs
//! - dear: the clauses, `IsFallen`, `Restored`, `OpensTo`: events and restarts are proved against them
//! - frozen: nothing
#![tactic(auto)]

mod assembling;
mod blanks;
mod crash;
mod passing;
mod places;
mod rebuilding;
mod reread;
mod writing;

pub use assembling::{Restored, assemble};
pub use blanks::fresh;
pub use crash::{cut, down};
pub use passing::{move_copy, take_copy};
pub use places::{drop_copy, queue_ask, raise, touch};
pub use rebuilding::{newest_image, rebuild};
pub use reread::{Unsettled, last_epoch, settle};
pub use writing::{Unput, put_page};
