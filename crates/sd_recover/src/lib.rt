//! Failures and recovery: instances fail, are recovered step by step and join, and a complex is closed (ARIES, section 6).
//!
//! Meaning: each call but those of `tasks.rt` is an event of the serial table, and serves it as `Serving` of sd_fits says, or
//! `ServingHall` where it closes the complex. `IsNext` says which task of a recovery is the first that there is (`specs/Tasks.antt`),
//! `HasDone` what a step leaves that did it (`specs/Doing.antt`), and `steps_left` what is left to do (`specs/Work.antt`).
//! Keeps: nothing.
//! Promises: from each world that the complex fits, the answer leads to one that it fits then (`served`). `next_task` is exact, and
//! a step does that task: the lowest device that isn't settled is settled (`settling.rt`), the lowest lost page rebuilt
//! (`rebuilding.rt`), the transaction in doubt decided (`deciding.rt`), of the losers' open records the one with the greatest LSN
//! undone (`undoing.rt`), the lowest loser's End put; or nothing is left, and the recovery ends (`ending.rt`). Each step lowers what
//! is left to do. A failure, a begin and an arming call no device and take no memory. Once all instances have failed, whatever a
//! crash leaves of the devices stands for the serial table as it is then (`fail_all`).
//! Refuses: what the order of the event's causes says, the first that applies; `Memory` leaves a recovery where it was; a closed
//! complex, each event but its reopening and an arming as `Down` (`on_closed`).
//! Knows nothing of: whose turn it is, what is noted of an answer, how a complex opens again.
//! Stands on: sd_base, sd_model, sd_page, sd_logrec, sd_rig, sd_log, sd_pool, sd_txn, sd_reclock, sd_pagelock, sd_chain, sd_redo,
//! sd_world, sd_state, sd_update, sd_moves, sd_fits, sd_transfer.
//! Lends: in `proofs`, what the rows say of a task (Rows, Owns, Awaited), and how what is left falls with steps and pulls (Work).
//! Held by the caller: that no fall is due, which `Fits` says; the shape in which a closed complex opens again.
//!
//! To change:
//! - free: bodies, proofs
//! - dear: `IsNext`, `tasks_in`, `steps_left`
//! - frozen: nothing
#![tactic(auto)]

mod arming;
mod beginning;
mod closing;
mod deciding;
mod ending;
mod failing;
mod joining;
mod rebuilding;
mod recovering;
mod settling;
mod tasks;
mod undoing;

pub use arming::arm;
pub use beginning::recover_begin;
pub use closing::{fail_all, on_closed};
pub use failing::fail;
pub use joining::join;
pub use recovering::{Recovery, recover_step};
pub use tasks::{Task, needed, next_task};
