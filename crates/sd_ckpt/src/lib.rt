//! Checkpoints: begun and ended by an instance, and the master that tells where a log begins.
//!
//! Meaning: `HasBegun` (`specs/Beginnings.antt`) and `HasEnded`, `EndFails` (`specs/Endings.antt`) say what a begin and an end leave
//! of a complex, `MayPutMaster`, `with_master` (`specs/Masters.antt`) and `with_either` what a put of a master asks for and leaves,
//! `ReadsAlike` (`specs/Readings.antt`) when two places to begin at give the same. `specs/Laws.antt` has the laws.
//! Keeps: nothing.
//! Promises: `check_begin` and `check_end` serve their events (`served`). The tables that a begin keeps are exactly those of the
//! moment (`kept`), and it calls no device (`rig`). Behind an end the log begins at the greatest place that the least LSN of these
//! tables allows, and from there all reads as before (`moved`). Once a master is put a crash leaves that alone (`master`); where
//! that failed, the one or the other, and the complex has both places (`left`, `fallen`). Each image meanwhile stands for the same
//! state (`images`). The data device, and each other log, stays as it was.
//! Refuses: what the order of the event's causes says, each exactly, and `Memory`: all change nothing. Where a device failed the
//! instance has fallen, or the former master couldn't be read, and then the checkpoint stays begun (`failed`).
//! Knows nothing of: when a checkpoint begins or ends.
//! Stands on: sd_base, sd_model, sd_page, sd_logrec, sd_rig, sd_log, sd_txn, sd_pagelock, sd_chain, sd_world, sd_recovered,
//! sd_state, sd_update, sd_moves, sd_fits, sd_transfer.
//! Held by the caller: of a begin, that an instance that takes checkpoints has at most 64 unresolved transactions; of a put, that
//! the checkpoint's end is forced, and the log's last record; that no fall is due.
//!
//! To change:
//! - free: bodies, private helpers, proofs
//! - dear: the clauses of `check_begin`, `check_end` and `put_master`, `MayBegin`
//! - frozen: nothing
#![tactic(auto)]

mod begin;
mod ending;
mod master;
mod tables;

pub use begin::check_begin;
pub use ending::check_end;
pub use master::{NotPut, put_master};
