//! Logged updates of a complex: changes and their undo, Commits, Ends, Starts, records of checkpoints, and what a recovery makes of
//! losers.
//!
//! Meaning: what `Parts` of sd_state are behind a change is `IsMade` (`specs/Changing.antt`), behind an undo with its CLR
//! `HasUndone`, or `HasUndoneFor` of a loser (`specs/Undoing.antt`, `specs/UndoingFor.antt`; ARIES, section 3), behind a record
//! without a page `HasEnd`, `with_start` and `with_more` (`specs/Sealing.antt`).
//! Keeps: nothing.
//! Promises: each call keeps the complex good, for the state of the serial table that its docstring names (`good`): a log record,
//! its row and its page's image come whole or not at all. `undo_forced` alone calls devices, and keeps each image meanwhile. The
//! Commit of a transaction that runs and the undo of one that rolls back are never refused, and take no memory.
//! Refuses: `LogFull` and `LsnEnd` exactly where the sums of the logs say so; `Memory`, which logs nothing; `Failed` in
//! `undo_forced` alone, only where the rig's count of faults rose.
//! Knows nothing of: scripts, replies, who may change what, when a log is forced, the order of a recovery's tasks.
//! Stands on: sd_base, sd_model, sd_page, sd_logrec, sd_rig, sd_log, sd_pool, sd_txn, sd_reclock, sd_pagelock, sd_chain, sd_redo,
//! sd_state.
//! Lends: in `proofs`, over what a crash may leave, the lemma of each law (Undone, UndoneTop, SealedLaws), what the calls of a
//! change find (ChangeCalls, ChangeMade), and of whom an answer tells (SealedCalls).
//! Held by the caller: that no fall is due; the record's lock, and the page; that the logs are settled of which a recovery undoes
//! or ends something.
//!
//! To change:
//! - free: bodies, proofs
//! - dear: `IsMade`, `HasUndone`, `HasUndoneFor`, `HasEnd`: what the crates of events do to records is proved against them
//! - frozen: nothing
#![tactic(auto)]

mod changes;
pub mod end_laws;
mod ends;
pub mod laws;
pub mod loser_laws;
mod loser_undo;
mod losers;
pub mod undo_laws;
mod undoing;

pub use changes::change;
pub use ends::{may_seal, seal_check, seal_commit, seal_end, seal_start};
pub use loser_undo::undo_forced;
pub use losers::{decide, end_recovery, recovering};
pub use undoing::{last_of, take_back, undo, undo_at};
