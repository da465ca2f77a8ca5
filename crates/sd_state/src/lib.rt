//! The complex: all parts in one value, and one invariant of what they have to do with each other.
//!
//! Meaning: `Parts` is what clauses read of a `Complex` (`specs/Parts.antt`), and `Stands` what an image of the nine devices stands
//! for (`specs/Images.antt`). `Good` is the invariant (`specs/Good.antt`): the complex is as a state of the serial table says, with
//! what is under way.
//! Keeps: nothing but its parts; a state of the serial table is named in clauses alone.
//! Promises: whatever a crash leaves stands for the serial table's state, and who may update a page is alone with it (`laws.rt`).
//! Each call that changes a complex keeps it good, for the state of the serial table that its docstring names, and each image since
//! its begin stands. What logs a record, and moves of pages and instances, stand in crates above.
//! Refuses: `LsnEnd` and `TooManyTxns` exactly; `Failed` only where the rig's count of faults rose; `Memory`, which changes nothing
//! but by a force.
//! Knows nothing of: scripts, replies; bytes, but through the crates below.
//! Stands on: sd_base, sd_model, sd_page, sd_logrec, sd_rig, sd_log, sd_pool, sd_txn, sd_reclock, sd_pagelock, sd_chain.
//! Lends: in `proofs`, over what a crash may leave, the lemma of each law, and how `Good` goes through a force (Forced, Failed).
//! Held by the caller: that no fall is due, and that the instance falls which is to fall after a failed force.
//!
//! To change:
//! - free: bodies, proofs
//! - dear: `Parts`, `Good`, `Half`, `Stands`: each call is proved against them
//! - frozen: nothing
#![tactic(auto)]

mod complex;
mod ending;
mod forcing;
mod joining;
pub mod laws;
mod lending;
mod locking;
mod sums;
mod working;

pub use complex::{Checkpoint, Complex, Due, Shape};
