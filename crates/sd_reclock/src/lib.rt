//! The record lock manager: who holds which record in which mode, who waits for whom, and which wait would close a deadlock.
//!
//! Meaning: a `LockTable` is the locks and the waits (`specs/Locks.antt`); who is blocked and which cycle is closed is said in
//! sd_base (`specs/Waits.antt`). The search for a cycle goes over any keeper of locks that says who stands in whose way
//! (`Standing`), from one that waits to one that it waits for (`specs/Searching.antt`).
//! Keeps: two locks of two transactions on one record never conflict.
//! Promises: `look` answers exactly (`ok`, `free`, `refused`): the lowest obstacle, or a shortest cycle, the lowest by numbers, as
//! `cycle` finds one exactly where the asked wait closes one (`none`, `found`); `grant` raises a lock in place; `holder` is the
//! lowest other holder, `owner_in` the lowest with an `Excl` lock in a page; `lower`, `calm`, `release_all` and `retain` take away
//! what they name and nothing else, without memory.
//! Refuses: `Blocked`, `Deadlock`, and `Memory`, which leaves all as before.
//! Knows nothing of: pages, logs, what a transaction does with a record, when it ends.
//! Stands on: sd_base.
//!
//! To change:
//! - free: bodies, how far the search has come (`specs/Reaching.antt`), which records stand in place (`few.rt`), and which behind
//!   an index and marks of their pages (`many.rt`)
//! - dear: `LockTable`, `Standing`, the clauses of `RecordLocks` and of `cycle`
//! - frozen: nothing; no byte on a device depends on it
#![tactic(auto)]

mod deadlock;
mod few;
mod holders;
mod locks;
mod many;
mod others;
mod table;
mod wait;

pub use deadlock::{Asking, Standing};
pub use table::RecordLocks;
pub use wait::{Asked, clashes};
