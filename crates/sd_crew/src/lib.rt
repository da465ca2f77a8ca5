//! Workers: each takes the turns of one instance, in a thread of its own where one can be made.
//!
//! Meaning: a `Worker` is an instance with its pass through a turnstile; `HasWorked` (`specs/Worked.antt`) tells the turns that
//! it took, one after another, and how the last of them ended.
//! Keeps: nothing behind a call.
//! Promises: `work` takes turns of each worker's instance with its pass, and no others, until one answers `Ended` or `Short`, or
//! thousands in a row weren't ready (`worked`); what `take_turns` hands out was led to by turns from what it was given (`led`).
//! Refuses: nothing; `take_turns` hands the value back where there is no memory.
//! Knows nothing of: what a turn does, how many threads there are.
//! Stands on: sd_base, sd_turnstile.
//!
//! To change:
//! - free: bodies, when a worker gives up (`MOST_WAITS`, with `IsDone`)
//! - dear: the clauses of `take_turns`
//! - frozen: nothing
#![tactic(auto)]

mod crew;
#[cfg(test)]
mod tests;
mod worker;

pub use crew::take_turns;
pub use worker::{Worker, work};
