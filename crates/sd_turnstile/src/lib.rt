//! The turnstile: one instance after another makes a turn of one value, in the order of their tickets.
//!
//! Meaning: a `Shift` is a value with a history; `turns` says which turns it may make, and `IsLed` (`specs/Turns.antt`) what they
//! lead to. A `Pass` is the right to turns, seen as what its holder knows (`View`): how much of the history it has seen, and
//! which places of it are its own. A turnstile is three words (the next ticket, the ticket that is served, the length of the
//! history) and a slot with the value; `Stands` (`specs/Rule.antt`) holds between any two steps on them.
//! Keeps: the value is in the slot, or out with the pass whose ticket is served; each place of the history is in one pass, once.
//! Promises: `turn` makes one turn of the value, and answers what that answered (`makes`); turns alone lead from what went in to
//! what comes out by `close` (`led`), and all its new entries are those of the passes (`mine`).
//! Refuses: nothing; `new` hands the value back where there is no memory.
//! Knows nothing of: what a turn does, threads, who comes next.
//! Stands on: sd_base.
//!
//! To change:
//! - free: bodies, how a thread waits (`rest`, `pause`)
//! - dear: the clauses of `Shift` and `Turnstile`, and `Makes`
//! - frozen: nothing
#![tactic(auto)]

pub mod laws;
mod rule;
mod shift;
mod turnstile;

pub use rule::View;
pub use shift::{Shift, Turn, Why};
pub use turnstile::{Pass, Turnstile};
