//! The hall in which events happen: each is served by the call that it stands for, and noted in the book with its reply.
//!
//! Meaning: `Keeps` (`specs/Keeping.antt`): the entries lead from a start to a core that the complex fits, and the book has room
//! for the entries that the hall owes: `entries_owed` (`specs/Ledger.antt`) counts for each transaction that runs its commit and
//! its undos, for one that rolls back the rest of that, for each instance that is up its failure. `IsServed` (`specs/Served.antt`):
//! the event has a call, as each has.
//! Keeps: `Keeps`, through each call.
//! Promises: a hall opens from sound devices alone, to the world of which they tell (`Hall::open`). An event that was done is noted
//! with its reply, and no other is (`Hall::call`); it was served as sd_fits says, also while the complex is closed (`serve_body`,
//! `turned`). A transaction that runs can be committed, one that rolls back can do so to its end, and an instance that is up can
//! fail, without memory (`there`): `is_owed_in` and `more` count what that takes. A step of a recovery that is told is made, and a
//! page that is pulled leaves recoveries under way (`works`); a step wants a page only where an undo is next (`awaits`); what opens
//! again is what the devices tell (`reopens`). One instance at most may update a page, each copy its newest version (`laws.rt`).
//! Refuses: what the call of the event refuses, which is noted as its reply. `Memory` notes nothing, and the complex fits the same
//! core behind it; as a hall opens, also `Failed` and `Damaged`.
//! Knows nothing of: sessions, scripts, how a line is driven.
//! Stands on: sd_base, sd_model, sd_page, sd_rig, sd_pool, sd_txn, sd_pagelock, sd_chain, sd_recovered, sd_world, sd_state,
//! sd_update, sd_moves, sd_fits, sd_ops, sd_transfer, sd_ckpt, sd_recover, sd_restart.
//! Held by the caller: that a pool has a frame, and at most 1,024; of `serve_body` and `turned`, what `Keeps` has of the complex.
//!
//! To change:
//! - free: bodies, proofs
//! - dear: `Keeps`, `IsServed`, `fits_in`, `ServesIn`, `entries_owed`
//! - frozen: nothing
#![tactic(auto)]

mod dispatch;
mod hall;
pub mod laws;
mod ledger;
mod turning;

pub use dispatch::put_told;
pub use hall::Hall;
pub use ledger::{is_owed_in, more};
pub use turning::{serve_body, turned};
