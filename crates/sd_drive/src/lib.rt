//! A script driven through the hall: its opening and its lines, one after another, with the pulls of the pages that they need.
//!
//! Meaning: a world is a core and what is told of the script (`specs/Driving.antt`): `Drives` says that each entry turns the core,
//! and is the one that the script is due; `HasRisen` (`specs/Rising.antt`), that the opening is done; `Reached`
//! (`specs/Reaching.antt`), that the first lines have their replies.
//! Keeps: that the hall is in a world to which its entries drive (`IsIn`, `specs/Driven.antt`), its complex open or closed.
//! Promises: the entries are those that the script is due, and no others (`told`, `memory`). In the opening each instance that is
//! down recovers itself, in rising order, then the instances join, and then each one that isn't up lets its pages go
//! (`Rise::opening`): nobody is left down, or with pages and not up (`laws::openings`). A line's event is done once, and once
//! more behind the pull of the page that it wants (`operate`); a line that joins or recovers all goes on up to the first refusal
//! (`Driver::replay`). A recovery, by another or by the instance itself, goes on step by step, up to so many where a line bounds
//! it, and pulls the page that is undone next for who recovers (`recover`). It ends, since each round leaves fewer (`rounds_in`,
//! `specs/Resting.antt`), and so does a pull (`distance`, `specs/Measure.antt`). A run is a chain of devices, entry by entry
//! (`RunsOn`); what that says of faults and of images is a law (`laws.rt`).
//! Refuses: `Memory`, after which what was noted was due; in the opening `Failed`, where the rig's count of faults rose (`breaks`).
//! Knows nothing of: text, reports, what an event does.
//! Stands on: sd_base, sd_model, sd_page, sd_logrec, sd_rig, sd_pool, sd_txn, sd_pagelock, sd_chain, sd_world, sd_state, sd_update,
//! sd_fits, sd_recover, sd_script, sd_hall.
//! Held by the caller: that nothing has happened in the hall, and that the lines stand as the grammar has them (`AreDriven`).
//!
//! To change:
//! - free: bodies, proofs
//! - dear: `Tells`, `Drives`, the clauses of `opening`, `replay`, `operate` and `recover`
//! - frozen: nothing
#![tactic(auto)]

mod driver;
mod emptying;
mod events;
mod forms;
pub mod laws;
mod opening;
mod pull;
mod recovery;
mod replies;
mod standing;

pub use driver::Driver;
pub use events::operate;
pub use opening::Rise;
pub use pull::must_write;
pub use recovery::{Outcome, Owner, recover};
pub use standing::{inst_no, page_no, status_of};
