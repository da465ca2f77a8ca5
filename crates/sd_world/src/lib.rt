//! The world beside the serial table: where each page is and who asks for it, the sums by which pages, logs and LSNs end, and the
//! form in which each event is served. Laws alone.
//!
//! Meaning: a `Core` is the serial table with its waits, the `Pages` and the `Bounds`. `Turns` says what an event with its reply
//! makes of it: `Moves` of the pages, `Within` and `bounds_after` of the sums. A call of an event promises `Served`
//! (`specs/Serving.antt`), and entries lead from core to core by `Leads`, with tries of which nothing is noted by `LeadsOn`.
//! Keeps: nothing.
//! Promises: laws, over any core (`laws.rt`): what a refusal tells, what each event keeps, and how runs are put together.
//! Refuses: nothing.
//! Knows nothing of: records of logs, images of pages, where a complex keeps what the core says.
//! Stands on: sd_base, sd_model, sd_rig, sd_pagelock.
//! Lends: in `proofs` the lemma of each law, and in `Serving` that calls in a row are served as one.
//!
//! To change:
//! - free: proofs
//! - dear: `Core` and all that it is made of, `Turns`, `Served`, the statements of the laws
//! - frozen: nothing
#![tactic(auto)]

pub mod laws;
