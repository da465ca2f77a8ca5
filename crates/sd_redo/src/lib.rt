//! Redo: the records of all logs that change a page, put in their order and redone on its image (ARIES, sections 5.2 and 6.2).
//!
//! Meaning: a change is a record of a log that changes a page; a page's changes are merged where they are those of the logs by LSN
//! (`IsChange`, `IsMerged`, `specs/Changes.antt`). `FitsPage` says when a page is as a record found it, `redo` and `replay` what
//! records leave of a page (`specs/Pages.antt` of sd_chain).
//! Keeps: nothing.
//! Promises: `merged_changes` has each change of all logs that were read, by page and then by LSN, and lends its record;
//! `merge_page` has the forced records of one page in live logs by LSN, those of one LSN in the order of the logs (`turns`). Where
//! LSNs rise in each log a page's are its chain (`chains`, `chain`), and a page costs what its own records cost. `fits` tells
//! whether a page is as a record found it, `redo` does what the record says, `try_replay` redoes a chain as far as it fits (`fit`,
//! `stopped`; `specs/Replayed.antt`), `replay` one that fits, and `replay_all` one on each of many images, in several threads where
//! there is much to redo (`specs/PageReplays.antt`); these take no memory.
//! Refuses: nothing but for want of memory, in `merged_changes` and `merge_page`.
//! Knows nothing of: where an image is kept, twins, transactions.
//! Stands on: sd_base, sd_page, sd_logrec, sd_log, sd_chain.
//! Held by the caller: each record is one of the grammar (`spelled`); one that is redone is of the page and fits it; the records of
//! a chain change a page (`pages`), and those of `replay` and `replay_all` fit one after another (`joins`).
//!
//! To change:
//! - free: bodies, private helpers
//! - dear: `Change`, `IsMerged`, the clauses of `merged_changes`, `merge_page`, `fits`, `redo` and the replays
//! - frozen: nothing
#![tactic(auto)]

mod change;
mod parallel;
mod redoing;
mod replaying;

pub use change::{Change, damaged_log, merge_page, merged_changes};
pub use parallel::{PageReplay, replay_all};
pub use redoing::{fits, redo};
pub use replaying::{replay, try_replay};
