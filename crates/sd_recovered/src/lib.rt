//! The passes over nine device images: scan, analysis, redo and undo, up to the table that they stand for (ARIES, section 6).
//!
//! Meaning: `stable` is what the devices' bytes keep, `DevicesAreSound` and `Recovered` what that stands for (sd_chain);
//! `IsRecovered` says it of a table (`specs/Devices.antt`). Of the passes: `AreLosers` (`specs/Losers.antt`), what analysis leaves;
//! `image_of` (`specs/ReadPages.antt`), what redo reads; `NewestAreRead` (`specs/UndoPass.antt`), what undo stands on.
//! Keeps: nothing.
//! Promises: `recovered` answers the table where the devices are sound (`sound`, `recovered`), and else `Damaged` (`unsound`) at
//! the first place that fails (`place`), of which there is one (`laws.rt`); it changes nothing on them. `ReadLogs` reads the same of
//! one device at a time: `next` of a log device, `finish` of the data device. Pass by pass: `scan` has a device's log and its master
//! (`kept`, `counts`), `analyse` the losers in rising order (`losers`), `newest_pages` each page's newest version (`newest`),
//! `undone` the table with what losers changed taken back (`values`). `relist` makes a transaction table of a log, which owes what
//! the log does (`rows`, `owes`).
//! Refuses: `Damaged`, and want of memory; `Unsound` in `read_master`, `Disorder` in `analyse`, `Misfit` in `undone`.
//! Knows nothing of: rigs, pools, locks, running transactions. Analysis sees one log and no page, undo no device.
//! Stands on: sd_base, sd_model, sd_page, sd_logrec, sd_rig, sd_log, sd_txn, sd_chain, sd_redo.
//!
//! To change:
//! - free: bodies, private helpers
//! - dear: the clauses of `recovered`, of `ReadLogs` (sd_restart's proofs cite them) and of each pass; `AreLosers`, `NewestPages`,
//!   `as_transaction`
//! - frozen: nothing
#![tactic(auto)]

mod closed;
mod ends;
mod following;
mod last_changes;
pub mod laws;
mod logs;
mod losers;
mod master;
mod merging;
mod owing;
mod reading;
mod redoing;
mod relisting;
mod scanning;
mod seen;
mod table;
mod taking_back;
mod transactions;
mod twin;
mod undo_pass;
mod values;

pub use logs::ReadLogs;
pub use losers::{AnalysisError, Loser, Losers, analyse};
pub use master::{MasterRecord, Unsound, read_master};
pub use merging::{NewestPages, newest_pages};
pub use owing::{owed, reserve};
pub use reading::{ReadDevices, open, recovered};
pub use relisting::relist;
pub use scanning::{Scanned, scan};
pub use undo_pass::{UndoError, undone};
