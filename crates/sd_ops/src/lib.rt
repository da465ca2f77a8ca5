//! Transactions: begun, marked, committed and rolled back, and the records that they lock, read and change.
//!
//! Meaning: a call of an event promises `Serving` of sd_fits: from each world that the complex fits, it turns to one that it fits
//! then, as the reply says. `HalfServed` says the same of a call before it ends the transaction's wait (`specs/Halves.antt`).
//! Keeps: nothing.
//! Promises: each event is answered as the serial table and the pages allow (`served`), and `ask` names exactly who stands in the
//! way of a lock. A commit, and an undo, which writes one compensation record, leave the data device as it was (`disk`); the
//! others make no device call (`rig`). What no world has stays but for what `untouched` names, and a change puts one record
//! (`logged`). A transaction's locks go once its Commit or End is forced, where it has a record. Room, LSNs and memory are
//! reserved for that: a full log can be rolled back, and no commit, undo or begin of a rollback wants memory (`there`).
//! Refuses: in the order of the causes of sd_model; `Memory` comes wherever another call finds none, and changes nothing. Where the
//! force of a commit or an End failed the instance has fallen (`CutCommit`, `Failed`).
//! Knows nothing of: scripts, sessions, whose turn it is, how a page comes to an instance.
//! Stands on: sd_base, sd_model, sd_page, sd_logrec, sd_rig, sd_log, sd_pool, sd_txn, sd_reclock, sd_pagelock, sd_chain, sd_world,
//! sd_state, sd_update, sd_moves, sd_fits.
//! Lends: in `proofs`, how a call on a record is refused (Work), and how one whose wait is ended is served (WaitEnded); what holds
//! of a page that an instance has (Held), of a lock that is refused (Asking), and of what is touched (Leaving).
//! Held by the caller: that the complex fits a world.
//!
//! To change:
//! - free: bodies, proofs
//! - dear: `HalfServed`, `LacksPage`, the clauses of `copy`
//! - frozen: nothing
#![tactic(auto)]

mod copies;
mod edits;
mod ending;
mod inserting;
mod listing;
mod locking;
mod putting;
mod reads;
mod records;
mod rollbacks;
mod standing;
mod transactions;
mod turning;
mod undoing;

pub use copies::copy;
pub use inserting::insert;
pub use listing::list_page;
pub use locking::{ask, at_work, end_wait};
pub use reads::read;
pub use records::{add, delete, write};
pub use standing::expect_up;
pub use transactions::{begin, commit, save};
pub use turning::back_to;
pub use undoing::undo;
