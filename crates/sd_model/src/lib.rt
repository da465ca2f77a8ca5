//! The serial table: what each event and its reply mean, one after another; and the book of what happened.
//!
//! Meaning: a `Table` is a finite map (`specs/Tables.antt`); a history is an opening table with the entries since
//! (`specs/History.antt`), and a `Book` reads as one; `Step` says which reply may follow in a state, and what it leaves
//! (`specs/Step.antt`); a `Scene` is a state with who waits for what (`specs/Scenes.antt`).
//! Keeps: `Kept`, `LivesAreSound`, `Listed`, `Marked` and `Recoverers`, which each step keeps (`specs/Kept.antt` and the files of
//! those names); a book, that its newest reply stands whole, and its newest entry where that wants a page (`IsNewest`).
//! Promises: a run from an opening leaves transactions that read as if they ran one after another, what was committed stays
//! committed, no id is given twice, and the end of a recovery leaves the table that stood (`laws.rt`). What is noted in a book is
//! kept in the order of the notes, and a note takes no memory once `reserve` has made its room (`note`); an entry that is kept in
//! few bytes reads as it was (`help_of`, `LineEntry::of`, `valued`).
//! Refuses: nothing but for want of memory; which refusal an event gets is `specs/Applies.antt`.
//! Knows nothing of: pages' bytes, pools, logs, devices, scripts; of a program that judges replies; who notes an entry.
//! Stands on: sd_base.
//!
//! To change:
//! - free: bodies, proofs
//! - dear: `Step`, the parts of `State`, what ends a wait (`waits_after`); an event more is a clause more; how the entries of a
//!   book are read (`Told`, `Seen`, `Noted`, `LineEntry`)
//! - frozen: the variants of `Event` and `Reply`
#![tactic(auto)]

mod act;
mod book;
mod cause;
mod copies;
mod event;
pub mod laws;
mod line;
mod numbers;
mod packed;
mod rows;
mod table;
mod told;

pub use act::{Act, Claim, Cut, Done, Inst, Life};
pub use book::Book;
pub use cause::{Cause, causes_of, order};
pub use copies::copy_refusal;
pub use event::{Entry, Event, Reply};
pub use line::{LineEntry, valued};
pub use numbers::{NoSum, number, number_text, sum, text_length};
pub use packed::{Answer, Deed, Noted, help_of};
pub use rows::Rows;
pub use table::Table;
pub use told::{Seen, Told};
