//! The report: one line a line of the script, with the words of its reply.
//!
//! Meaning: `report` (`specs/Report.antt`): what each line of a script prints, by the entries that carry its number; the words of a
//! reply, a refusal and a page's place (`specs/Replies.antt`, `specs/Refusals.antt`, `specs/Places.antt`), and how they are put
//! into a line (`specs/Words.antt`).
//! Keeps: nothing behind a call, but for the names that a `TxnNames` was given.
//! Promises: `render` writes that text and nothing else (its one clause), `render_book` that of a book, `bad_line` that of a bad
//! line, `damaged_line` that of devices that aren't sound. Each call of `replies.rt` and `words.rt` puts the words that its
//! definition says behind a text.
//! `summary` writes what became of a generated run (`specs/Summary.antt`), and nothing else.
//! Refuses: nothing but for want of memory, after which a text has some of the words.
//! Knows nothing of: how a line is served, what a reply means, where the text goes.
//! Stands on: sd_base, sd_model, sd_script.
//! Held by the caller: the lines of the entries don't fall, but for those of line 0 (`in_order` tells).
//!
//! To change:
//! - free: bodies, proofs
//! - dear: the clauses of `render`, `render_book` and `bad_line`
//! - frozen: the lines of the report (`specs/Report.antt`) and its words (`specs/Replies.antt`, `specs/Refusals.antt`,
//!   `specs/Places.antt`)
#![tactic(auto)]

mod naming;
mod order;
mod parting;
mod places;
mod refusals;
mod replies;
mod report;
mod shorts;
mod summing;
mod txn_names;
mod undone;
mod words;

pub use order::in_order;
pub use refusals::cause_name;
pub use replies::{
    push_behind_all, push_behind_words, push_page_reply, push_pulled, push_recovery_reply,
    push_txn_reply,
};
pub use report::{bad_line, damaged_line, render, render_book};
pub use shorts::push_short_words;
pub use summing::{Counted, account, summary};
pub use txn_names::TxnNames;
pub use words::{
    push_before, push_counted, push_end, push_first, push_next, push_number, push_rid, push_word,
};
