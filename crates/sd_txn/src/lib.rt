//! The transaction table of one instance: what each unresolved transaction has open (ARIES, section 4.3).
//!
//! Meaning: a table is a list of transactions in order of begin, each with its state, its marks, its undo stack and
//! the LSNs of its first and last record (`specs/Transactions.antt`); what their ends take of a log is a sum over them
//! (`specs/Owing.antt`).
//! Keeps: a mark is at most the number of open records, and marks don't fall in the order of their saves; no
//! transaction stands twice (`keeps`).
//! Promises: each call changes what its clause says of one transaction, and no other; `pop` hands out the record that
//! is undone next and takes no memory; a mark goes with the undo of a record below it; `reserve` and `owed` tell the
//! bytes and the records that the ends take, and laws how these move (`laws.rt`).
//! Refuses: `TooManyTxns` and `LsnEnd` in `begin`, exactly.
//! Knows nothing of: locks, pages, the log, what a state means.
//! Stands on: sd_base, sd_logrec.
//!
//! To change:
//! - free: bodies, the structures inside
//! - dear: `Transaction`, `Transactions`, what is owed, the laws, the clauses of `begin`, `push` and `pop`
//! - frozen: nothing; a further state is one more variant of `TxnState`
#![tactic(auto)]

pub mod laws;
mod list;
mod owed;
mod state;
mod table;
mod txn;

pub use state::{OpenRec, TxnState};
pub use table::TxnTable;
