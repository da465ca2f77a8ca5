//! The records of a log, and the bytes that spell them.
//!
//! Meaning: a `Record` is its fields; `spelling` gives its bytes by one table, and `HasSpelling` says which records
//! have any (`specs/Spelling.antt`); `flat` is the same record with the same fields whatever its kind, for laws on
//! chains of records (`specs/View.antt`). `kept` says what groups a log device stands for (`specs/Kept.antt`); `layout`
//! names the places and lengths of one.
//! Keeps: nothing behind a call.
//! Promises: `put` appends a record's spelling, and takes no memory where there is room, as `write` needs it; `take` reads
//! a record exactly where its spelling stands, whatever follows; each record has one spelling and none begins another
//! (`no_prefix`); a group that is written behind a log's groups is read behind them (`group_behind`).
//! Refuses: `BadRecord` in `take`.
//! Knows nothing of: how groups come onto a device, the order of records, what a record does to a page.
//! Stands on: sd_base.
//!
//! To change:
//! - free: bodies, `fields.rt`, `miss.rt`, `specs/Reading.antt`
//! - dear: `HasSpelling`, `flat`, the clauses of `put`, `write` and `take`
//! - frozen: the tables in `specs/Spelling.antt` and `specs/Kept.antt` (docs/FORMATS.md); a new type of record is a new row
#![tactic(auto)]

mod fields;
pub mod laws;
mod layout;
mod lent;
mod miss;
mod put;
mod record;
mod rows;
mod take;

pub use layout::{AREA, AREA_LEN, CLR_LEN, END_LEN, GROUP_HEAD, MASTER_BODY, MAX_LSN};
pub use lent::{Lent, Update};
pub use put::{put_bytes, put_u32};
pub use record::Record;
pub use rows::{Recs, Rows, Spans};
