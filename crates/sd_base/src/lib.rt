//! The words that every layer speaks: names of things, refusals, and the traits of what is outside.
//!
//! Meaning: `Sequence`, `Bytes` and `Cycle` are lists, `InstNo` and `PageNo` are numbers in their range, `InstSet` is a rising list
//! of instances (`specs/Sets.antt`).
//! Keeps: an instance is 1 to 8, a page is 0 to 1,023.
//! Promises: `Source::take` and `Sink::put` answer `Failed` only where their count of faults rose
//! (`specs/Streams.antt`); `MemSource` and `MemSink` fail exactly where they were told to.
//! Refuses: nothing by itself; `Refusal` lists what the crates above refuse.
//! Knows nothing of: what pages, logs and devices hold; scripts.
//!
//! To change:
//! - free: bodies, `MemSource` and `MemSink` inside
//! - dear: the clauses of `Source` and `Sink`, the fields of `Place` and `Status`
//! - frozen: the variants of `Refusal` and their fields (docs/REFUSALS.md)
#![tactic(auto)]

mod bytes;
mod cycle;
mod gate;
mod ids;
mod limits;
mod memory_streams;
mod place;
mod refusal;
mod sequence;
mod set;
mod standard_streams;
mod streams;
mod trouble;
mod value;

pub use bytes::{Bytes, Word};
pub use cycle::Cycle;
pub use gate::{Gate, OpenGate};
pub use ids::{InstNo, Lsn, PageNo, Rid, TxnId};
pub use limits::{MAX_CAPACITY, MAX_SLOTS, NO_VALUE, PAGES};
pub use memory_streams::{MemSink, MemSource};
pub use place::{Mode, Place, Status};
pub use refusal::{Failed, LineError, Memory, Refusal};
pub use sequence::{Duplicate, Sequence};
pub use set::InstSet;
pub use standard_streams::{StdSink, StdSource};
pub use streams::{Sink, Source};
pub use trouble::{Pick, Trouble};
pub use value::{copy_value, lent_len, lent_value, same_value, value_len};
