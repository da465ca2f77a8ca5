//! The slotted page: records of fixed capacity in an image of 1,024 bytes.
//!
//! Meaning: an image is the page that its bytes spell, an LSN, a number and a list of slots (`specs/Page.antt`);
//! the bytes of a page are one table (`specs/Spelling.antt`).
//! Keeps: the bytes of an `Image` are always the image of a page, zeros where nothing is said.
//! Promises: `check` takes bytes exactly where they are well formed; `apply` does what `applied` says, without
//! memory, and a refusal changes nothing; each page has one image (`one_spelling`).
//! Refuses: `PageFull`, `NoRecord`, `TooLong` in `apply`.
//! Knows nothing of: devices, logs, locks, which transaction changes it.
//! Stands on: sd_base.
//!
//! To change:
//! - free: bodies, `bytes.rt`, `layout.rt`
//! - dear: `Page`, `applied`, `CanTake` and the clauses of `apply`
//! - frozen: the table in `specs/Spelling.antt` (docs/FORMATS.md)
#![tactic(auto)]

mod bytes;
mod image;
pub mod laws;
mod layout;
mod op;

pub use image::Image;
pub use layout::PAGE_BYTES;
pub use op::Op;
