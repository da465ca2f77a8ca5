//! The page directory: who holds the newest image of each page, since when its disk image is old, and who asks for it.
//!
//! Meaning: `PageEntry`, a page's place as laws see it (`specs/Places.antt`); a row, what an event asks of the place and the place
//! that it leaves (`specs/Rows.antt`); `IsMove`, a lawful move (`specs/Moves.antt`); `DirectoryState`, what the directory says of
//! each page (`specs/Directory.antt`).
//! Keeps: a shared page has a holder, and its writer is one; the receiver of a page holds no copy of it; a page has a RecLSN
//! exactly where its place is changed; an instance asks once for a page; a copy of a page that is asked for has room in which it
//! can set out.
//! Promises: each function of `rows` is the row of its name, and `is_lawful` decides exactly. A page's place changes by a row
//! (`set`, `lawful`), which never loses it (`laws::only_copy`), or by a fall (`fall`); a changed page keeps its RecLSN (`set`,
//! `rec_lsn`); `oldest_ask`, `first_for` and `first_lost` answer exactly (`found`, `lowest`, `none`).
//! Refuses: nothing but want of memory, in `new` and in asks.
//! Knows nothing of: pools, logs, devices; what an image is; which instances run.
//! Lends: `rows`, `laws` and `is_lawful`, to those who move pages; `repeated` and `nothing`, vectors with one value for each page.
//! Stands on: sd_base.
//!
//! To change:
//! - free: bodies and private helpers, how many pages a group has (`noted.rt`), when queues without asks are taken off (`asks.rt`)
//! - dear: the rows (`rows`) and the laws (`laws`), the clauses of `set` and `fall`, the definitions of `specs/Asks.antt`
//! - frozen: nothing
#![tactic(auto)]

mod asks;
mod directory;
mod filled;
mod lawful;
pub mod laws;
mod noted;
mod queue;
pub mod rows;
mod table;

pub use asks::Asks;
pub use directory::Directory;
pub use filled::{nothing, repeated};
pub use lawful::is_lawful;
pub use noted::{GROUP, GROUPS};
pub use queue::Ask;
pub use table::PlaceTable;
