//! The private log of one instance: records in order, of which those of the tail aren't forced yet.
//!
//! Meaning: a `Log` is its forced groups, the place of the next gate, and the tail (`LogState`, `specs/Logs.antt`); what
//! its device stands for is `reading` (`specs/Kept.antt` of sd_logrec), and `StandsOn` says that it is these groups. It
//! keeps its records as their bytes, of which `record` reads one and `lsn` tells the LSN; a `ReadLog` is the same of groups
//! that were just read, with each record by itself in memory and the bytes of all beside them, which `into_log` takes over.
//! Keeps: groups stand one behind the other from the log's start place on, and a closed gate behind the last one that is
//! forced; no group passes the area's end, and records of at least 9 bytes each are few (`keeps`).
//! Promises: a crash at any moment of `force` leaves the log with its tail or without it (`any_moment`), and with it
//! after `Ok` (`stands`, `durable`); `read_in` answers what the device stands for, and `of_area` what an area in memory
//! does (`whole`, `bad_log`, `bad_record`), with the records in front of what breaks the format (`front`); `of_page`
//! answers which records change a page, and looks at no others; `begin_at` leaves the groups from a boundary on.
//! Refuses: `LogFull` in `append`, as `lacks_room` tells before; `BadLog` and `BadRecord` in `read_in`, and as what
//! `of_area` found; `Failed` only where the rig's count of faults rose.
//! Knows nothing of: what pages hold, transactions, other logs, which record may follow which.
//! Stands on: sd_base, sd_logrec, sd_rig.
//! Held by the caller: a crash leaves of the device what it reads, and the log's groups stand there (`force`).
//!
//! To change:
//! - free: bodies and private helpers, `Journal`, `Written`, `Spellings`, `Marks`, `Buffer` and `PageChains` inside
//! - dear: `LogState`, the clauses of `append` and `force`, `Forces` (`specs/Forces.antt`)
//! - frozen: the bytes of a group, and the calls of a force in their order (docs/FORMATS.md)
#![tactic(auto)]

mod area;
mod buffer;
mod journal;
mod log;
mod marks;
mod pages;
mod placed;
mod read;
mod reading;
mod spellings;
mod written;

pub use area::Area;
pub use log::Log;
pub use placed::Placed;
pub use read::ReadLog;
