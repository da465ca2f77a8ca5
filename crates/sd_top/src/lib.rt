//! The top call: the words of a command, a script from its source to its report over nine devices, and how the run ends.
//!
//! Meaning: `Outcome` (`specs/Outcome.antt`) says for each status what was taken, written and noted, and what the devices stand
//! for, by the runs of sd_drive (`LedFrom`); `asked_of` and `IsPlace` (`specs/Words.antt`) what words ask for, by what clap finds in
//! them; `told_by` (`specs/Asking.antt`) what is told of a run; `exit_number` (`specs/ExitNumber.antt`) the number of a `Status`.
//! Keeps: nothing behind a call.
//! Promises: `top`: the run begins with the table that the devices stand for; each reply is the serial table's, each refusal has
//! its cause, the committed transactions read as if they ran one after another, the report is the book's, and what a crash may
//! leave at any moment was left before or stands for a world on the way (`outcome`); over sound devices a script is done unless a
//! stream fails, a device fails in the opening, or memory wants (`complete`), and over others it tells them damaged (`damaged`);
//! other words touch nothing (`usage`, `untouched`), and a generated script takes nothing from the source and has no bad line
//! (`unread`, `generated`). `place` tells the folder of `--dir PATH`. A text is written whole, or a front of it where the sink
//! fails (`report_book` and those beside it).
//! Refuses: bad lines with `BadLine`, other words with `Usage`, devices that aren't sound with `Damaged`; faults and want of memory
//! have their own status.
//! Knows nothing of: how a line is driven, how an event is served, how a report is worded, which files or streams there are.
//! Stands on: sd_base, sd_model, sd_rig, sd_chain, sd_recovered, sd_world, sd_state, sd_fits, sd_restart, sd_script, sd_hall,
//! sd_drive, sd_report, sd_gen.
//!
//! To change:
//! - free: bodies, proofs
//! - dear: the clauses of `top`, `asked_of` and `place`, `Outcome`
//! - frozen: the words of a command (`specs/Words.antt`), the statuses' numbers, the word `device` (`specs/Reporting.antt`)
#![tactic(auto)]

mod first_bad;
mod input;
mod notes;
mod output;
mod replaying;
mod reporting;
mod status;
mod words;

pub use first_bad::BadLine;
pub use input::{InputError, MOST_BYTES, read_all};
pub use notes::note_bad_line;
pub use replaying::{Done, top};
pub use reporting::{report_bad_line, report_book, report_run, report_unopened};
pub use status::Status;
pub use words::{Request, asked_of, place};
