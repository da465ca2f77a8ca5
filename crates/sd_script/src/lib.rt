//! Scripts: a text becomes lines, each of the form that its words spell, or the first bad line is told.
//!
//! Meaning: a `Form` is what a line asks for; `form_words` and `IsForm` (`specs/Forms.antt`) say by which words, and what its parts
//! may be. A `Script` is a list of lines; `IsScript` and `IsBadAt` (`specs/Reading.antt`) say which text is which. Blank lines
//! and comments are passed over and counted (`told_lines`, `specs/Text.antt`). The causes for which a line is bad (`IsCause`,
//! `specs/Causes.antt`) are told kind of line by kind of line (`parts_of`, `specs/Kinds.antt`).
//! Keeps: in `Names` the ordinal of each name that was begun (`known`); nothing behind a call.
//! Promises: `Script::read` reads each script and nothing else (`found`, `exact`); it names the first bad line and the first cause
//! that holds of it (`bad`, `exact_bad`); a text has one reading (`one_reading`, `no_bad_script`, `one_bad_line`), a line one first
//! cause, one that reads none, and a comment only that of a limit or a byte (`one_cause`, `no_cause_of_good`, `limits_of_idle`).
//! Words are read as the form that they spell and no other, and as none only where they spell none; no two forms have the same
//! words (`proofs/OneForm.antt`). A line of a transaction tells it by the ordinal of its begin line (`Follows`).
//! Refuses: `BadLine`, and `Memory`.
//! Knows nothing of: what a line does, replies, devices.
//! Stands on: sd_base.
//!
//! To change:
//! - free: bodies, the reader inside (`reader.rt`), how names are kept (`names.rt`)
//! - dear: the clauses of `Script::read`, `IsScript`, `IsFormOf`, `IsForm`
//! - frozen: the words of the forms (`specs/Forms.antt`, `specs/Kinds.antt`), which lines may follow which (`specs/Order.antt`)
#![tactic(auto)]

mod causes;
mod form;
mod inst_forms;
mod kinds;
pub mod laws;
mod line;
mod names;
mod newest;
mod packed;
mod parts;
mod reader;
mod script;
mod text;
mod verb_forms;
mod word;

pub use inst_forms::{ask_of, begin_of, force_of, three_of_inst};
pub use line::{Form, Line};
pub use names::Names;
pub use parts::inst_of;
pub use script::{Kind, Script};
pub use verb_forms::{
    add_of, commit_of, complex_of, five_of_verb, insert_of, lone_of, read_of, recovery_of,
    three_of_verb, two_of_verb, write_of,
};
pub use word::{is_add, is_begin, is_commit, is_insert, is_read, is_write, next_word};
