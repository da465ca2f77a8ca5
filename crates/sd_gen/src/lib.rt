//! Generated scripts: a number and a count give a script of transfers between ten accounts.
//!
//! Meaning: `gen_text` (`specs/Generated.antt`) is the script, by the draws that the number gives (`specs/Draws.antt`).
//! Keeps: nothing behind a call.
//! Promises: `generate` writes that text and nothing else (its one clause), so a number gives the same script at each call;
//! each such text of up to 2,000 transfers is a script (`generated`).
//! Refuses: nothing but for want of memory.
//! Knows nothing of: how a script is read, what its lines do, what is reported of it.
//! Stands on: sd_base, sd_script, sd_report.
//!
//! To change:
//! - free: bodies, proofs
//! - dear: nothing
//! - frozen: the draws and the lines of a script (`specs/Draws.antt`, `specs/Generated.antt`)
#![tactic(auto)]

mod draws;
pub mod laws;
mod script;
#[cfg(test)]
mod tests;
mod transfer;

pub use script::generate;
