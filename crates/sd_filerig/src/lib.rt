//! Nine devices in files, mirrored in memory: what is told of them is what is told of the memory.
//!
//! Meaning: `mirror` is the rig in memory, of which each clause of `Rig` speaks (`specs/Mirror.antt`).
//! Keeps: a write goes to the memory first and a sync to the file first, so that nothing is told stable that a file may lose.
//! Promises: what `at` opens is stable (`stable`); each call keeps the facts of `Rig`; a file of which a call has failed fails
//! from then on (`sticky`).
//! Refuses: `Failed` in `at`, and in the calls of `Rig` only where the count of faults rose; want of memory in `at`.
//! Knows nothing of: what the bytes mean; what other programs do to the files.
//! Stands on: sd_base, sd_rig.
//! Trusted: what was written to a file is what is read of it; a sync that succeeds makes it stable; a loss of power before
//! that changes only bytes of ranges that were written since, so a disk writes a sector whole or not at all; nobody else
//! writes the files; and `Backing::write` and `Backing::sync` make the calls that they answer for.
//!
//! To change:
//! - free: how files are made and opened (`backing.rt`)
//! - dear: the order of memory and file in each call of `Rig`
//! - frozen: the names and lengths of the files
#![tactic(auto)]

mod backing;
mod file_rig;

pub use file_rig::FileRig;

#[cfg(test)]
mod tests;
