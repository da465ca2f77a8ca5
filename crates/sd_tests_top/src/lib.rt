//! Runs of the program's top call: what no clause of its crates shows.
//!
//! Stands on: sd_base, sd_rig, sd_top.
#![tactic(auto)]

#[cfg(test)]
mod commands;
