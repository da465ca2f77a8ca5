//! Runs of events through the hall: what no clause of its crates shows.
//!
//! Stands on: sd_base, sd_model, sd_rig, sd_world, sd_state, sd_hall.
#![tactic(auto)]

#[cfg(test)]
mod checkpoints;
#[cfg(test)]
mod faults;
#[cfg(test)]
mod hand;
#[cfg(test)]
mod lines;
#[cfg(test)]
mod runs;
