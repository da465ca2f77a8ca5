//! Runs of the complex, also with a crash at each device call: what no clause of its crates shows.
//!
//! Stands on: sd_base, sd_model, sd_logrec, sd_rig, sd_log, sd_chain, sd_recovered, sd_state, sd_update, sd_moves, sd_fits,
//! sd_restart, sd_one.
#![tactic(auto)]

#[cfg(test)]
mod checks;
#[cfg(test)]
mod complexes;
#[cfg(test)]
mod crashes;
#[cfg(test)]
mod last_lsns;
#[cfg(test)]
mod seeing;
#[cfg(test)]
mod works;
