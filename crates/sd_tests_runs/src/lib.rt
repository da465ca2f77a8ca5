//! Runs of scripts and of the programs that judge runs: what no clause of their crates shows.
//!
//! Stands on: sd_base, sd_model, sd_script, sd_report, sd_oracle.
#![tactic(auto)]

#[cfg(test)]
mod causes;
#[cfg(test)]
mod entries;
#[cfg(test)]
mod judges;
#[cfg(test)]
mod reports;
#[cfg(test)]
mod scripts;
#[cfg(test)]
mod tables;
