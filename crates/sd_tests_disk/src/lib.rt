//! Runs of what reads devices: what no clause of its crates shows.
//!
//! Stands on: sd_base, sd_model, sd_page, sd_logrec, sd_rig, sd_log, sd_txn, sd_chain, sd_redo, sd_recovered.
#![tactic(auto)]

#[cfg(test)]
mod bytes_by_hand;
#[cfg(test)]
mod devices;
#[cfg(test)]
mod many_pages;
#[cfg(test)]
mod merging;
#[cfg(test)]
mod recovered;
#[cfg(test)]
mod redoing;
#[cfg(test)]
mod relisting;
#[cfg(test)]
mod scans;
