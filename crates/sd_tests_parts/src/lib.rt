//! Runs of words, devices, files, pages, records, logs, pools, tables and locks: what no clause of their crates shows.
//!
//! Stands on: sd_base, sd_model, sd_page, sd_logrec, sd_rig, sd_filerig, sd_log, sd_pool, sd_txn, sd_reclock, sd_pagelock.
#![tactic(auto)]

#[cfg(test)]
mod directory;
#[cfg(test)]
mod events;
#[cfg(test)]
mod files;
#[cfg(test)]
mod gates;
#[cfg(test)]
mod locks;
#[cfg(test)]
mod logs;
#[cfg(test)]
mod pages;
#[cfg(test)]
mod pools;
#[cfg(test)]
mod records;
#[cfg(test)]
mod rigs;
#[cfg(test)]
mod twins;
#[cfg(test)]
mod txns;
#[cfg(test)]
mod words;
