//! The loops that `benches/` times: each runs one layer many times over, and prints nothing.
//!
//! Meaning: none; what the layers do is said in their crates.
//! Keeps: nothing.
//! Promises: nothing but that it does nothing undefined.
//! Refuses: words that name no loop, by exit status 2; a loop that a layer stops, by exit status 1.
//! Knows nothing of: time, which `benches/` takes from outside.
//! Stands on: sd_base, sd_model, sd_page, sd_logrec, sd_rig, sd_filerig, sd_log, sd_pool, sd_reclock, sd_pagelock, sd_recovered,
//! sd_state, sd_script, sd_report, sd_one.
//!
//! To change:
//! - free: all
//! - dear: nothing
//! - frozen: nothing
#![tactic(auto)]

mod books;
mod calls;
mod complexes;
mod devices;
mod locks;
mod logs;
mod moves;
mod recovery;
mod texts;
mod transfers;

use std::alloc::AllocError;
use std::process::ExitCode;
use std::rt::Env;
use std::{env, io};

// The words behind the program's name.
fn words(rt: &(impl Env + AllocGlobal)) -> io::Result<Vec<String>> {
    let mut words = Vec::new(rt.alloc());
    for word in env::args(rt)?.skip(1) {
        words.push(word)?;
    }
    Ok(words)
}

fn main(rt: HostRuntime) -> ExitCode {
    let alloc = rt.alloc();
    let status = match words(&rt) {
        Err(_) => 1,
        Ok(words) => match calls::run(&rt, alloc, &words) {
            Some(true) => 0,
            Some(false) => 1,
            None => 2,
        },
    };
    ExitCode::from(status)
}
