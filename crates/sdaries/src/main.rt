//! The program: it runs a script of transactions and reports one reply a line.
//!
//! Meaning: `top` of sd_top is what it does, over the devices that the words name; its exit status is the status's number.
//! Keeps: nothing.
//! Promises: no clause of its own: what a run does is promised by `top`; that the streams are the standard ones, and that the
//! devices are those of the folder, is told by this text and by runs of the program.
//! Refuses: what `top` refuses; a folder that can't be used as a device that failed.
//! Knows nothing of: scripts, events, replies.
//! Stands on: sd_base, sd_rig, sd_filerig, sd_top.
//!
//! To change:
//! - free: bodies
//! - dear: nothing
//! - frozen: nothing
#![tactic(auto)]

use sd_base::{Memory, OpenGate, Refusal, StdSink, StdSource};
use sd_filerig::FileRig;
use sd_rig::{MemRig, Rig};
use sd_top::{Status, note_bad_line, place, report_unopened, top};
use std::process::ExitCode;
use std::{env, io};

fn main(rt: HostRuntime) -> ExitCode {
    ExitCode::from(run(&rt).number())
}

// Runs the command that the program's words give: on devices in files where they name a folder, else on blank ones in memory.
fn run(rt: &HostRuntime) -> Status {
    let words = match arguments(rt) {
        Ok(words) => words,
        Err(status) => return status,
    };
    match place(rt.alloc(), &words) {
        Ok(Some(folder)) => match files_in(rt, &folder) {
            Ok(rig) => run_on(rt, &words, rig),
            Err(refusal) => report_unopened(rt.alloc(), &refusal, &mut StdSink::new(rt.stdout())),
        },
        Ok(None) => match MemRig::blank(rt.alloc()) {
            Ok(rig) => run_on(rt, &words, rig),
            Err(Memory) => Status::NoMemory,
        },
        Err(Memory) => Status::NoMemory,
    }
}

// The words behind the program's name. One that isn't UTF-8 is a faulty one.
fn arguments(rt: &HostRuntime) -> Result<Vec<String>, Status> {
    let mut words = Vec::new(rt.alloc());
    let given = env::args(rt).map_err(|e| match e.kind() {
        io::ErrorKind::InvalidData => Status::Usage,
        _ => Status::NoMemory,
    })?;
    for word in given.skip(1) {
        words.push(word).map_err(|_| Status::NoMemory)?;
    }
    Ok(words)
}

// The devices in the files of a folder. The empty path names none: a file in it would be one of the root.
fn files_in(rt: &HostRuntime, folder: &str) -> Result<FileRig, Refusal> {
    if folder.is_empty() {
        return Err(Refusal::Failed);
    }
    FileRig::at(rt, rt.alloc(), folder)
}

// Runs the command on these devices, between the standard streams. What is wrong with a bad line is said on standard error.
fn run_on<G: Rig + Drop>(rt: &HostRuntime, words: &[String], rig: G) -> Status {
    let mut source = StdSource::new(rt.stdin());
    let mut sink = StdSink::new(rt.stdout());
    let done = top(rt.alloc(), words, &mut source, &mut sink, rig, &OpenGate);
    if let Some(bad) = &done.bad {
        let _ = note_bad_line(rt.alloc(), bad, &mut StdSink::new(rt.stderr()));
    }
    done.status
}
