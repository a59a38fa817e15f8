//! The program's entry point: passes the command line, the files, standard output and the two targets to `run`.
//!
//! Proved: No contract of its own, only that it meets the contracts of what it calls.
//!
//! By: the proof of `main`.
#![tactic(auto)]

use opgen_io::{DiskFolder, StdSink};
use opgen_target::{Target, fixed, plain};
use opgen_top::{OpenGate, Status, run};
use std::alloc::{AllocError, Global};
use std::env;
use std::io::ErrorKind;
use std::process::ExitCode;
use std::rt::{Env, Files};
use std::thread::Threads;

// The words after the program's name. Where they are no text there are none, which is a usage fault.
fn words(rt: &(impl Env + Alloc<A = Global>)) -> Result<Vec<String>, Status> {
    let mut words = Vec::new(rt.alloc());
    let args = match env::args(rt) {
        Ok(args) => args,
        Err(fault) if fault.kind() == ErrorKind::OutOfMemory => return Err(Status::OUT_OF_MEMORY),
        Err(_) => return Ok(words),
    };
    for word in args.skip(1) {
        if words.push(word).is_err() {
            return Err(Status::OUT_OF_MEMORY);
        }
    }
    Ok(words)
}

// Runs the program over the files of the working directory and standard output, with the targets `plain` and `fixed`.
fn ran(
    rt: &(impl Env + Files + Print + Threads + Sync + Alloc<A = Global>),
    words: &[String],
) -> Result<Status, AllocError> {
    let alloc = rt.alloc();
    let mut targets: Vec<Box<dyn Target>> = Vec::new(alloc);
    targets.push(Box::new(alloc, plain(alloc)?)?)?;
    targets.push(Box::new(alloc, fixed(alloc)?)?)?;
    let mut folder = DiskFolder::new(rt);
    let mut out = StdSink::new(rt);
    Ok(run(rt, alloc, words, &mut folder, &mut out, targets, &OpenGate))
}

fn status(rt: &(impl Env + Files + Print + Threads + Sync + Alloc<A = Global>)) -> Status {
    let words = match words(rt) {
        Ok(words) => words,
        Err(status) => return status,
    };
    ran(rt, &words).unwrap_or(Status::OUT_OF_MEMORY)
}

fn main(rt: HostRuntime) -> ExitCode {
    ExitCode::from(status(&rt).0)
}
