//! Runs the program over files in memory: command lines, folders and sinks, and what a run leaves in them.
use crate::delays::plain;
use opgen_io::{MemoryFolder, MemorySink};
use opgen_target::Target;
use opgen_top::{OpenGate, run};
use std::alloc::{AllocError, Global};
use std::thread::Threads;

/// What a run of the program leaves.
#[derive(Drop)]
pub(crate) struct Outcome {
    pub status: u8,
    pub folder: MemoryFolder,
    pub out: MemorySink,
}

pub(crate) fn words_of(alloc: Global, words: &[&str]) -> Result<Vec<String>, AllocError> {
    let mut copies = Vec::new(alloc);
    for word in words {
        copies.push(String::from_str(alloc, word)?)?;
    }
    Ok(copies)
}

/// A folder of these files, whose calls of these numbers fail.
pub(crate) fn folder_of(
    alloc: Global,
    files: &[(&str, &[u8])],
    failing: &[u64],
) -> Result<MemoryFolder, AllocError> {
    let mut held = Vec::new(alloc);
    for (name, bytes) in files {
        held.push((
            String::from_str(alloc, name)?,
            Vec::from_slice(alloc, bytes)?,
        ))?;
    }
    Ok(MemoryFolder::new(held, Vec::from_slice(alloc, failing)?))
}

/// An empty sink, whose calls of these numbers fail.
pub(crate) fn sink_of(alloc: Global, failing: &[u64]) -> Result<MemorySink, AllocError> {
    Ok(MemorySink::new(alloc, Vec::from_slice(alloc, failing)?))
}

/// Whether the folder holds these bytes under the name, or nothing where there are none.
pub(crate) fn holds(folder: &MemoryFolder, name: &str, bytes: Option<&str>) -> bool {
    match (folder.get(name), bytes) {
        (Some(held), Some(bytes)) => held == bytes.as_bytes(),
        (None, None) => true,
        _ => false,
    }
}

/// The numbers of the calls that fail.
#[derive(Clone, Copy)]
pub(crate) struct Failing {
    pub folder: &'static [u64],
    pub sink: &'static [u64],
}

/// Runs the words over a folder, with these calls of the sink failing.
pub(crate) fn ran_in(
    rt: &(impl Threads + Sync + Alloc<A = Global>),
    words: &[&str],
    mut folder: MemoryFolder,
    failing: &[u64],
    targets: Vec<Box<dyn Target>>,
) -> Result<Outcome, AllocError> {
    let alloc = rt.alloc();
    let words = words_of(alloc, words)?;
    let mut out = sink_of(alloc, failing)?;
    let status = run(rt, alloc, &words, &mut folder, &mut out, targets, &OpenGate);
    Ok(Outcome {
        status: status.0,
        folder,
        out,
    })
}

/// Runs the words over a folder of these files with these targets.
pub(crate) fn ran_with(
    rt: &(impl Threads + Sync + Alloc<A = Global>),
    words: &[&str],
    files: &[(&str, &[u8])],
    targets: Vec<Box<dyn Target>>,
) -> Result<Outcome, AllocError> {
    let folder = folder_of(rt.alloc(), files, &[])?;
    ran_in(rt, words, folder, &[], targets)
}

/// Runs the words over a folder of these files for the target `plain`, with these calls failing.
pub(crate) fn ran_over(
    rt: &(impl Threads + Sync + Alloc<A = Global>),
    words: &[&str],
    files: &[(&str, &[u8])],
    failing: Failing,
) -> Result<Outcome, AllocError> {
    let alloc = rt.alloc();
    let folder = folder_of(alloc, files, failing.folder)?;
    let mut targets: Vec<Box<dyn Target>> = Vec::new(alloc);
    targets.push(Box::new(alloc, plain(alloc)?)?)?;
    ran_in(rt, words, folder, failing.sink, targets)
}
