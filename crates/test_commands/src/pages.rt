//! The text of the filter of `workload 1`, which has many pages: it is read back, written again, and put into a sink page by page.
use crate::delays::plain;
use crate::running::ran_with;
use opgen_design::Design;
use opgen_io::MemorySink;
use opgen_read::read_design;
use opgen_target::Target;
use opgen_top::{VecSink, WriteFault, write_design};
use std::alloc::{AllocError, Global};
use std::process::Abort;
use std::test::Fail;
use std::thread::Threads;

/// The specification of `workload 1`: its coefficients are those that the tests of `opgen_workload` expect.
const FILTER: &str = "version = 1
name = \"workload\"
kind = \"fir\"
exact = false
target = \"plain\"
period = 4000
signed = true
width = 12
lsb = -11
out_lsb = -11
coefficients = [-2517, 308, 4861, -3839, 9681, 16, 1767, -14241]
denominator = 65536
";

// The VHDL of the filter.
fn filter_text(rt: &(impl Threads + Sync + Abort + Alloc<A = Global>)) -> Result<Vec<u8>, Fail> {
    let alloc = rt.alloc();
    let mut targets: Vec<Box<dyn Target>> = Vec::new(alloc);
    targets.push(Box::new(alloc, plain(alloc)?)?)?;
    let files = [("filter.toml", FILTER.as_bytes())];
    let ran = ran_with(rt, &["generate", "filter.toml"], &files, targets)?;
    assert_eq!(rt; ran.status, 0);
    match ran.folder.get("workload.vhd") {
        Some(text) => Ok(Vec::from_slice(alloc, text)?),
        None => Err(Fail::new("no text is stored")),
    }
}

fn read(rt: &impl Abort, alloc: Global, text: &[u8]) -> Result<Design, Fail> {
    assert!(rt; text.len() < 100_000);
    Ok(read_design(alloc, text)?)
}

// How many bytes a sink takes of a design's text, if its put of this number fails, and whether that is the answer.
fn taken(alloc: Global, design: &Design, failing: usize) -> Result<(usize, bool), AllocError> {
    let mut sink = MemorySink::new(alloc, vec![in alloc; failing as u64]?);
    let written = write_design(alloc, design, &mut sink);
    Ok((sink.bytes().len(), written == Err(WriteFault::Failed)))
}

#[test]
fn the_text_of_a_workload(rt: HostRuntime) -> Result<(), Fail> {
    let alloc = rt.alloc();
    let text = filter_text(&rt)?;
    let design = read(&rt, alloc, &text)?;
    assert_eq!(rt; design.signals.len(), 325);
    let mut again = VecSink::new(alloc);
    write_design(alloc, &design, &mut again)?;
    assert!(rt; again.into_bytes() == text);
    let full = text.len().saturating_sub(1) / 4096;
    assert!(rt; full > 1);
    let before_the_last = taken(alloc, &design, full)?;
    assert!(rt; before_the_last == (full.saturating_mul(4096), true));
    let last = taken(alloc, &design, full.saturating_add(1))?;
    assert!(rt; last == (text.len(), false));
    Ok(())
}
