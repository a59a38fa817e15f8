//! Tests of how a text is put into a sink: page by page, and what a sink that fails has received of it.
use opgen_design::{Design, Dir, Port};
use opgen_io::MemorySink;
use opgen_list::{Items, Text};
use opgen_write::{VecSink, WriteFault, text, write_design};
use std::alloc::{AllocError, Global};
use std::test::Fail;

// A design whose input has a name of so many letters.
fn one_input(alloc: Global, letters: usize) -> Result<Design, AllocError> {
    let mut name = String::new(alloc);
    for _ in 0..letters {
        name.push_str("n")?;
    }
    let mut ports = Items::new(alloc);
    ports.push(Port {
        name: Text::from_string(name),
        dir: Dir::In,
        width: 1,
    })?;
    Ok(Design {
        name: Text::from_str(alloc, "input")?,
        ports,
        signals: Items::new(alloc),
        drivers: Items::new(alloc),
        enable: None,
    })
}

// A design whose text has so many bytes.
fn of_length(alloc: Global, length: usize) -> Result<Design, Fail> {
    let others = text(alloc, &one_input(alloc, 0)?)?.len();
    Ok(one_input(alloc, length.saturating_sub(others))?)
}

// How many bytes a sink takes of a text of so many, if its put of this number fails.
fn taken(alloc: Global, length: usize, failing: u64) -> Result<(usize, bool), Fail> {
    let design = of_length(alloc, length)?;
    let mut sink = MemorySink::new(alloc, vec![in alloc; failing]?);
    let written = write_design(alloc, &design, &mut sink);
    Ok((sink.bytes().len(), written == Err(WriteFault::Failed)))
}

/// The length of a text, the number of the put that fails, how many bytes the sink takes, and whether that is the answer. A page
/// more than is needed would fail, and the last page that is needed does.
static PAGES: [(usize, u64, usize, bool); 7] = [
    (4095, 0, 0, true),
    (4095, 1, 4095, false),
    (4096, 0, 0, true),
    (4096, 1, 4096, false),
    (4097, 1, 4096, true),
    (4097, 2, 4097, false),
    (8193, 2, 8192, true),
];

#[test]
fn puts_whole_pages(rt: HostRuntime) -> Result<(), Fail> {
    for (length, failing, bytes, fails) in &PAGES {
        let found = taken(rt.alloc(), *length, *failing)?;
        assert!(rt; found == (*bytes, *fails), "{length} {failing}");
    }
    Ok(())
}

#[test]
fn a_sink_has_the_text(rt: HostRuntime) -> Result<(), Fail> {
    let design = one_input(rt.alloc(), 1)?;
    let mut sink = VecSink::new(rt.alloc());
    write_design(rt.alloc(), &design, &mut sink)?;
    assert!(rt; text(rt.alloc(), &design)? == sink.into_bytes());
    Ok(())
}
