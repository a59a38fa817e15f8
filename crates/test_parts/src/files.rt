//! The folder on disk and standard output, which the built program shows in full.
use opgen_io::{DiskFolder, FetchFault, Folder, Sink, StdSink};
use std::fs;
use std::test::Fail;

#[test]
fn a_stored_file_is_fetched(rt: HostRuntime) -> Result<(), Fail> {
    let name = "opgen_disk_folder.txt";
    let mut folder = DiskFolder::new(&rt);
    folder.store(name, b"0123456789")?;
    let too_long = folder.fetch(rt.alloc(), name, 9);
    assert!(rt; matches!(too_long, Err(FetchFault::TooLong)));
    let fetched = folder.fetch(rt.alloc(), name, 10)?;
    assert_eq!(rt; fetched.as_slice(), b"0123456789".as_slice());
    fs::remove_file(&rt, name)?;
    Ok(())
}

#[test]
fn standard_output_takes_a_line(rt: HostRuntime) -> Result<(), Fail> {
    let mut out = StdSink::new(&rt);
    out.put(b"ok\n")?;
    Ok(())
}
