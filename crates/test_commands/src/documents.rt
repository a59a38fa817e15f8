//! Texts of specifications for tests, and changes of single lines in them.
use std::alloc::{AllocError, Global};

/// Three times four unsigned bits, exact.
pub(crate) const SCALE: &str =
    "version = 1\nname = \"times3\"\nkind = \"scale\"\nexact = true\ntarget = \"plain\"\nperiod = 10000\nsigned = false\nwidth = 4\nlsb = 0\nout_lsb = 0\ncoefficients = [3]\n";

/// A third of four bits, which has a register at its period of 900 ps for the target `plain`.
pub(crate) const THIRD: &str =
    "version = 1\nname = \"third\"\nkind = \"scale\"\nexact = false\ntarget = \"plain\"\nperiod = 900\nsigned = false\nwidth = 4\nlsb = 0\nout_lsb = 0\ncoefficients = [1]\ndenominator = 3\n";

/// The document with its changes, each of a line by a new one; an empty text takes a line away.
pub(crate) fn changed(
    alloc: Global,
    document: &str,
    changes: &[(&str, &str)],
) -> Result<String, AllocError> {
    let mut text = String::new(alloc);
    for line in document.lines() {
        let change = changes.iter().find(|change| change.0 == line);
        let new = change.map_or(line, |change| change.1);
        if !new.is_empty() {
            text.push_str(new)?;
            text.push('\n')?;
        }
    }
    Ok(text)
}

/// A unit so many times between two texts.
pub(crate) fn repeated(
    alloc: Global,
    before: &str,
    unit: &str,
    count: u32,
    after: &str,
) -> Result<String, AllocError> {
    let mut text = String::from_str(alloc, before)?;
    for _ in 0..count {
        text.push_str(unit)?;
    }
    text.push_str(after)?;
    Ok(text)
}
