//! A folder that answers that a file is too long, which no test stores in memory.
ghost use Rattle.std.specs.Prelude.{None};

use crate::running::{sink_of, words_of};
use opgen_io::{FetchFault, Folder, StoreFault};
use opgen_top::{OpenGate, run};
use std::alloc::{AllocError, Global};
use std::test::Fail;
use std::thread::Threads;

/// A folder in which the file of one name is too long and the others are empty. It tells nothing, and keeps how many bytes were
/// asked for at most of that file, and how many stores were made.
#[derive(Drop)]
struct LongFolder {
    name: &'static str,
    longs: u64,
    most: usize,
    stores: u64,
}

impl Folder for LongFolder {
    ghost told = { λ _. None };

    ghost read_faults = { λ _. 0 };

    ghost lacks = { λ _. 0 };

    ghost longs = { λ s. s.longs };

    ghost write_faults = { λ _. 0 };

    fn fetch(&mut self, alloc: Global, name: &str, most: usize) -> Result<Vec<u8>, FetchFault> {
        if name != self.name {
            return Ok(Vec::new(alloc));
        }
        self.longs = self.longs.saturating_add(1);
        self.most = most;
        Err(FetchFault::TooLong)
    }

    fn store(&mut self, _name: &str, _bytes: &[u8]) -> Result<(), StoreFault> {
        self.stores = self.stores.saturating_add(1);
        Ok(())
    }
}

/// Words, the name of the file that is too long, and how many bytes it may have.
struct Case {
    name: &'static str,
    words: &'static [&'static str],
    long: &'static str,
    most: usize,
}

static CASES: [Case; 7] = [
    Case {
        name: "the specification of generate",
        words: &["generate", "spec.toml"],
        long: "spec.toml",
        most: 1_048_576,
    },
    Case {
        name: "the specification of vectors",
        words: &["vectors", "spec.toml"],
        long: "spec.toml",
        most: 1_048_576,
    },
    Case {
        name: "the VHDL",
        words: &["simulate", "a.vhd", "in.vec", "out.vec"],
        long: "a.vhd",
        most: 67_108_864,
    },
    Case {
        name: "the vectors",
        words: &["simulate", "a.vhd", "in.vec", "out.vec"],
        long: "in.vec",
        most: 67_108_864,
    },
    Case {
        name: "the specification of check",
        words: &["check", "spec.toml", "a.vhd", "in.vec", "0"],
        long: "spec.toml",
        most: 1_048_576,
    },
    Case {
        name: "the VHDL of check",
        words: &["check", "spec.toml", "a.vhd", "in.vec", "0"],
        long: "a.vhd",
        most: 67_108_864,
    },
    Case {
        name: "the vectors of check",
        words: &["check", "spec.toml", "a.vhd", "in.vec", "0"],
        long: "in.vec",
        most: 67_108_864,
    },
];

// Whether the case ends with status 9 and its line, and with no store. No target is asked for.
fn is_too_long(
    rt: &(impl Threads + Sync + Alloc<A = Global>),
    case: &Case,
) -> Result<bool, AllocError> {
    let alloc = rt.alloc();
    let words = words_of(alloc, case.words)?;
    let mut folder = LongFolder {
        name: case.long,
        longs: 0,
        most: 0,
        stores: 0,
    };
    let mut out = sink_of(alloc, &[])?;
    let status = run(
        rt,
        alloc,
        &words,
        &mut folder,
        &mut out,
        Vec::new(alloc),
        &OpenGate,
    );
    let asked = folder.longs == 1 && folder.most == case.most && folder.stores == 0;
    Ok(asked && status.0 == 9 && out.bytes() == "too long\n".as_bytes())
}

#[test]
fn too_long(rt: HostRuntime) -> Result<(), Fail> {
    for case in &CASES {
        assert!(rt; is_too_long(&rt, case)?, "{}", case.name);
    }
    Ok(())
}
