//! Every command with each call of the folder and of the sink failing, alone and in pairs. The calls of a folder are counted
//! together: a store that is not made after one that failed leaves its name as it was.
use crate::documents::{SCALE, THIRD};
use crate::running::{Failing, Outcome, holds, ran_over};
use crate::texts::{THIRD as THIRD_TEXT, THIRD_REPORT, TIMES3};
use std::alloc::{AllocError, Global};
use std::test::Fail;
use std::thread::Threads;

/// Calls that fail, the status, and how many of the command's stores stand.
struct Case {
    name: &'static str,
    failing: Failing,
    status: u8,
    stored: usize,
}

/// Cases, one a line: its name, the numbers of the folder's calls that fail and of the sink's, the status, and the stores that stand.
macro_rules! cases {
    ($($name:literal: $folder:expr, $sink:expr => $status:literal, $stored:literal;)*) => {
        &[$(Case {
            name: $name,
            failing: Failing { folder: &$folder, sink: &$sink },
            status: $status,
            stored: $stored,
        }),*]
    };
}

/// Words, the line where no call fails, the stores in their order, and what stands otherwise in their texts.
struct Command {
    name: &'static str,
    words: &'static [&'static str],
    line: &'static str,
    stores: &'static [(&'static str, &'static str)],
    changes: &'static [(&'static str, &'static str)],
    cases: &'static [Case],
}

const OLD: &str = "old\n";

/// The files before each run: all names of stores stand for something else.
static FILES: [(&str, &str); 8] = [
    ("spec.toml", THIRD),
    ("times3.toml", SCALE),
    ("a.vhd", TIMES3),
    ("in.vec", "1\n"),
    ("third.vhd", OLD),
    ("third.rpt", OLD),
    ("third.vec", OLD),
    ("out.vec", OLD),
];

/// The numbers of the generator divided by 2^60, and a third of the one before, within one.
const ROWS: &str =
    "1 : 0\n1 : 1\n9 : 1\n6 : 3\n6 : 2\n8 : 2\n1 : 3\n5 : 1\n7 : 2\n7 : 3\na : 3\n5 : 4\n0 : 2\n1 : 0\ne : 1\n3 : 5\n";

const WROTE: &str = "wrote third.vhd and third.rpt, latency 1\n";

const FILES_OF_THIRD: &[(&str, &str)] = &[("third.vhd", THIRD_TEXT), ("third.rpt", THIRD_REPORT)];

const ENABLE: &[(&str, &str)] = &[
    (
        "    clk : in std_logic;",
        "    clk : in std_logic;\n    ce : in std_logic_vector(0 downto 0);",
    ),
    (
        "      s1_1 <= s1;",
        "      if ce = \"1\" then\n        s1_1 <= s1;\n      end if;",
    ),
];

const GENERATING: &[Case] = cases! {
    "no call": [], [] => 0, 2;
    "the fetch": [0], [] => 3, 0;
    "the first store": [1], [] => 4, 0;
    "the second store": [2], [] => 4, 1;
    "the line": [], [0] => 4, 2;
    "calls that are not made": [3], [1] => 0, 2;
    "the fetch and the first store": [0, 1], [] => 3, 0;
    "the fetch and the second store": [0, 2], [] => 3, 0;
    "both stores": [1, 2], [] => 4, 0;
    "the fetch and the line": [0], [0] => 4, 0;
    "the first store and the line": [1], [0] => 4, 0;
    "the second store and the line": [2], [0] => 4, 1;
};

const DRAWING: &[Case] = cases! {
    "no call": [], [] => 0, 1;
    "the fetch": [0], [] => 3, 0;
    "the store": [1], [] => 4, 0;
    "the line": [], [0] => 4, 1;
    "calls that are not made": [2], [1] => 0, 1;
    "the fetch and the store": [0, 1], [] => 3, 0;
    "the fetch and the line": [0], [0] => 4, 0;
    "the store and the line": [1], [0] => 4, 0;
};

const SIMULATING: &[Case] = cases! {
    "no call": [], [] => 0, 1;
    "the fetch of the VHDL": [0], [] => 3, 0;
    "the fetch of the vectors": [1], [] => 3, 0;
    "the store": [2], [] => 4, 0;
    "the line": [], [0] => 4, 1;
    "calls that are not made": [3], [1] => 0, 1;
    "both fetches": [0, 1], [] => 3, 0;
    "the fetch of the VHDL and the store": [0, 2], [] => 3, 0;
    "the fetch of the vectors and the store": [1, 2], [] => 3, 0;
    "the fetch of the VHDL and the line": [0], [0] => 4, 0;
    "the fetch of the vectors and the line": [1], [0] => 4, 0;
    "the store and the line": [2], [0] => 4, 0;
};

const CHECKING: &[Case] = cases! {
    "no call": [], [] => 0, 0;
    "the fetch of the specification": [0], [] => 3, 0;
    "the fetch of the VHDL": [1], [] => 3, 0;
    "the fetch of the vectors": [2], [] => 3, 0;
    "the line": [], [0] => 4, 0;
    "calls that are not made": [3], [1] => 0, 0;
    "the fetch of the VHDL and the line": [1], [0] => 4, 0;
};

const WORKING: &[Case] = cases! {
    "no call": [], [] => 0, 0;
    "calls that are not made": [0, 1, 2], [1] => 0, 0;
    "the line": [], [0] => 4, 0;
    "a fetch that is not made and the line": [0], [0] => 4, 0;
};

static COMMANDS: [Command; 6] = [
    Command {
        name: "generate",
        words: &["generate", "spec.toml"],
        line: WROTE,
        stores: FILES_OF_THIRD,
        changes: &[],
        cases: GENERATING,
    },
    Command {
        name: "generate --enable",
        words: &["generate", "spec.toml", "--enable"],
        line: WROTE,
        stores: FILES_OF_THIRD,
        changes: ENABLE,
        cases: GENERATING,
    },
    Command {
        name: "vectors",
        words: &["vectors", "spec.toml"],
        line: "wrote third.vec, 16 cycles\n",
        stores: &[("third.vec", ROWS)],
        changes: &[],
        cases: DRAWING,
    },
    Command {
        name: "simulate",
        words: &["simulate", "a.vhd", "in.vec", "out.vec"],
        line: "simulated 1 cycles\n",
        stores: &[("out.vec", "1 : 03\n")],
        changes: &[],
        cases: SIMULATING,
    },
    Command {
        name: "check",
        words: &["check", "times3.toml", "a.vhd", "in.vec", "0"],
        line: "good 1\n",
        stores: &[],
        changes: &[],
        cases: CHECKING,
    },
    Command {
        name: "workload",
        words: &["workload", "1"],
        line: "workload 1 signals 325 latency 1 good 63\n",
        stores: &[],
        changes: &[],
        cases: WORKING,
    },
];

// The text with its changes, each of what stands first by what is put there.
fn changed(alloc: Global, text: &str, changes: &[(&str, &str)]) -> Result<String, AllocError> {
    let mut changed = String::from_str(alloc, text)?;
    for (old, new) in changes {
        changed = changed.replacen(alloc, *old, *new, 1)?;
    }
    Ok(changed)
}

fn line_of(command: &Command, case: &Case) -> &'static str {
    match case.status {
        0 => command.line,
        3 => "read fault\n",
        _ => "",
    }
}

// Whether the folder holds the stores that stand, and else what it held before.
fn is_left(
    alloc: Global,
    command: &Command,
    case: &Case,
    ran: &Outcome,
) -> Result<bool, AllocError> {
    for (name, before) in &FILES {
        let mut stores = command.stores.iter().take(case.stored);
        let found = match stores.find(|store| store.0 == *name) {
            Some((_, text)) => {
                let text = changed(alloc, *text, command.changes)?;
                holds(&ran.folder, *name, Some(&text))
            }
            None => holds(&ran.folder, *name, Some(*before)),
        };
        if !found {
            return Ok(false);
        }
    }
    Ok(true)
}

fn files(alloc: Global) -> Result<Vec<(&'static str, &'static [u8])>, AllocError> {
    let mut files = Vec::new(alloc);
    for (name, text) in &FILES {
        files.push((*name, text.as_bytes()))?;
    }
    Ok(files)
}

// The first case of the command that is answered otherwise.
fn first_of(
    rt: &(impl Threads + Sync + Alloc<A = Global>),
    command: &Command,
) -> Result<Option<&'static str>, AllocError> {
    let files = files(rt.alloc())?;
    for case in command.cases {
        let ran = ran_over(rt, command.words, &files, case.failing)?;
        let answered = ran.status == case.status
            && ran.out.bytes() == line_of(command, case).as_bytes()
            && is_left(rt.alloc(), command, case, &ran)?;
        if !answered {
            return Ok(Some(case.name));
        }
    }
    Ok(None)
}

#[test]
fn failing_calls(rt: HostRuntime) -> Result<(), Fail> {
    for command in &COMMANDS {
        let other = first_of(&rt, command)?;
        assert_eq!(rt; other, None, "{}", command.name);
    }
    Ok(())
}
