//! A small operator of every kind, and of those that choose a compressor one with each: its circuit is made, run over rows, and
//! judged. The rows were worked out from the meaning of the kinds, by whole numbers; where an output is faithful, the exact value
//! is a whole number, so that no other output is good.
use crate::delays::plain;
use crate::documents::repeated;
use crate::running::{holds, ran_in};
use opgen_io::MemoryFolder;
use opgen_target::Target;
use std::alloc::{AllocError, Global};
use std::test::Fail;
use std::thread::Threads;

/// An operator by the keys that most share and those of its own, its latency, the line of `generate`, rows of inputs, those of
/// the run, and the lines of `simulate` and of `check`.
struct Case {
    name: &'static str,
    head: &'static str,
    keys: &'static str,
    latency: &'static str,
    wrote: &'static str,
    inputs: &'static str,
    run: &'static str,
    simulated: &'static str,
    judged: &'static str,
}

/// What most operators share: one cycle, since the period is long; and four rows of inputs, all good.
const SECOND: Case = Case {
    name: "",
    head: "version = 2\nname = \"made\"\ntarget = \"plain\"\nperiod = 1000000\n",
    keys: "",
    latency: "0",
    wrote: "wrote made.vhd and made.rpt, latency 0\n",
    inputs: "",
    run: "",
    simulated: "simulated 4 cycles\n",
    judged: "good 4\n",
};

/// The same in the third version of specifications.
const THIRD: Case = Case {
    head: "version = 3\nname = \"made\"\ntarget = \"plain\"\nperiod = 1000000\n",
    ..SECOND
};

static CASES: [Case; 21] = [
    Case {
        name: "three times four bits",
        keys: "kind = \"scale\"
exact = true
signed = false
width = 4
lsb = 0
out_lsb = 0
coefficients = [3]
",
        inputs: "1\n5\nf\n0\n",
        run: "1 : 03\n5 : 0f\nf : 2d\n0 : 00\n",
        ..SECOND
    },
    Case {
        name: "three times eight bits, with larger counters",
        keys: "kind = \"scale\"
exact = true
signed = false
width = 8
lsb = 0
out_lsb = 0
coefficients = [3]
compressor = \"counters\"
",
        inputs: "01\n05\nff\n80\n",
        run: "01 : 003\n05 : 00f\nff : 2fd\n80 : 180\n",
        ..SECOND
    },
    Case {
        name: "a third of four bits, in two stages",
        head: "version = 2\nname = \"made\"\ntarget = \"plain\"\n",
        keys: "kind = \"scale\"
exact = false
period = 900
signed = false
width = 4
lsb = 0
out_lsb = 0
coefficients = [1]
denominator = 3
",
        latency: "1",
        wrote: "wrote made.vhd and made.rpt, latency 1\n",
        inputs: "3\n6\n9\nf\n0\n",
        run: "3 : 0\n6 : 1\n9 : 2\nf : 3\n0 : 5\n",
        simulated: "simulated 5 cycles\n",
        ..SECOND
    },
    Case {
        name: "a filter",
        keys: "kind = \"fir\"
exact = true
signed = true
width = 4
lsb = 0
out_lsb = 0
coefficients = [1, 2, 1]
",
        inputs: "1\n7\n8\nf\n",
        run: "1 : 01\n7 : 09\n8 : 07\nf : 36\n",
        ..SECOND
    },
    Case {
        name: "how many of seven bits are 1, with larger counters",
        keys: "kind = \"fir\"
exact = true
signed = false
width = 1
lsb = 0
out_lsb = 0
coefficients = [1, 1, 1, 1, 1, 1, 1]
compressor = \"counters\"
",
        inputs: "1\n1\n0\n1\n1\n1\n1\n1\n1\n1\n0\n",
        run: "1 : 1\n1 : 2\n0 : 2\n1 : 3\n1 : 4\n1 : 5\n1 : 6\n1 : 6\n1 : 6\n1 : 7\n0 : 6\n",
        simulated: "simulated 11 cycles\n",
        judged: "good 11\n",
        ..SECOND
    },
    Case {
        name: "a signed product of three bits each",
        keys: "kind = \"multiply\"
exact = true
signed = true
width_a = 3
lsb_a = 0
width_b = 3
lsb_b = 0
out_lsb = 0
",
        inputs: "4 4\n7 3\n3 5\n0 6\n",
        run: "4 4 : 10\n7 3 : 3d\n3 5 : 37\n0 6 : 00\n",
        ..SECOND
    },
    Case {
        name: "a product of six bits each, with larger counters",
        keys: "kind = \"multiply\"
exact = true
signed = false
width_a = 6
lsb_a = 0
width_b = 6
lsb_b = 0
out_lsb = 0
compressor = \"counters\"
",
        inputs: "3f 3f\n2a 15\n01 20\n07 09\n",
        run: "3f 3f : f81\n2a 15 : 372\n01 20 : 020\n07 09 : 03f\n",
        ..SECOND
    },
    Case {
        name: "a quotient of four bits by two",
        keys: "kind = \"divide\"
exact = true
width_a = 4
lsb_a = 0
width_b = 2
lsb_b = 0
out_lsb = 0
",
        inputs: "f 2\n9 3\n7 1\n2 3\n",
        run: "f 2 : 7 1\n9 3 : 3 0\n7 1 : 7 0\n2 3 : 0 2\n",
        ..SECOND
    },
    Case {
        name: "a root of four bits",
        keys: "kind = \"root\"
exact = true
width = 4
lsb = 0
out_lsb = 0
",
        inputs: "0\n3\n8\nf\n",
        run: "0 : 0 0\n3 : 1 2\n8 : 2 4\nf : 3 6\n",
        ..SECOND
    },
    Case {
        name: "three and five times four bits",
        keys: "kind = \"mcm\"
exact = true
signed = false
width = 4
lsb = 0
constants = [3, 5]
extra = 0
",
        inputs: "1\n5\nf\n0\n",
        run: "1 : 03 05\n5 : 0f 19\nf : 2d 4b\n0 : 00 00\n",
        ..SECOND
    },
    Case {
        name: "four bits by three",
        keys: "kind = \"constdiv\"
exact = true
width = 4
lsb = 0
divisor = 3
",
        inputs: "e\n2\nf\n0\n",
        run: "e : 4 2\n2 : 0 2\nf : 5 0\n0 : 0 0\n",
        ..SECOND
    },
    Case {
        name: "the square of two bits, in sixteenths",
        keys: "kind = \"poly\"
exact = false
width = 2
out_lsb = -4
coefficients = [0, 0, 1]
",
        inputs: "0\n1\n2\n3\n",
        run: "0 : 00\n1 : 01\n2 : 04\n3 : 09\n",
        ..SECOND
    },
    Case {
        name: "a transposed filter",
        keys: "kind = \"tfir\"
exact = true
signed = false
width = 4
lsb = 0
taps = [1, 2, -3]
extra = 0
",
        inputs: "7\nf\n1\n0\n",
        run: "7 : 07\nf : 1d\n1 : 0a\n0 : 55\n",
        ..SECOND
    },
    Case {
        name: "a signed quotient of four bits by three",
        keys: "kind = \"divide\"
exact = true
signed = true
width_a = 4
lsb_a = 0
width_b = 3
lsb_b = 0
out_lsb = 0
",
        inputs: "9 2\n7 6\n8 7\nf 3\n",
        run: "9 2 : 1d 7\n7 6 : 1d 1\n8 7 : 08 0\nf 3 : 00 7\n",
        ..THIRD
    },
    Case {
        name: "three times four signed bits, brought into four unsigned ones",
        keys: "kind = \"scale\"
exact = true
signed = true
width = 4
lsb = 0
out_lsb = 0
out_width = 4
out_signed = false
coefficients = [3]
",
        inputs: "8\nf\n2\n7\n",
        run: "8 : 0\nf : 0\n2 : 6\n7 : f\n",
        ..THIRD
    },
    Case {
        name: "a transposed filter without its lowest two bits",
        keys: "kind = \"tfir\"
exact = true
signed = true
width = 4
lsb = 0
out_lsb = 2
extra = 0
taps = [4, 8, -12]
",
        inputs: "1\nf\n7\n0\n",
        run: "1 : 01\nf : 01\n7 : 02\n0 : 11\n",
        ..THIRD
    },
    Case {
        name: "constants beyond those that are searched for",
        keys: "kind = \"mcm\"
exact = true
signed = true
width = 4
lsb = 0
constants = [2049, -5, 0]
",
        inputs: "1\n8\n7\nf\n",
        run: "1 : 0801 7b 0\n8 : bff8 28 0\n7 : 3807 5d 0\nf : f7ff 05 0\n",
        ..THIRD
    },
    Case {
        name: "a transposed filter of nine odd taps",
        keys: "kind = \"tfir\"
exact = true
signed = true
width = 4
lsb = 0
taps = [3, 5, 7, 9, 11, 13, 15, 17, 19]
",
        inputs: "1\n1\n0\nf\n",
        run: "1 : 003\n1 : 008\n0 : 00c\nf : 00d\n",
        ..THIRD
    },
    Case {
        name: "the imaginary part of a product",
        keys: "kind = \"sop\"
exact = true
out_lsb = 0
[[input]]
name = \"a\"
signed = true
width = 4
lsb = 0
[[input]]
name = \"b\"
signed = true
width = 4
lsb = 0
[[input]]
name = \"c\"
signed = true
width = 4
lsb = 0
[[input]]
name = \"d\"
signed = true
width = 4
lsb = 0
[[product]]
a = \"a\"
b = \"d\"
[[product]]
a = \"b\"
b = \"c\"
",
        inputs: "8 8 8 8\n7 8 7 8\n1 2 3 4\n0 0 0 0\n",
        run: "8 8 8 8 : 080\n7 8 7 8 : 190\n1 2 3 4 : 00a\n0 0 0 0 : 000\n",
        ..THIRD
    },
    Case {
        name: "the real part of a product, with larger counters",
        keys: "kind = \"sop\"
exact = true
out_lsb = 0
compressor = \"counters\"
[[input]]
name = \"a\"
signed = true
width = 4
lsb = 0
[[input]]
name = \"b\"
signed = true
width = 4
lsb = 0
[[input]]
name = \"c\"
signed = true
width = 4
lsb = 0
[[input]]
name = \"d\"
signed = true
width = 4
lsb = 0
[[product]]
a = \"a\"
b = \"c\"
[[product]]
a = \"b\"
b = \"d\"
negative = true
",
        inputs: "8 7 7 7\n8 8 8 7\n1 2 3 4\n0 0 0 0\n",
        run: "8 7 7 7 : 97\n8 8 8 7 : 78\n1 2 3 4 : fb\n0 0 0 0 : 00\n",
        ..THIRD
    },
    Case {
        name: "a square less 1",
        keys: "kind = \"sop\"
exact = true
out_lsb = -6
offset = -1
[[input]]
name = \"v\"
signed = true
width = 4
lsb = -3
[[product]]
a = \"v\"
b = \"v\"
",
        inputs: "8\n0\n4\nf\n",
        run: "8 : 00\n0 : 40\n4 : 50\nf : 41\n",
        ..THIRD
    },
];

// The folder after the words, if they end with status 0 and this line.
fn after(
    rt: &(impl Threads + Sync + Alloc<A = Global>),
    folder: MemoryFolder,
    words: &[&str],
    line: &str,
) -> Result<Option<MemoryFolder>, AllocError> {
    let alloc = rt.alloc();
    let mut targets: Vec<Box<dyn Target>> = Vec::new(alloc);
    targets.push(Box::new(alloc, plain(alloc)?)?)?;
    let ran = ran_in(rt, words, folder, &[], targets)?;
    if ran.status == 0 && ran.out.bytes() == line.as_bytes() {
        Ok(Some(ran.folder))
    } else {
        Ok(None)
    }
}

// A folder of the specification and of the rows of inputs.
fn folder_with(alloc: Global, case: &Case) -> Result<MemoryFolder, AllocError> {
    let spec = repeated(alloc, case.head, case.keys, 1, "")?;
    let rows = Vec::from_slice(alloc, case.inputs.as_bytes())?;
    let mut files = Vec::new(alloc);
    files.push((String::from_str(alloc, "spec.toml")?, spec.into_bytes()))?;
    files.push((String::from_str(alloc, "in.vec")?, rows))?;
    Ok(MemoryFolder::new(files, Vec::new(alloc)))
}

// The first command that answers otherwise.
fn first_wrong(
    rt: &(impl Threads + Sync + Alloc<A = Global>),
    case: &Case,
) -> Result<Option<&'static str>, AllocError> {
    let folder = folder_with(rt.alloc(), case)?;
    let words = ["generate", "spec.toml"];
    let Some(folder) = after(rt, folder, &words, case.wrote)? else {
        return Ok(Some("generate"));
    };
    let words = ["simulate", "made.vhd", "in.vec", "out.vec"];
    let Some(folder) = after(rt, folder, &words, case.simulated)? else {
        return Ok(Some("simulate"));
    };
    if !holds(&folder, "out.vec", Some(case.run)) {
        return Ok(Some("the rows of simulate"));
    }
    let words = ["check", "spec.toml", "made.vhd", "in.vec", case.latency];
    if after(rt, folder, &words, case.judged)?.is_none() {
        return Ok(Some("check"));
    }
    Ok(None)
}

#[test]
fn every_kind(rt: HostRuntime) -> Result<(), Fail> {
    for case in &CASES {
        let wrong = first_wrong(&rt, case)?;
        assert_eq!(rt; wrong, None, "{}", case.name);
    }
    Ok(())
}
