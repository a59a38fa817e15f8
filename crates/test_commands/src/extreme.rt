//! A target of the tests' own, which tells the least or the most that a target may tell.
ghost use Rattle.std.specs.Prelude.{◌≡◌, false, string_bytes};
ghost use Rattle.opgen_net.specs.Classes.{place_of};
ghost use Rattle.opgen_target.specs.Tables.{listed_ledger};

use crate::delays::plain;
use crate::documents::{THIRD, changed, repeated};
use crate::running::{folder_of, holds, ran_in};
use crate::texts::THIRD_REPORT;
use opgen_target::{Cell, Class, Target};
use std::alloc::{AllocError, Global};
use std::test::Fail;
use std::thread::Threads;

/// A target with one delay for all cells, which takes no delay line.
#[derive(Drop)]
struct Extreme {
    name: String,
    delay: u32,
    charged: [u64; 6],
}

fn place_of(class: Class) -> usize
    ensures { result ≡ place_of class }
{
    class as usize
}

impl Target for Extreme {
    ghost target_name = { λ t. string_bytes t.name };

    ghost delays = { λ t class width. t.delay };

    ghost adjustable = { λ t. false };

    ghost ledger = { λ t. listed_ledger t.charged };

    fn name(&self) -> &str {
        self.name.as_str()
    }

    fn delay(&self, _cell: Cell) -> u32 {
        self.delay
    }

    fn retune(&mut self, _class: Class, _base: u32, _per_bit: u32) -> bool {
        false
    }

    fn clear(&mut self) {
        self.charged = [0; 6];
    }

    fn charge(&mut self, cell: Cell) {
        let number = &mut self.charged[place_of(cell.class)];
        *number = number.saturating_add(u64::from(cell.width));
    }

    fn charged(&self, class: Class) -> u64 {
        self.charged[place_of(class)]
    }
}

/// A target by its name, so many times, its delay and the numbers of its ledger before the run, with the usual one after it or
/// alone; and what is left of a third of four bits at a period: the line, and the report, if there is one.
struct Case {
    name: &'static str,
    called: &'static str,
    times: u32,
    delay: u32,
    charged: u64,
    is_alone: bool,
    period: &'static str,
    line: &'static str,
    report: Option<&'static str>,
}

const AT_ONCE: &str = "wrote third.vhd and third.rpt, latency 0\n";

const AT_900: &str = "wrote third.vhd and third.rpt, latency 1\n";

/// The report where nothing takes time.
const REPORT_AT_ONCE: &str = "operator third
kind scale
mode faithful
target plain
period 1
latency 0
slack 1
input x unsigned 4 0
output y unsigned 3 0
cells wire 0 logic 0 add 4 choice 0 table 4 register 0
signals 4
";

static CASES: [Case; 8] = [
    Case {
        name: "the longest delays at the longest period",
        called: "plain",
        times: 1,
        delay: u32::MAX,
        charged: 0,
        is_alone: false,
        period: "period = 1000000",
        line: "specification: PeriodTooShort 8589934590\n",
        report: None,
    },
    Case {
        name: "the longest delays and a ledger at its end",
        called: "plain",
        times: 1,
        delay: u32::MAX,
        charged: u64::MAX,
        is_alone: true,
        period: "period = 1",
        line: "specification: PeriodTooShort 8589934590\n",
        report: None,
    },
    Case {
        name: "the shortest delays",
        called: "plain",
        times: 1,
        delay: 0,
        charged: 0,
        is_alone: true,
        period: "period = 1",
        line: AT_ONCE,
        report: Some(REPORT_AT_ONCE),
    },
    Case {
        name: "a ledger at its end",
        called: "plain",
        times: 1,
        delay: 0,
        charged: u64::MAX,
        is_alone: true,
        period: "period = 1",
        line: AT_ONCE,
        report: Some(REPORT_AT_ONCE),
    },
    Case {
        name: "a name of no byte",
        called: "",
        times: 1,
        delay: 0,
        charged: 0,
        is_alone: true,
        period: "period = 900",
        line: "specification: UnknownTarget\n",
        report: None,
    },
    Case {
        name: "a name of no byte before the usual one",
        called: "",
        times: 1,
        delay: 0,
        charged: 0,
        is_alone: false,
        period: "period = 900",
        line: AT_900,
        report: Some(THIRD_REPORT),
    },
    Case {
        name: "a name of 200 letters",
        called: "plain",
        times: 40,
        delay: 0,
        charged: 0,
        is_alone: true,
        period: "period = 900",
        line: "specification: UnknownTarget\n",
        report: None,
    },
    Case {
        name: "a name of 200 letters before the usual one",
        called: "plain",
        times: 40,
        delay: 0,
        charged: 0,
        is_alone: false,
        period: "period = 900",
        line: AT_900,
        report: Some(THIRD_REPORT),
    },
];

fn extreme_of(alloc: Global, case: &Case) -> Result<Extreme, AllocError> {
    Ok(Extreme {
        name: repeated(alloc, "", case.called, case.times, "")?,
        delay: case.delay,
        charged: [case.charged; 6],
    })
}

fn is_answered(
    rt: &(impl Threads + Sync + Alloc<A = Global>),
    words: &[&str],
    case: &Case,
) -> Result<bool, AllocError> {
    let alloc = rt.alloc();
    let spec = changed(alloc, THIRD, &[("period = 900", case.period)])?;
    let folder = folder_of(alloc, &[("spec.toml", spec.as_bytes())], &[])?;
    let mut targets: Vec<Box<dyn Target>> = Vec::new(alloc);
    targets.push(Box::new(alloc, extreme_of(alloc, case)?)?)?;
    if !case.is_alone {
        targets.push(Box::new(alloc, plain(alloc)?)?)?;
    }
    let ran = ran_in(rt, words, folder, &[], targets)?;
    let status = if case.report.is_some() { 0 } else { 1 };
    Ok(
        ran.status == status
            && ran.out.bytes() == case.line.as_bytes()
            && holds(&ran.folder, "third.rpt", case.report),
    )
}

#[test]
fn the_least_and_the_most(rt: HostRuntime) -> Result<(), Fail> {
    for case in &CASES {
        let plain = is_answered(&rt, &["generate", "spec.toml"], case)?;
        assert!(rt; plain, "{}", case.name);
        let enabled = is_answered(&rt, &["generate", "spec.toml", "--enable"], case)?;
        assert!(rt; enabled, "{} with an enable", case.name);
    }
    Ok(())
}
