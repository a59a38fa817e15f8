//! Targets that are handed in, and what `generate` and `workload` answer with them.
use crate::delays::{listed, plain};
use crate::documents::{SCALE, changed};
use crate::running::{Outcome, holds, ran_with};
use opgen_target::Target;
use std::alloc::{AllocError, Global};
use std::test::Fail;
use std::thread::Threads;

// `generate` on three times four bits at a period, with these targets.
fn generated_with(
    rt: &(impl Threads + Sync + Alloc<A = Global>),
    period: &str,
    targets: Vec<Box<dyn Target>>,
) -> Result<Outcome, AllocError> {
    let alloc = rt.alloc();
    let spec = changed(alloc, SCALE, &[("period = 10000", period)])?;
    ran_with(
        rt,
        &["generate", "spec.toml"],
        &[("spec.toml", spec.as_bytes())],
        targets,
    )
}

#[test]
fn no_target(rt: HostRuntime) -> Result<(), Fail> {
    let ran = generated_with(&rt, "period = 10000", Vec::new(rt.alloc()))?;
    assert_eq!(rt; ran.status, 1);
    assert!(rt; ran.out.bytes() == "specification: UnknownTarget\n".as_bytes());
    Ok(())
}

#[test]
fn the_first_of_two_of_a_name_is_taken(rt: HostRuntime) -> Result<(), Fail> {
    let alloc = rt.alloc();
    let mut slow_first: Vec<Box<dyn Target>> = Vec::new(alloc);
    slow_first.push(Box::new(alloc, plain(alloc)?)?)?;
    slow_first.push(Box::new(alloc, listed(alloc, "plain", 0)?)?)?;
    let ran = generated_with(&rt, "period = 899", slow_first)?;
    assert_eq!(rt; ran.status, 1);
    assert!(rt; ran.out.bytes() == "specification: PeriodTooShort 900\n".as_bytes());

    let mut fast_first: Vec<Box<dyn Target>> = Vec::new(alloc);
    fast_first.push(Box::new(alloc, listed(alloc, "plain", 0)?)?)?;
    fast_first.push(Box::new(alloc, plain(alloc)?)?)?;
    let ran = generated_with(&rt, "period = 1", fast_first)?;
    assert_eq!(rt; ran.status, 0);
    assert!(rt; holds(&ran.folder, "times3.rpt", Some(AT_ONE)));
    Ok(())
}

/// The report where nothing takes time, at a period of 1 ps.
const AT_ONE: &str = "operator times3
kind scale
mode exact
target plain
period 1
latency 0
slack 1
input x unsigned 4 0
output y unsigned 6 0
cells wire 0 logic 0 add 0 choice 0 table 4 register 0
signals 2
";

#[test]
fn workloads(rt: HostRuntime) -> Result<(), Fail> {
    let words = ["workload", "1"];
    let unknown = ran_with(&rt, &words, &[], Vec::new(rt.alloc()))?;
    assert_eq!(rt; unknown.status, 1);
    assert!(rt; unknown.out.bytes() == "specification: UnknownTarget\n".as_bytes());

    let mut slow: Vec<Box<dyn Target>> = Vec::new(rt.alloc());
    slow.push(Box::new(rt.alloc(), listed(rt.alloc(), "plain", 2001)?)?)?;
    let short = ran_with(&rt, &words, &[], slow)?;
    assert_eq!(rt; short.status, 1);
    assert!(rt; short.out.bytes() == "specification: PeriodTooShort 4002\n".as_bytes());
    Ok(())
}
