//! The circuit of a specification.
ghost use Rattle.std.specs.Prelude.{◌≡◌, ◌≤◌, [], IfOk, Ok};
ghost use Rattle.opgen_operator.specs.declared.operator.Operator.TheVariants.{Mcm, Tfir};
ghost use Rattle.opgen_net.specs.Named.{IsNamed};
ghost use Rattle.opgen_net.specs.Valid.{IsValid};
ghost use Rattle.opgen_operator.specs.Fits.{FitsInEachMode, FitsSpec};
ghost use Rattle.opgen_kinds.specs.Several.{IsAcceptedSeveral};
ghost use Rattle.opgen_kinds.specs.Taps.{IsAcceptedTaps};
ghost use Rattle.opgen_operator.specs.Valid.{IsValidSpec};
ghost use Rattle.opgen_top.specs.AdderGraphs.{IsNetOfConstants, IsNetOfTaps};
ghost use Rattle.opgen_top.specs.Kinds.{AreAddersOf, AreAddersOfOperator, IsNetOf, IsNetOfOperator};
ghost use Rattle.opgen_top.specs.Prepared.{IfRefused, IsCircuitFor, IsListed, IsOutcomeFor, OnRefusal, TellsPlanFault};
ghost use Rattle.opgen_top.specs.Specified.{OnDevices, OnTable};
ghost use Rattle.opgen_top.specs.Targets.{devices_of};

use crate::adder_graph::{graph_of_several, graph_of_taps};
use crate::answer::Refusal;
use crate::context::Context;
use crate::line::Line;
use crate::targets::choose_target;
use opgen_net::Net;
use opgen_num::Memory;
use opgen_pipe::{Placing, PlanFault, Planned, Timing, plan};
use opgen_saturate::cut_output;
use opgen_search::Gate;
use opgen_spec::{Operator, Several, Spec, Taps};
use opgen_target::Target;
use opgen_timing::cut_and_plan;
use std::alloc::Global;
use std::thread::Threads;

/// The net of a specification, and the numbers of its adder graph, if its kind has one.
#[derive(Drop)]
pub(crate) struct KindNet {
    pub net: Net,
    pub adders: Vec<u32>,
}

/// A plan of a net, and the same numbers.
#[derive(Drop)]
pub(crate) struct Circuit {
    pub planned: Planned,
    pub adders: Vec<u32>,
}

// A net with no shared numbers.
fn without_adders(alloc: Global, built: Result<Net, Memory>) -> Result<KindNet, Memory>
    ensures net { IfOk result (λ made. built ≡ Ok made.net) }
    ensures adders { IfOk result (λ made. made.adders.items ≡ []) }
{
    let net = built?;
    Ok(KindNet {
        net,
        adders: Vec::new(alloc),
    })
}

// The net of several constants, by their adder graph.
fn build_several<R: Threads + Sync, G: Gate + Sync>(
    rt: &R,
    alloc: Global,
    several: &Several,
    workers: u32,
    gate: &G,
) -> Result<KindNet, Memory>
    requires several { IsAcceptedSeveral several.now }
    requires workers { (1 ≤ workers) × (workers ≤ 32) }
    ensures net { IfOk result (λ made. IsNetOfConstants several.now made.net) }
    ensures fits { IfOk result (λ made. FitsInEachMode (Mcm several.now) made.net) }
    ensures adders { IfOk result (λ made. AreAddersOfOperator (Mcm several.now) made.adders.items) }
{
    let made = graph_of_several(rt, alloc, several, workers, gate)?;
    let net = opgen_mcm::build(alloc, several, &made.graph)?;
    Ok(KindNet {
        net,
        adders: made.set,
    })
}

// The net of a transposed filter, by the adder graph of its taps.
fn build_transposed<R: Threads + Sync, G: Gate + Sync>(
    rt: &R,
    alloc: Global,
    taps: &Taps,
    workers: u32,
    gate: &G,
) -> Result<KindNet, Memory>
    requires taps { IsAcceptedTaps taps.now }
    requires workers { (1 ≤ workers) × (workers ≤ 32) }
    ensures net { IfOk result (λ made. IsNetOfTaps taps.now made.net) }
    ensures fits { IfOk result (λ made. FitsInEachMode (Tfir taps.now) made.net) }
    ensures adders { IfOk result (λ made. AreAddersOfOperator (Tfir taps.now) made.adders.items) }
{
    let made = graph_of_taps(rt, alloc, taps, workers, gate)?;
    let net = opgen_tfir::build(alloc, taps, &made.graph)?;
    Ok(KindNet {
        net,
        adders: made.set,
    })
}

// The net of an operator, by its kind. A least set of adders is sought by so many workers.
fn build_operator<R: Threads + Sync, G: Gate + Sync>(
    rt: &R,
    alloc: Global,
    spec: &Spec,
    workers: u32,
    gate: &G,
) -> Result<KindNet, Memory>
    requires valid { IsValidSpec spec.now }
    requires workers { (1 ≤ workers) × (workers ≤ 32) }
    ensures net { IfOk result (λ made. IsNetOfOperator spec.now.op made.net) }
    ensures fits { IfOk result (λ made. FitsInEachMode spec.now.op made.net) }
    ensures adders { IfOk result (λ made. AreAddersOf spec.now made.adders.items) }
{
    match &spec.op {
        Operator::Scale(sum) => without_adders(alloc, opgen_fir::build(alloc, sum)),
        Operator::Fir(sum) => without_adders(alloc, opgen_fir::build(alloc, sum)),
        Operator::Multiply(product) => without_adders(alloc, opgen_mult::build(alloc, product)),
        Operator::Divide(pair) => without_adders(alloc, opgen_divide::build(alloc, pair)),
        Operator::Root(single) => without_adders(alloc, opgen_sqrt::build(alloc, single)),
        Operator::Mcm(several) => build_several(rt, alloc, several, workers, gate),
        Operator::Constdiv(small) => without_adders(alloc, opgen_constdiv::build(alloc, small)),
        Operator::Poly(poly) => without_adders(alloc, opgen_poly::build(alloc, poly)),
        Operator::Tfir(taps) => build_transposed(rt, alloc, taps, workers, gate),
        Operator::Sop(sop) => without_adders(alloc, opgen_sop::build(alloc, sop)),
    }
}

// The net of a specification: that of its operator, with the output of the width that is chosen.
fn build_net<R: Threads + Sync, G: Gate + Sync>(
    rt: &R,
    alloc: Global,
    spec: &Spec,
    workers: u32,
    gate: &G,
) -> Result<KindNet, Memory>
    requires valid { IsValidSpec spec.now }
    requires workers { (1 ≤ workers) × (workers ≤ 32) }
    ensures net { IfOk result (λ made. IsNetOf spec.now made.net) }
    ensures fits { IfOk result (λ made. FitsSpec spec.now made.net) }
    ensures named { IfOk result (λ made. IsNamed spec.now.name made.net) }
    ensures adders { IfOk result (λ made. AreAddersOf spec.now made.adders.items) }
{
    let mut made = build_operator(rt, alloc, spec, workers, gate)?;
    cut_output(alloc, &mut made.net, spec)?;
    Ok(made)
}

// The refusal of a specification whose net has no plan.
fn refuse_plan(fault: PlanFault) -> Refusal
    ensures { OnRefusal result (TellsPlanFault fault) }
{
    match fault {
        PlanFault::PeriodTooShort { need } => Refusal::Line(Line::PeriodTooShort { need }),
        PlanFault::TooLarge => Refusal::Line(Line::TooLarge),
        PlanFault::Memory => Refusal::Memory,
    }
}

// The plan of a specification's net for a target: in version 4 with its sums cut to the period, and few bits of registers.
fn plan_net(
    alloc: Global,
    spec: &Spec,
    net: &Net,
    enable: bool,
    target: &mut Box<dyn Target>,
) -> Result<Planned, PlanFault>
    requires valid { IsValid net.now }
    requires named { IsNamed spec.now.name net.now }
    ensures { IsOutcomeFor spec.now enable net.now (delays target.old) result }
{
    let name = spec.name.as_str();
    if spec.version < 4 {
        let timing = Timing {
            period: spec.period,
            placing: Placing::Earliest,
        };
        plan(alloc, net, name, enable, target, timing)
    } else {
        cut_and_plan(alloc, net, name, enable, target, spec.period)
    }
}

/// The circuit of a specification, for the target that it names.
pub(crate) fn make_circuit<R: Threads + Sync, G: Gate + Sync>(
    spec: &Spec,
    enable: bool,
    workers: u32,
    context: Context<'_, R, G>,
) -> Result<Circuit, Refusal>
    requires valid { IsValidSpec spec.now }
    requires workers { (1 ≤ workers) × (workers ≤ 32) }
    ensures circuit { IfOk result (IsCircuitFor spec.now enable (devices_of target_name delays adjustable context.entry.targets.items)) }
    ensures refused { IfRefused result (λ a. OnDevices (devices_of target_name delays adjustable context.entry.targets.items) spec.now a
        (λ table. OnTable spec.now table a ⊥)) }
    ensures listed { IfRefused result IsListed }
{
    let Context {
        rt,
        alloc,
        targets,
        gate,
    } = context;
    let mut target = choose_target(targets, spec)?;
    let built = build_net(rt, alloc, spec, workers, gate)?;
    match plan_net(alloc, spec, &built.net, enable, &mut target) {
        Ok(planned) => Ok(Circuit {
            planned,
            adders: built.adders,
        }),
        Err(fault) => Err(refuse_plan(fault)),
    }
}
