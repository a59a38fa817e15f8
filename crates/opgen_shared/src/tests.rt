//! Tests of the graphs of a few numbers, whose adders were worked out by hand.
use crate::shared_graph;
use opgen_graph::{Form, Graph};
use std::process::Abort;
use std::test::Fail;

/// An adder: its value, its operands, its shift and its form.
type Made = (u32, u32, u32, u32, Form);

/// The adders of 5, 45 and 2049.
static ADDERS: [Made; 3] = [
    (5, 1, 1, 2, Form::A),
    (45, 5, 5, 3, Form::A),
    (2049, 1, 1, 11, Form::A),
];

/// The adders of 23 alone: of the rests with two digits, which are 7, 9, 15 and 31, it takes 7, so that 23 = 16 + 7.
static ALONE: [Made; 2] = [(7, 1, 1, 3, Form::B), (23, 1, 7, 4, Form::A)];

/// The adders of 3, 11 and 23. Of 3 = 2 + 1 = 4 - 1 it takes the lower shift, of 11 = 8 + 3 = 4 * 3 - 1 the lower first
/// operand, and of 23 = 2 * 11 + 1 = 8 * 3 - 1 the lower level.
static TIES: [Made; 3] = [
    (3, 1, 1, 1, Form::A),
    (11, 1, 3, 3, Form::A),
    (23, 3, 1, 3, Form::B),
];

fn expect(rt: &impl Abort, graph: &Graph, all: &[Made]) {
    assert_eq!(rt; graph.adders.len(), all.len());
    for (adder, made) in graph.adders.as_slice().iter().zip(all.iter()) {
        let step = adder.step;
        assert_eq!(rt;
            (adder.value, adder.u, adder.v, step.shift, step.form),
            *made
        );
    }
}

#[test]
fn adders_of_four_numbers(rt: HostRuntime) -> Result<(), Fail> {
    let graph = shared_graph(rt.alloc(), &[2049, -5, 0, 90])?;
    expect(&rt, &graph, &ADDERS);
    Ok(())
}

#[test]
fn rest_is_made_first(rt: HostRuntime) -> Result<(), Fail> {
    let graph = shared_graph(rt.alloc(), &[23])?;
    expect(&rt, &graph, &ALONE);
    Ok(())
}

#[test]
fn ties_are_broken(rt: HostRuntime) -> Result<(), Fail> {
    let graph = shared_graph(rt.alloc(), &[23, 3, -22])?;
    expect(&rt, &graph, &TIES);
    Ok(())
}
