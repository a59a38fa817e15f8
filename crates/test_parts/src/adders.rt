//! Tests of adder graphs: what one adder makes, graphs, and sets for a few numbers.
use opgen_graph::{Form, combine, cost, csd_set, parts, reach};
use std::test::Fail;

#[test]
fn combinations(rt: HostRuntime) -> Result<(), Fail> {
    let step = combine(3, 3, 45).ok_or("none")?;
    assert_eq!(rt; step.form, Form::B);
    assert_eq!(rt; step.shift, 4);
    Ok(())
}

/// The adders of the graph of 3 and 45: each number, the two that it is made of, the form and the shift.
static ADDERS: [(u32, u32, u32, Form, u32); 2] = [(3, 1, 1, Form::A, 1), (45, 3, 3, Form::B, 4)];

#[test]
fn graphs(rt: HostRuntime) -> Result<(), Fail> {
    let graph = reach(rt.alloc(), &[3, 45])?.ok_or("none")?;
    assert_eq!(rt; graph.adders.len(), ADDERS.len());
    for (adder, made) in graph.adders.as_slice().iter().zip(ADDERS.iter()) {
        let step = (
            adder.value,
            adder.u,
            adder.v,
            adder.step.form,
            adder.step.shift,
        );
        assert_eq!(rt; step, *made);
    }
    assert!(rt; reach(rt.alloc(), &[45])?.is_none());
    Ok(())
}

#[test]
fn sets(rt: HostRuntime) -> Result<(), Fail> {
    let set = csd_set(rt.alloc(), &[45])?;
    assert_eq!(rt; set.as_slice(), [3, 19, 45].as_slice());
    assert_eq!(rt; cost(set.as_slice(), 4), 25);
    assert_eq!(rt; cost(&[3, 45], 4), 16);
    Ok(())
}

#[test]
fn odd_parts(rt: HostRuntime) -> Result<(), Fail> {
    let found = parts(rt.alloc(), &[6, -5, 0, 8, 3, 1048575])?;
    assert_eq!(rt; found.as_slice(), [1, 3, 5, 1048575].as_slice());
    Ok(())
}
