//! Tests of the filters of `workload`: their first coefficients, and the count of good cycles.
use crate::{good_cycles, workload_spec};
use opgen_operator::Operator;
use std::test::Fail;

#[test]
fn first_coefficients(rt: HostRuntime) -> Result<(), Fail> {
    let spec = workload_spec(rt.alloc(), 1)?;
    let drawn = [-2517, 308, 4861, -3839, 9681, 16, 1767, -14241];
    match &spec.op {
        Operator::Fir(sum) => assert_eq!(rt; sum.coefs.as_slice(), drawn.as_slice()),
        _ => assert!(rt; false),
    }
    Ok(())
}

// Inputs of 1000 make -38.4, and with the second coefficient -33.7.
#[test]
fn judged(rt: HostRuntime) -> Result<(), Fail> {
    let spec = workload_spec(rt.alloc(), 1)?;
    let inputs = [1000, 1000, 1000];
    assert_eq!(rt;
        good_cycles(&spec, &inputs, &[0, 4096 - 39, 4096 - 33], 1),
        2
    );
    assert_eq!(rt;
        good_cycles(&spec, &inputs, &[0, 4096 - 39, 4096 - 35], 1),
        1
    );
    assert_eq!(rt; good_cycles(&spec, &inputs, &[0, 4096 - 39], 3), 0);
    Ok(())
}
