//! Tests of the least set for one number and for none, and of the nodes that it gives.
use opgen_list::Items;
use opgen_mcm::build;
use opgen_num::Format;
use opgen_operator::Several;
use opgen_ports::Recipe;
use opgen_search::{OpenGate, least_graph, least_set};
use std::test::Fail;

#[test]
fn rows(rt: HostRuntime) -> Result<(), Fail> {
    let alloc = rt.alloc();
    for workers in 1..=2 {
        let found = least_set(&rt, alloc, &[45], 4, 1, workers, &OpenGate)?;
        assert_eq!(rt; found.as_slice(), [3, 45].as_slice());
        let found = least_set(&rt, alloc, &[45], 4, 0, workers, &OpenGate)?;
        assert_eq!(rt; found.as_slice(), [3, 19, 45].as_slice());
        let found = least_set(&rt, alloc, &[39], 4, 1, workers, &OpenGate)?;
        assert_eq!(rt; found.as_slice(), [5, 39].as_slice());
        let found = least_set(&rt, alloc, &[39], 4, 0, workers, &OpenGate)?;
        assert_eq!(rt; found.as_slice(), [7, 39].as_slice());
        assert!(rt; least_set(&rt, alloc, &[], 4, 0, workers, &OpenGate)?.is_empty());
    }
    Ok(())
}

// By two adders, of which the first makes three times the input.
#[test]
fn forty_five(rt: HostRuntime) -> Result<(), Fail> {
    let mut constants = Items::new(rt.alloc());
    constants.push(45)?;
    let several = Several {
        input: Format {
            signed: false,
            width: 4,
            lsb: 0,
        },
        constants,
        searched: true,
        extra: 1,
        recipe: Recipe::Third,
    };
    let numbers = several.constants.as_slice();
    let found = least_graph(&rt, rt.alloc(), numbers, 4, 1, 2, &OpenGate)?;
    assert_eq!(rt; found.set.as_slice(), [3, 45].as_slice());
    let net = build(rt.alloc(), &several, &found.graph)?;
    assert_eq!(rt; net.outputs.len(), 1);
    Ok(())
}
