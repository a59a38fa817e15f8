//! Tests of the cut: two sums of ten bits, one of the other, by their nodes.
ghost use Rattle.std.specs.Prelude.{◌≡◌, IfOk};
ghost use Rattle.opgen_design.specs.Plain.{plain};
ghost use Rattle.opgen_design.specs.Tree.{name, chain, none, more};
ghost use Rattle.opgen_net.specs.Valid.{IsValid};

use crate::cut_sums;
use opgen_net::{Class, Expr, Net, Node, Op, Slice};
use opgen_num::Memory;
use std::alloc::{AllocError, Global};
use std::test::Fail;

// The sum of two nodes.
fn sum_of(alloc: Global, first: usize, second: usize) -> Result<Expr, AllocError>
    ensures { IfOk result (λ e. plain e ≡ chain Op.Plus (more (name first) (more (name second) none))) }
{
    let mut operands = Vec::new(alloc);
    operands.push(Expr::Name(first))?;
    operands.push(Expr::Name(second))?;
    Ok(Expr::Chain(Op::Plus, operands))
}

// Three inputs of ten bits, the sum of the first two, and the sum of it and the third, of which an output has the middle bits.
fn two_sums(alloc: Global) -> Result<Net, Memory>
    ensures { IfOk result IsValid }
{
    let mut net = Net::new(alloc);
    net.input("a", 10)?;
    net.input("b", 10)?;
    net.input("c", 10)?;
    net.cells(Class::Add, 10, sum_of(alloc, 0, 1)?)?;
    let node = net.cells(Class::Add, 10, sum_of(alloc, 3, 2)?)?;
    net.output(
        "y",
        Slice {
            node,
            high: 8,
            low: 1,
        },
    )?;
    Ok(net)
}

#[test]
fn two_sums_in_pieces_of_four_bits(rt: HostRuntime) -> Result<(), Fail> {
    let alloc = rt.alloc();
    let net = two_sums(alloc)?;
    let cut = cut_sums(alloc, &net, 4)?;
    let nodes = cut.nodes.as_slice();
    assert_eq!(rt; nodes.len(), 12);
    assert!(rt;
        nodes[3..11].iter().all(|node| matches!(
            node,
            Node::Cells {
                class: Class::Add,
                width: 4,
                ..
            }
        ))
    );
    assert!(rt;
        matches!(
            &nodes[11],
            Node::Cells {
                class: Class::Wire,
                width: 10,
                ..
            }
        )
    );
    let outputs = cut.outputs.as_slice();
    assert_eq!(rt; outputs.len(), 1);
    assert!(rt;
        matches!(
            &outputs[0].from,
            Slice {
                node: 11,
                high: 8,
                low: 1
            }
        )
    );
    Ok(())
}

#[test]
fn two_sums_that_are_not_cut(rt: HostRuntime) -> Result<(), Fail> {
    let alloc = rt.alloc();
    let net = two_sums(alloc)?;
    let cut = cut_sums(alloc, &net, 96)?;
    let nodes = cut.nodes.as_slice();
    assert_eq!(rt; nodes.len(), 5);
    assert!(rt;
        matches!(
            &nodes[4],
            Node::Cells {
                class: Class::Add,
                width: 10,
                ..
            }
        )
    );
    let outputs = cut.outputs.as_slice();
    assert_eq!(rt; outputs.len(), 1);
    assert!(rt;
        matches!(
            &outputs[0].from,
            Slice {
                node: 4,
                high: 8,
                low: 1
            }
        )
    );
    Ok(())
}
