//! Tests of the step: nodes that were worked out by hand.
ghost use Rattle.std.specs.Prelude.{◌≡◌, ◌∷◌, [], IfOk, false, pos};
ghost use Rattle.opgen_net.specs.declared.node.Node.TheVariants.{Input};
ghost use Rattle.opgen_net.specs.Valid.{IsValid};

use crate::{saturate, wrap};
use opgen_net::{Net, Node};
use opgen_num::{Format, Memory};
use std::alloc::Global;
use std::test::Fail;

// A net of one input of six bits, node 0.
fn six_bits(alloc: Global) -> Result<Net, Memory>
    ensures nodes { IfOk result (λ net. net.nodes ≡ Input 0 6 ∷ []) }
    ensures valid { IfOk result IsValid }
{
    let mut net = Net::new(alloc);
    net.input("x", 6)?;
    Ok(net)
}

fn unsigned(width: u32) -> Format
    ensures { result ≡ record { signed = false; width = width; lsb = pos 0 } }
{
    Format {
        signed: false,
        width,
        lsb: 0,
    }
}

#[test]
fn six_bits_into_four(rt: HostRuntime) -> Result<(), Fail> {
    let alloc = rt.alloc();
    let mut net = six_bits(alloc)?;
    let last = saturate(alloc, &mut net, 0, unsigned(6), unsigned(4))?;
    let nodes = net.nodes.as_slice();
    assert_eq!(rt; nodes.len(), 5);
    assert_eq!(rt; last, 4);
    assert!(rt; matches!(&nodes[1], Node::Cells { width: 1, .. }));
    assert!(rt; matches!(&nodes[2], Node::Constant(word) if word.bits == 15 && word.width == 4));
    assert!(rt; matches!(&nodes[3], Node::Cells { width: 4, .. }));
    assert!(rt; matches!(&nodes[4], Node::Choice { on: 1, .. }));
    Ok(())
}

#[test]
fn six_bits_wrap_in_four(rt: HostRuntime) -> Result<(), Fail> {
    let alloc = rt.alloc();
    let mut net = six_bits(alloc)?;
    let last = wrap(alloc, &mut net, 0, unsigned(6), unsigned(4))?;
    let nodes = net.nodes.as_slice();
    assert_eq!(rt; nodes.len(), 2);
    assert_eq!(rt; last, 1);
    assert!(rt; matches!(&nodes[1], Node::Cells { width: 4, .. }));
    Ok(())
}
