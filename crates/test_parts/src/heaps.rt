//! Tests of compressor trees and larger counters on small heaps, and of the columns that a truncated product leaves out.
ghost use Rattle.std.specs.Prelude.{◌≡◌, ◌<◌, ◌^◌, ◌∷◌, [], ℕ, IfOk, codes};
ghost use Rattle.opgen_net.specs.declared.node.Node.TheVariants.{Input};
ghost use Rattle.opgen_net.specs.declared.word_bits.WordBit.TheVariants.{Of};
ghost use Rattle.opgen_net.specs.Valid.{IsValid};
ghost use Rattle.opgen_design.specs.Value.{IsWidth};
ghost use Rattle.opgen_heap.specs.Standing.{AllThere};

use crate::plans::{part, planned_plain};
use opgen_budget::drop_columns;
use opgen_compress::compress;
use opgen_gpc::count;
use opgen_heap::Heap;
use opgen_net::{Class, Net, Node};
use opgen_num::Memory;
use opgen_sim::Sim;
use std::alloc::Global;
use std::process::Abort;
use std::test::Fail;

// A net of three inputs of one bit, nodes 0, 1 and 2.
fn three_inputs(alloc: Global) -> Result<Net, Memory>
    ensures nodes { IfOk result (λ net. net.nodes ≡ Input 0 1 ∷ Input 1 1 ∷ Input 2 1 ∷ []) }
    ensures valid { IfOk result IsValid }
{
    let mut net = Net::new(alloc);
    net.input("a", 1)?;
    net.input("b", 1)?;
    net.input("c", 1)?;
    Ok(net)
}

// A heap of width 3 with a bit of each of the nodes 0, 1 and 2 in column 0.
fn three_bits(alloc: Global) -> Result<Heap, Memory>
    ensures { IfOk result (λ heap. heap.columns ≡ (Of 0 0 ∷ Of 1 0 ∷ Of 2 0 ∷ []) ∷ []) }
{
    let mut heap = Heap::new(alloc, 3);
    heap.add_bit(0, 0, 0)?;
    heap.add_bit(1, 0, 0)?;
    heap.add_bit(2, 0, 0)?;
    Ok(heap)
}

// A node is cells of this class and expression, as it is printed for debugging.
fn expect_cells(
    rt: &impl Abort,
    alloc: Global,
    node: &Node,
    class: Class,
    expected: &str,
) -> Result<(), Fail> {
    let Node::Cells {
        class: own,
        expr,
        ..
    } = node
    else {
        return Err(Fail::new("these are no cells"));
    };
    assert_eq!(rt; *own, class);
    let shown = format!(in alloc; "{:?}", expr.expr())?;
    assert_eq!(rt; shown.as_str(), expected);
    Ok(())
}

/// What a tree of three bits in one column appends.
static TREE: [(Class, &str); 5] = [
    (Class::Logic, "Chain(Xor, [Name(0), Name(1)])"),
    (Class::Logic, "Chain(And, [Name(0), Name(1)])"),
    (
        Class::Wire,
        "Chain(Cat, [Bits(Word { bits: 0, width: 1 }), Name(4), Name(2)])",
    ),
    (
        Class::Wire,
        "Chain(Cat, [Bits(Word { bits: 0, width: 2 }), Name(3)])",
    ),
    (Class::Add, "Chain(Plus, [Name(5), Name(6)])"),
];

#[test]
fn three_bits_in_a_column(rt: HostRuntime) -> Result<(), Fail> {
    let alloc = rt.alloc();
    let mut net = three_inputs(alloc)?;
    let heap = three_bits(alloc)?;
    assert_eq!(rt; compress(alloc, heap, &mut net)?, 7);
    assert_eq!(rt; net.nodes.as_slice().len(), 8);
    for (node, cells) in net.nodes.as_slice().iter().skip(3).zip(TREE.iter()) {
        expect_cells(&rt, alloc, node, cells.0, cells.1)?;
    }
    Ok(())
}

#[test]
fn a_constant_of_ones(rt: HostRuntime) -> Result<(), Fail> {
    let alloc = rt.alloc();
    let mut net = Net::new(alloc);
    let mut heap = Heap::new(alloc, 4);
    heap.add_constant(-1);
    assert_eq!(rt; compress(alloc, heap, &mut net)?, 0);
    assert_eq!(rt; net.nodes.as_slice().len(), 1);
    assert!(rt;
        matches!(net.nodes.as_slice().first(), Some(Node::Constant(word)) if word.bits == 15 && word.width == 4)
    );
    Ok(())
}

// A net of one input `x`.
fn one_input(alloc: Global, width: u32) -> Result<Net, Memory>
    requires width { IsWidth width }
    ensures inputs { IfOk result (λ net. net.inputs ≡ (codes "x", width) ∷ []) }
    ensures nodes { IfOk result (λ net. net.nodes ≡ Input 0 width ∷ []) }
    ensures outputs { IfOk result (λ net. net.outputs ≡ []) }
    ensures valid { IfOk result IsValid }
{
    let mut net = Net::new(alloc);
    net.input("x", width)?;
    Ok(net)
}

// A heap of width 4 with seven bits of node 0 in column 0.
fn seven_bits(alloc: Global) -> Result<Heap, Memory>
    ensures width { IfOk result (λ heap. heap.width ≡ 4) }
    ensures columns { IfOk result (λ heap. heap.columns ≡ (Of 0 0 ∷ Of 0 1 ∷ Of 0 2 ∷ Of 0 3 ∷ Of 0 4 ∷ Of 0 5 ∷ Of 0 6 ∷ []) ∷ []) }
{
    let mut heap = Heap::new(alloc, 4);
    heap.add_bit(0, 0, 0)?;
    heap.add_bit(0, 1, 0)?;
    heap.add_bit(0, 2, 0)?;
    heap.add_bit(0, 3, 0)?;
    heap.add_bit(0, 4, 0)?;
    heap.add_bit(0, 5, 0)?;
    heap.add_bit(0, 6, 0)?;
    Ok(heap)
}

// A heap of width 4 with five bits of node 0 in column 0 and one in column 1.
fn five_bits_and_one(alloc: Global) -> Result<Heap, Memory>
    ensures width { IfOk result (λ heap. heap.width ≡ 4) }
    ensures columns { IfOk result (λ heap. heap.columns ≡ (Of 0 0 ∷ Of 0 1 ∷ Of 0 2 ∷ Of 0 3 ∷ Of 0 4 ∷ []) ∷ (Of 0 5 ∷ []) ∷ []) }
{
    let mut heap = Heap::new(alloc, 4);
    heap.add_bit(0, 0, 0)?;
    heap.add_bit(0, 1, 0)?;
    heap.add_bit(0, 2, 0)?;
    heap.add_bit(0, 3, 0)?;
    heap.add_bit(0, 4, 0)?;
    heap.add_bit(0, 5, 1)?;
    Ok(heap)
}

// How many tables a net has.
fn tables(net: &Net) -> usize {
    net.nodes
        .as_slice()
        .iter()
        .filter(|node| matches!(node, Node::Table { .. }))
        .count()
}

// A heap whose bits are all 1, counted together and compressed, is 7, with one table.
fn expect_seven(
    rt: &impl Abort,
    alloc: Global,
    mut net: Net,
    heap: Heap,
    ones: u128,
) -> Result<(), Fail>
    requires inputs { (width : ℕ) × (net.inputs ≡ (codes "x", width) ∷ []) × (ones < 2 ^ width) }
    requires outputs { net.outputs ≡ [] }
    requires valid { IsValid net }
    requires width { heap.width ≡ 4 }
    requires there { AllThere net heap.columns }
{
    let heap = count(alloc, heap, &mut net)?;
    assert_eq!(rt; tables(&net), 1);
    let answer = compress(alloc, heap, &mut net)?;
    net.output("y", part(answer, 3, 0))?;
    let planned = planned_plain(alloc, &net, false, 1_000_000)?;
    assert!(rt; planned.design.ports.len() < 100);
    assert!(rt; planned.design.signals.len() < 100);
    assert!(rt; planned.design.drivers.len() < 100);
    assert!(rt; planned.design.sound(alloc).is_ok());
    let mut sim = Sim::new(alloc, &planned.design)?;
    let mut outputs = [0];
    sim.step(&[ones], &mut outputs);
    assert_eq!(rt; outputs[0], 7);
    Ok(())
}

#[test]
fn seven_bits_of_a_column(rt: HostRuntime) -> Result<(), Fail> {
    let alloc = rt.alloc();
    expect_seven(&rt, alloc, one_input(alloc, 7)?, seven_bits(alloc)?, 127)
}

#[test]
fn five_bits_and_one_of_the_next_column(rt: HostRuntime) -> Result<(), Fail> {
    let alloc = rt.alloc();
    expect_seven(
        &rt,
        alloc,
        one_input(alloc, 6)?,
        five_bits_and_one(alloc)?,
        63,
    )
}

#[test]
fn columns_of_four_by_four(rt: HostRuntime) {
    let cut = drop_columns(4, 4, 4);
    assert_eq!(rt; cut.columns, 2);
    assert_eq!(rt; cut.constant, 8);
}
