//! Full and half adders as nodes of a net: each takes bits from one column of a heap and returns a sum bit and a carry.
ghost use Rattle.std.specs.Prelude.{◌≡◌, ◌≤◌, ◌+◌, [], ◌∷◌, ◌++◌, length, All, IfOk, OnOk};
ghost use Rattle.opgen_design.specs.Plain.{plain};
ghost use Rattle.opgen_net.specs.Cells.{IsLogic};
ghost use Rattle.opgen_net.specs.Valid.{IsValid, FitsNodes, widths};
ghost use Rattle.opgen_net.specs.WordRule.{IsThere};
ghost use Rattle.opgen_net.specs.Flow.{KeepsFlow};
ghost use Rattle.opgen_net.specs.declared.node.Node.{Node};
ghost use Rattle.opgen_net.specs.declared.cell.Class.{Class};
ghost use Rattle.opgen_compress.specs.Kept.{WorkThere};
ghost use Rattle.opgen_compress.specs.Adder.{work, full_adder as full_adder_of, half_adder as half_adder_of, bit_tree, two as two_of, three as three_of, half_sum as half_sum_of, half_carry as half_carry_of, full_sum as full_sum_of, full_carry as full_carry_of, next_bit};

use crate::queue::Queue;
use opgen_design::{Expr, Op, Slice};
use opgen_list::Items;
use opgen_net::{Class, Net, WordBit};
use opgen_num::{Memory, Word};
use std::alloc::{AllocError, Global};

// A bit as an operand.
fn operand(net: &Net, bit: WordBit) -> Expr
    requires net { IsValid net.now }
    requires there { IsThere (widths net.now.nodes) bit }
    ensures { plain result ≡ bit_tree bit (widths net.now.nodes) }
{
    match bit {
        WordBit::Zero => Expr::Bits(Word::new(0, 1)),
        WordBit::One => Expr::Bits(Word::new(1, 1)),
        WordBit::Of { node, index } => {
            if index == 0 && net.width_of(node) == 1 {
                return Expr::Name(node);
            }
            Expr::Part(Slice {
                node,
                high: index,
                low: index,
            })
        }
    }
}

fn two(alloc: Global, op: Op, a: Expr, b: Expr) -> Result<Expr, AllocError>
    ensures { IfOk result (λ e. plain e ≡ two_of op (plain a) (plain b)) }
{
    let mut operands = Vec::new(alloc);
    operands.push(a)?;
    operands.push(b)?;
    Ok(Expr::Chain(op, operands))
}

fn three(alloc: Global, op: Op, a: Expr, b: Expr, c: Expr) -> Result<Expr, AllocError>
    ensures { IfOk result (λ e. plain e ≡ three_of op (plain a) (plain b) (plain c)) }
{
    let mut operands = Vec::new(alloc);
    operands.push(a)?;
    operands.push(b)?;
    operands.push(c)?;
    Ok(Expr::Chain(op, operands))
}

fn half_sum(alloc: Global, net: &Net, a: WordBit, b: WordBit) -> Result<Expr, AllocError>
    requires net { IsValid net.now }
    requires there { All (IsThere (widths net.now.nodes)) (a ∷ b ∷ []) }
    ensures { IfOk result (λ e. plain e ≡ half_sum_of a b (widths net.now.nodes)) }
{
    two(alloc, Op::Xor, operand(net, a), operand(net, b))
}

fn half_carry(alloc: Global, net: &Net, a: WordBit, b: WordBit) -> Result<Expr, AllocError>
    requires net { IsValid net.now }
    requires there { All (IsThere (widths net.now.nodes)) (a ∷ b ∷ []) }
    ensures { IfOk result (λ e. plain e ≡ half_carry_of a b (widths net.now.nodes)) }
{
    two(alloc, Op::And, operand(net, a), operand(net, b))
}

fn full_sum(
    alloc: Global,
    net: &Net,
    a: WordBit,
    b: WordBit,
    c: WordBit,
) -> Result<Expr, AllocError>
    requires net { IsValid net.now }
    requires there { All (IsThere (widths net.now.nodes)) (a ∷ b ∷ c ∷ []) }
    ensures { IfOk result (λ e. plain e ≡ full_sum_of a b c (widths net.now.nodes)) }
{
    three(
        alloc,
        Op::Xor,
        operand(net, a),
        operand(net, b),
        operand(net, c),
    )
}

// The majority of three bits.
fn full_carry(
    alloc: Global,
    net: &Net,
    a: WordBit,
    b: WordBit,
    c: WordBit,
) -> Result<Expr, AllocError>
    requires net { IsValid net.now }
    requires there { All (IsThere (widths net.now.nodes)) (a ∷ b ∷ c ∷ []) }
    ensures { IfOk result (λ e. plain e ≡ full_carry_of a b c (widths net.now.nodes)) }
{
    let low = half_carry(alloc, net, a, b)?;
    let middle = half_carry(alloc, net, a, c)?;
    let high = half_carry(alloc, net, b, c)?;
    three(alloc, Op::Or, low, middle, high)
}

// Appends a node of one bit, and answers the bit.
fn logic(net: &mut Net, expr: Expr) -> Result<WordBit, Memory>
    requires net { IsValid net.old }
    requires logic { IsLogic (widths net.old.nodes) (plain expr) }
    requires fits { FitsNodes (widths net.old.nodes) 1 (plain expr) }
    ensures ok { OnOk result (net.new ≡ record net.old { nodes = net.old.nodes ++ Node.Cells Class.Logic 1 (plain expr) ∷ [] }) }
    ensures bit { IfOk result (λ b. b ≡ next_bit net.old) }
    ensures valid { IsValid net.new }
    ensures flow { KeepsFlow net.old.nodes net.new.nodes }
{
    let node = net.cells(Class::Logic, 1, expr)?;
    Ok(WordBit::Of { node, index: 0 })
}

/// Adds the first three bits of a column. The sum's bit goes to the end of the column, and the carry, which the highest column
/// does not have, to the carries.
pub fn full_adder(
    alloc: Global,
    top: bool,
    column: &mut Queue,
    carries: &mut Items<WordBit>,
    net: &mut Net,
) -> Result<(), Memory>
    requires net { IsValid net.old }
    requires bits { 3 ≤ length column.old }
    requires there { WorkThere (work net.old column.old carries.old) }
    ensures ok { OnOk result (full_adder_of top net.old column.old carries.old ≡ work net.new column.new carries.new) }
    ensures shorter { OnOk result (length column.new + 2 ≡ length column.old) }
    ensures there { OnOk result (WorkThere (work net.new column.new carries.new)) }
    ensures valid { IsValid net.new }
{
    let a = column.take();
    let b = column.take();
    let c = column.take();
    let sum = full_sum(alloc, net, a, b, c)?;
    column.push(logic(net, sum)?)?;
    if top {
        return Ok(());
    }
    let majority = full_carry(alloc, net, a, b, c)?;
    carries.push(logic(net, majority)?)?;
    Ok(())
}

/// Adds the first two bits of a column, with sum and carry as in a full adder.
pub fn half_adder(
    alloc: Global,
    top: bool,
    column: &mut Queue,
    carries: &mut Items<WordBit>,
    net: &mut Net,
) -> Result<(), Memory>
    requires net { IsValid net.old }
    requires bits { 2 ≤ length column.old }
    requires there { WorkThere (work net.old column.old carries.old) }
    ensures ok { OnOk result (half_adder_of top net.old column.old carries.old ≡ work net.new column.new carries.new) }
    ensures shorter { OnOk result (length column.new + 1 ≡ length column.old) }
    ensures there { OnOk result (WorkThere (work net.new column.new carries.new)) }
    ensures valid { IsValid net.new }
{
    let a = column.take();
    let b = column.take();
    let sum = half_sum(alloc, net, a, b)?;
    column.push(logic(net, sum)?)?;
    if top {
        return Ok(());
    }
    let both = half_carry(alloc, net, a, b)?;
    carries.push(logic(net, both)?)?;
    Ok(())
}
