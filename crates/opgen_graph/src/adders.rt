//! Builds one adder node for each adder of a graph: shifts its two operands, adds or subtracts them, and drops low zeros.
ghost use Rattle.std.specs.Prelude.{◌≡◌, ◌≤◌, ◌+◌, ◌++◌, ◌∷◌, [], slice_index, All, Contains, IfOk, OnOk};
ghost use Rattle.opgen_design.specs.Plain.{plain};
ghost use Rattle.opgen_design.specs.Value.{IsWidth};
ghost use Rattle.opgen_design.specs.Tree.{name, chain as chain_of};
ghost use Rattle.opgen_design.specs.Plain.{trees_of};
ghost use Rattle.opgen_net.specs.Valid.{IsValid, widths};
ghost use Rattle.opgen_num.specs.declared.format.TheConstants.{MAX_WIDTH};
ghost use Rattle.opgen_graph.specs.Recipe.{zeros_below as zeros_of, dropped as dropped_of, added as added_of, input_multiple, with_input, with_known_sum, without_lowest, multiples_in, with_adder, with_adders};
ghost use Rattle.opgen_graph.specs.Placing.{AreAdders, AreMultiples, IsNarrow, IsNode, factors};

use crate::forms::{Form, Step};
use crate::multiples::{Multiple, multiple_of, operand};
use crate::ranks::Adder;
use opgen_list::Items;
use opgen_net::{Class, Expr, Net, Op, push_bits};
use opgen_num::{Format, Memory};
use std::alloc::{AllocError, Global};

// The zeros below the operand of `u`.
fn zeros_below(step: Step) -> u32
    ensures { result ≡ zeros_of step.form step.shift }
{
    match step.form {
        Form::A | Form::B | Form::C => step.shift,
        Form::D | Form::E => 0,
    }
}

// The lowest bits of the sum, which are dropped.
fn dropped(step: Step) -> u32
    ensures { result ≡ dropped_of step.form step.shift }
{
    match step.form {
        Form::A | Form::B | Form::C => 0,
        Form::D | Form::E => step.shift,
    }
}

/// Two nodes with an operator between them.
pub fn chain(alloc: Global, op: Op, left: usize, right: usize) -> Result<Expr, AllocError>
    ensures { IfOk result (λ e. plain e ≡ chain_of op (trees_of (name left ∷ name right ∷ []))) }
{
    let mut operands = Vec::new(alloc);
    operands.push(Expr::Name(left))?;
    operands.push(Expr::Name(right))?;
    Ok(Expr::Chain(op, operands))
}

// The sum or difference of the operands `a` of `u` and `b` of `v`.
fn added(alloc: Global, adder: Adder, a: usize, b: usize) -> Result<Expr, AllocError>
    ensures { IfOk result (λ e. plain e ≡ added_of adder.step.form adder.u adder.v a b) }
{
    match adder.step.form {
        Form::A | Form::D => chain(alloc, Op::Plus, a, b),
        Form::B => chain(alloc, Op::Minus, a, b),
        Form::C => chain(alloc, Op::Minus, b, a),
        Form::E => {
            if adder.u < adder.v {
                chain(alloc, Op::Minus, b, a)
            } else {
                chain(alloc, Op::Minus, a, b)
            }
        }
    }
}

// Appends the Add node of an adder, after its operands, which are known multiples.
fn sum(
    alloc: Global,
    net: &mut Net,
    signed: bool,
    width: u32,
    known: &[Multiple],
    adder: Adder,
) -> Result<usize, Memory>
    requires net { IsValid net.old }
    requires width { IsWidth width }
    requires nodes { All (IsNode net.old) known.now }
    requires u { Contains (factors known.now) adder.u }
    requires v { Contains (factors known.now) adder.v }
    requires few { adder.step.shift ≤ MAX_WIDTH }
    ensures ok { OnOk result (net.new ≡ (with_known_sum signed width net.old known.now adder).net) }
    ensures place { IfOk result (λ n. n ≡ (with_known_sum signed width net.old known.now adder).place) }
    ensures valid { IsValid net.new }
{
    let u = multiple_of(known, adder.u);
    let a = operand(alloc, net, signed, zeros_below(adder.step), width, u)?;
    let v = multiple_of(known, adder.v);
    let b = operand(alloc, net, signed, 0, width, v)?;
    net.cells(Class::Add, width, added(alloc, adder, a, b)?)
}

// Gives the bits of a node above its lowest.
fn without_low(
    alloc: Global,
    net: &mut Net,
    low: u32,
    width: u32,
    sum: usize,
) -> Result<usize, Memory>
    requires net { IsValid net.old }
    requires some { 1 ≤ width }
    requires most { width + low ≤ MAX_WIDTH }
    requires sum { slice_index (widths net.old.nodes) sum ≡ width + low }
    ensures ok { OnOk result (net.new ≡ (without_lowest low width (record { net = net.old; place = sum })).net) }
    ensures place { IfOk result (λ n. n ≡ (without_lowest low width (record { net = net.old; place = sum })).place) }
    ensures valid { IsValid net.new }
{
    if low == 0 {
        return Ok(sum);
    }
    let mut bits = Items::new(alloc);
    push_bits(&mut bits, sum, low, width)?;
    net.word(bits.as_slice())
}

// Makes the multiple of an adder.
fn place_adder(
    alloc: Global,
    net: &mut Net,
    input: Format,
    known: &[Multiple],
    adder: Adder,
) -> Result<Multiple, Memory>
    requires net { IsValid net.old }
    requires nodes { All (IsNode net.old) known.now }
    requires u { Contains (factors known.now) adder.u }
    requires v { Contains (factors known.now) adder.v }
    requires narrow { IsNarrow input adder }
    ensures ok { OnOk result (net.new ≡ (with_adder input (multiples_in net.old known.now) adder).net) }
    ensures multiple { IfOk result (λ m. known.now ++ m ∷ [] ≡
        (with_adder input (multiples_in net.old known.now) adder).known) }
    ensures valid { IsValid net.new }
{
    let width = input.width + (32 - adder.value.leading_zeros());
    let low = dropped(adder.step);
    let sum = sum(alloc, net, input.signed, width + low, known, adder)?;
    let node = without_low(alloc, net, low, width, sum)?;
    Ok(Multiple {
        factor: adder.value,
        node,
        width,
    })
}

/// Makes the multiples of a graph, the input first.
pub fn place_adders(
    alloc: Global,
    net: &mut Net,
    input: Format,
    adders: &[Adder],
) -> Result<Items<Multiple>, Memory>
    requires net { net.old ≡ with_input input }
    requires valid { IsValid net.old }
    requires adders { AreAdders input adders.now }
    ensures ok { IfOk result (λ known. multiples_in net.new known ≡
        with_adders input (multiples_in net.old (input_multiple input ∷ [])) adders.now) }
    ensures multiples { IfOk result (AreMultiples input net.new) }
    ensures valid { IfOk result (λ known. IsValid net.new) }
{
    let one = Multiple {
        factor: 1,
        node: 0,
        width: input.width,
    };
    let mut known = Items::new(alloc);
    known.push(one)?;
    'adders: for adder in adders {
        let made = place_adder(alloc, net, input, known.as_slice(), *adder)?;
        known.push(made)?;
    }
    Ok(known)
}
