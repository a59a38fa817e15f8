//! Takes a sign off a number and puts one to it: the number is subtracted from 0, and the difference or the number is chosen.
ghost use Rattle.std.specs.Prelude.{◌≡◌, ◌≤◌, All, IfOk, OnOk, length, slice_index};
ghost use Rattle.opgen_design.specs.Plain.{plain};
ghost use Rattle.opgen_design.specs.Value.{IsWidth};
ghost use Rattle.opgen_net.specs.Flow.{KeepsFlow};
ghost use Rattle.opgen_net.specs.Placed.{difference_of, whole};
ghost use Rattle.opgen_net.specs.Valid.{IsValid, widths};
ghost use Rattle.opgen_net.specs.WordRule.{IsThere, bits_from};
ghost use Rattle.opgen_divide.specs.Sign.{sign_of, with_sign, with_absolute, with_signed, HasSign, HasAbsolute};

use opgen_list::Items;
use opgen_net::{Class, Expr, Net, Op, Slice, WordBit, push_bits};
use opgen_num::{Memory, Word};
use std::alloc::{AllocError, Global};

/// The sign of a node that has so many bits: its highest bit.
pub fn sign_of(node: usize, width: u32) -> Expr
    requires { 1 ≤ width }
    ensures { plain result ≡ sign_of node width }
{
    Expr::Part(Slice {
        node,
        high: width - 1,
        low: width - 1,
    })
}

// All bits of a node.
fn whole(width: u32, node: usize) -> Slice
    requires { 1 ≤ width }
    ensures { result ≡ whole width node }
{
    Slice {
        node,
        high: width - 1,
        low: 0,
    }
}

// A node taken off zeros.
fn opposite(alloc: Global, zeros: usize, node: usize) -> Result<Expr, AllocError>
    ensures { IfOk result (λ e. plain e ≡ difference_of zeros node) }
{
    let mut operands = Vec::new(alloc);
    operands.push(Expr::Name(zeros))?;
    operands.push(Expr::Name(node))?;
    Ok(Expr::Chain(Op::Minus, operands))
}

// The nodes of the recipe: zeros, the difference, and the choice.
fn append(
    alloc: Global,
    net: &mut Net,
    sign: usize,
    node: usize,
    width: u32,
) -> Result<usize, Memory>
    requires net { IsValid net.old }
    requires width { IsWidth width }
    requires sign { slice_index (widths net.old.nodes) sign ≡ 1 }
    requires node { slice_index (widths net.old.nodes) node ≡ width }
    ensures ok { OnOk result (net.new ≡ (with_sign sign node width net.old).net) }
    ensures place { IfOk result (λ n. n ≡ (with_sign sign node width net.old).place) }
    ensures valid { IsValid net.new }
{
    let zeros = net.constant(Word::new(0, width))?;
    let opposite = net.cells(Class::Add, width, opposite(alloc, zeros, node)?)?;
    net.choice(sign, whole(width, opposite), whole(width, node))
}

/// Appends a node with the number of another node of so many bits, or with the opposite number while
/// the node `sign`, of one bit, is 1. The number leaves its own highest bit 0.
///
/// If memory runs out, the net is valid.
pub fn with_sign(
    alloc: Global,
    net: &mut Net,
    sign: usize,
    node: usize,
    width: u32,
) -> Result<usize, Memory>
    requires net { IsValid net.old }
    requires width { IsWidth width }
    requires sign { slice_index (widths net.old.nodes) sign ≡ 1 }
    requires node { slice_index (widths net.old.nodes) node ≡ width }
    ensures ok { OnOk result (net.new ≡ (with_sign sign node width net.old).net) }
    ensures place { IfOk result (λ n. n ≡ (with_sign sign node width net.old).place) }
    ensures valid { IsValid net.new }
    ensures flow { OnOk result (KeepsFlow net.old.nodes net.new.nodes) }
    ensures number { IfOk result (HasSign net.old sign node width net.new) }
{
    let place = append(alloc, net, sign, node, width)?;
    Ok(place)
}

/// Appends a node with the absolute value of a node of so many bits, which is signed. The absolute
/// value has no sign, so that of the least number fits too.
///
/// If memory runs out, the net is valid.
pub fn absolute_of(alloc: Global, net: &mut Net, node: usize, width: u32) -> Result<usize, Memory>
    requires net { IsValid net.old }
    requires width { IsWidth width }
    requires node { slice_index (widths net.old.nodes) node ≡ width }
    ensures ok { OnOk result (net.new ≡ (with_absolute node width net.old).net) }
    ensures place { IfOk result (λ n. n ≡ (with_absolute node width net.old).place) }
    ensures valid { IsValid net.new }
    ensures flow { OnOk result (KeepsFlow net.old.nodes net.new.nodes) }
    ensures number { IfOk result (HasAbsolute net.old node width net.new) }
{
    let sign = net.cells(Class::Wire, 1, sign_of(node, width))?;
    let place = with_sign(alloc, net, sign, node, width)?;
    Ok(place)
}

/// Appends a node with the number that these bits stand for, or with the opposite number while the
/// node `sign` is 1, and answers the bits of that node.
///
/// If memory runs out, the net is valid.
pub fn signed_bits(
    alloc: Global,
    net: &mut Net,
    sign: usize,
    bits: &[WordBit],
) -> Result<Items<WordBit>, Memory>
    requires net { IsValid net.old }
    requires width { IsWidth (length bits.now) }
    requires there { All (IsThere (widths net.old.nodes)) bits.now }
    requires sign { slice_index (widths net.old.nodes) sign ≡ 1 }
    ensures ok { OnOk result (net.new ≡ (with_signed sign net.old bits.now).net) }
    ensures bits { IfOk result (λ made. made ≡ bits_from (with_signed sign net.old bits.now).place 0 (length bits.now)) }
    ensures valid { IsValid net.new }
{
    let width = bits.len() as u32;
    let node = net.word(bits)?;
    let signed = with_sign(alloc, net, sign, node, width)?;
    let mut made = Items::new(alloc);
    push_bits(&mut made, signed, 0, width)?;
    Ok(made)
}
