//! The partial products of two factors in the columns of a bit heap: one AND of two bits for each pair, inverted if its weight is
//! negative.
ghost use Rattle.std.specs.Prelude.{◌≡◌, ◌<◌, ◌≤◌, ◌+◌, ◌*◌, IfOk, OnOk};
ghost use Rattle.opgen_num.specs.declared.format.TheConstants.{MAX_WIDTH};
ghost use Rattle.opgen_design.specs.Plain.{plain};
ghost use Rattle.opgen_heap.specs.Standing.{AllThere};
ghost use Rattle.opgen_net.specs.Valid.{IsValid};
ghost use Rattle.opgen_partial.specs.Recipe.{bit_of, both, is_sign, is_single, is_bit, is_turned, own_column, is_made, column, pair, partial_product, with_product, with_row, with_placed, with_products};
ghost use Rattle.opgen_partial.specs.Law.{AreFactors, IsPlaced, HasPlaced, HasProducts};

use opgen_design::{Expr, Op, Slice};
use opgen_heap::Heap;
use opgen_net::{Class, Net};
use opgen_num::{MAX_WIDTH, Memory};
use std::alloc::{AllocError, Global};

/// A factor: a node of a net, how many bits it has, and whether its number is signed.
#[derive(Clone, Copy, Debug, PartialEq, Eq)]
pub struct Factor {
    pub node: usize,
    pub width: u32,
    pub signed: bool,
}

/// Two factors, and how many of the lowest columns of their product are left out.
#[derive(Clone, Copy, Debug, PartialEq, Eq)]
pub struct Products {
    pub a: Factor,
    pub b: Factor,
    pub left_out: u32,
}

/// How the products of two factors' bits stand in a heap.
#[derive(Clone, Copy, Debug, PartialEq, Eq)]
pub struct Placing {
    /// Whether the second factor is the first: each pair of bits is then added once, for two.
    pub square: bool,
    /// Whether the product is subtracted.
    pub negative: bool,
    /// How many columns above their own, or below, the bits stand.
    pub raised: u32,
    pub lowered: u32,
}

/// A net, and a heap of bits of its nodes.
#[derive(Drop)]
pub struct Work {
    pub net: Net,
    pub heap: Heap,
}

// A bit of a factor. A node of one bit is read by its name.
fn bit_of(factor: Factor, index: u32) -> Expr
    ensures { plain result ≡ bit_of factor index }
{
    if factor.width == 1 {
        return Expr::Name(factor.node);
    }
    Expr::Part(Slice {
        node: factor.node,
        high: index,
        low: index,
    })
}

// Bit `i` of the first factor and bit `j` of the second.
fn both(alloc: Global, products: &Products, i: u32, j: u32) -> Result<Expr, AllocError>
    ensures { IfOk result (λ e. plain e ≡ both products.now i j) }
{
    let mut operands = Vec::new(alloc);
    operands.push(bit_of(products.a, i))?;
    operands.push(bit_of(products.b, j))?;
    Ok(Expr::Chain(Op::And, operands))
}

// Whether a bit is the sign of a factor.
fn is_sign(factor: Factor, index: u32) -> bool
    requires { index < MAX_WIDTH }
    ensures { result ≡ is_sign factor index }
{
    factor.signed && index + 1 == factor.width
}

impl Placing {
    // Whether two bits are one bit of a square.
    fn is_single(self, i: u32, j: u32) -> bool
        ensures { result ≡ is_single self i j }
    {
        self.square && i == j
    }

    // Whether the product of two bits is a bit of a factor as it stands.
    fn is_bit(self, i: u32, j: u32) -> bool
        ensures { result ≡ is_bit self i j }
    {
        self.is_single(i, j) && !self.negative
    }

    // The column of the product of two bits. Two different bits of a square are there once, and count twice.
    fn own_column(self, i: u32, j: u32) -> u32
        requires i { i < MAX_WIDTH }
        requires j { j < MAX_WIDTH }
        ensures value { result ≡ own_column self i j }
        ensures few { result ≤ 2 * MAX_WIDTH }
    {
        if self.square && i != j {
            return i + j + 1;
        }
        i + j
    }

    // The column of the heap that the product of two bits comes to.
    fn column(self, i: u32, j: u32) -> u32
        requires i { i < MAX_WIDTH }
        requires j { j < MAX_WIDTH }
        requires raised { self.raised ≤ 128 }
        requires there { self.lowered ≤ own_column self i j + self.raised }
        ensures { result ≡ column self i j }
    {
        self.own_column(i, j) + self.raised - self.lowered
    }
}

// Whether the product of two bits is added: it is not left out, and in a square it is not that of the same bits the other way round.
fn is_made(products: &Products, placing: Placing, i: u32, j: u32) -> bool
    requires i { i < MAX_WIDTH }
    requires j { j < MAX_WIDTH }
    ensures { result ≡ is_made products.now placing i j }
{
    if placing.square && j < i {
        return false;
    }
    products.left_out <= placing.own_column(i, j)
}

// Whether the product of two bits is turned: one of the two bits is a sign and not both, or the product is subtracted, and not both.
fn is_turned(products: &Products, placing: Placing, i: u32, j: u32) -> bool
    requires i { i < MAX_WIDTH }
    requires j { j < MAX_WIDTH }
    ensures { result ≡ is_turned products.now placing i j }
{
    placing.negative != (is_sign(products.a, i) != is_sign(products.b, j))
}

// A bit of a square, or two bits.
fn pair(
    alloc: Global,
    products: &Products,
    placing: Placing,
    i: u32,
    j: u32,
) -> Result<Expr, AllocError>
    ensures { IfOk result (λ e. plain e ≡ pair products.now placing i j) }
{
    if placing.is_single(i, j) {
        return Ok(bit_of(products.a, i));
    }
    both(alloc, products, i, j)
}

fn partial_product(
    alloc: Global,
    products: &Products,
    placing: Placing,
    i: u32,
    j: u32,
) -> Result<Expr, AllocError>
    requires i { i < MAX_WIDTH }
    requires j { j < MAX_WIDTH }
    ensures { IfOk result (λ e. plain e ≡ partial_product products.now placing i j) }
{
    let pair = pair(alloc, products, placing, i, j)?;
    if is_turned(products, placing, i, j) {
        return Ok(Expr::Not(Box::new(alloc, pair)?));
    }
    Ok(pair)
}

// Adds the product of two bits to the heap, unless it is not made or its column is past the heap's width.
fn add_product(
    alloc: Global,
    products: &Products,
    placing: Placing,
    i: u32,
    j: u32,
    work: &mut Work,
) -> Result<(), Memory>
    requires net { IsValid work.old.net }
    requires factors { AreFactors products.now work.old.net }
    requires placed { IsPlaced products.now placing }
    requires i { i < products.now.a.width }
    requires j { j < products.now.b.width }
    ensures ok { OnOk result (work.new ≡ with_product products.now placing i j work.old) }
    ensures net { IsValid work.new.net }
    ensures factors { OnOk result (AreFactors products.now work.new.net) }
{
    if !is_made(products, placing, i, j) {
        return Ok(());
    }
    let column = placing.column(i, j);
    if column >= work.heap.width() {
        return Ok(());
    }
    if placing.is_bit(i, j) {
        return work.heap.add_bit(products.a.node, i, column);
    }
    let expr = partial_product(alloc, products, placing, i, j)?;
    let node = work.net.cells(Class::Logic, 1, expr)?;
    work.heap.add_bit(node, 0, column)
}

// Adds the products of bit `i` of the first factor.
fn add_row(
    alloc: Global,
    products: &Products,
    placing: Placing,
    i: u32,
    work: &mut Work,
) -> Result<(), Memory>
    requires net { IsValid work.old.net }
    requires factors { AreFactors products.now work.old.net }
    requires placed { IsPlaced products.now placing }
    requires i { i < products.now.a.width }
    ensures ok { OnOk result (work.new ≡ with_row products.now placing i products.now.b.width work.old) }
    ensures net { OnOk result (IsValid work.new.net) }
    ensures factors { OnOk result (AreFactors products.now work.new.net) }
{
    'row: for j in 0..products.b.width {
        add_product(alloc, products, placing, i, j, work)?;
    }
    Ok(())
}

/// Adds the products of the bits of two factors to a heap, each in its column but for those that are left out and those past the
/// heap's width, as many columns higher or lower as the placing says. A product is turned where one of its bits is a sign and not
/// both, and the other way round where the products are subtracted. Of a number with itself, each pair of bits is there once.
///
/// The heap's sum grows by the product of the factors' numbers, or falls by it, less `placed_correction` and less what is left out.
pub fn add_placed(
    alloc: Global,
    products: &Products,
    placing: Placing,
    work: &mut Work,
) -> Result<(), Memory>
    requires net { IsValid work.old.net }
    requires factors { AreFactors products.now work.old.net }
    requires placed { IsPlaced products.now placing }
    requires there { AllThere work.old.net work.old.heap.columns }
    ensures ok { OnOk result (work.new ≡ with_placed products.now placing work.old) }
    ensures products { OnOk result (HasPlaced products.now placing work.old work.new) }
{
    'rows: for i in 0..products.a.width {
        add_row(alloc, products, placing, i, work)?;
    }
    Ok(())
}

/// Adds the products of the bits of two factors to a heap, bit `i` times bit `j` in column `i + j`, but for the columns that are
/// left out and those past the heap's width. A product is turned where one of its bits is a sign, and not both.
///
/// The heap's sum grows by the product of the factors' numbers, less `sign_correction` and less what is left out.
pub fn add_products(alloc: Global, products: &Products, work: &mut Work) -> Result<(), Memory>
    requires net { IsValid work.old.net }
    requires factors { AreFactors products.now work.old.net }
    requires there { AllThere work.old.net work.old.heap.columns }
    ensures ok { OnOk result (work.new ≡ with_products products.now work.old) }
    ensures products { OnOk result (HasProducts products.now work.old work.new) }
{
    let placing = Placing {
        square: false,
        negative: false,
        raised: 0,
        lowered: 0,
    };
    add_placed(alloc, products, placing, work)
}
