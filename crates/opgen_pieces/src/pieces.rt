//! The sum in pieces: the lowest places at which 0 is added are passed on, and each piece hands its carry to the next.
ghost use Rattle.std.specs.Prelude.{◌≡◌, ◌+◌, ◌-◌, ◌≤◌, ◌<◌, ◌++◌, [], ◌∷◌, All, IfOk, OnOk, drop, length, take};
ghost use Rattle.opgen_num.specs.declared.format.TheConstants.{MAX_WIDTH};
ghost use Rattle.opgen_design.specs.Plain.{plain};
ghost use Rattle.opgen_design.specs.Value.{IsWidth};
ghost use Rattle.opgen_net.specs.declared.word_bits.WordBit.TheVariants.{Zero};
ghost use Rattle.opgen_net.specs.Grown.{HasGrown};
ghost use Rattle.opgen_net.specs.Valid.{IsValid, widths};
ghost use Rattle.opgen_net.specs.WordRule.{IsThere};
ghost use Rattle.opgen_pieces.specs.Law.{AppendsNarrow, AreOperands, HasSum, PassesNoMore};
ghost use Rattle.opgen_pieces.specs.Recipe.{followed, is_passed, operator, partner, passed_bit, passed_bits, sum_tree, summed, with_piece, with_pieces, with_places, with_sum};

use crate::operand::expression;
use opgen_list::Items;
use opgen_net::{Class, Expr, Net, Op, WordBit, push_bits};
use opgen_num::Memory;
use std::alloc::{AllocError, Global};

/// Two words of the same width, by their bits from the highest down: they are added, or the second is taken off the first.
#[derive(Clone, Copy)]
pub struct Sum<'a> {
    pub first: &'a [WordBit],
    pub second: &'a [WordBit],
    pub is_minus: bool,
}

fn operator(is_minus: bool) -> Op
    ensures { result ≡ operator is_minus }
{
    if is_minus { Op::Minus } else { Op::Plus }
}

// What a carry meets a place below a piece's own places.
fn partner(is_minus: bool) -> WordBit
    ensures { result ≡ partner is_minus }
{
    if is_minus {
        WordBit::Zero
    } else {
        WordBit::One
    }
}

// Appends further bits.
fn push_all(bits: &mut Items<WordBit>, more: &[WordBit]) -> Result<(), AllocError>
    ensures { OnOk result (bits.new ≡ bits.old ++ more.now) }
{
    'more: for bit in more {
        bits.push(*bit)?;
    }
    Ok(())
}

// The low part of a word, with a 0 above it.
fn low_part(alloc: Global, word: &[WordBit], above: usize) -> Result<Items<WordBit>, AllocError>
    requires { above ≤ length word.now }
    ensures { IfOk result (λ bits. bits ≡ Zero ∷ drop above word.now) }
{
    let mut bits = Items::new(alloc);
    bits.push(WordBit::Zero)?;
    push_all(&mut bits, &word[above..])?;
    Ok(bits)
}

// The high part of a word, with a bit below it.
fn high_part(
    alloc: Global,
    word: &[WordBit],
    above: usize,
    below: WordBit,
) -> Result<Items<WordBit>, AllocError>
    requires { above ≤ length word.now }
    ensures { IfOk result (λ bits. bits ≡ take above word.now ++ below ∷ []) }
{
    let mut bits = Items::new(alloc);
    push_all(&mut bits, &word[..above])?;
    bits.push(below)?;
    Ok(bits)
}

// The bits of two parts of a sum, without the place of the carry that each of them has.
fn joined(
    alloc: Global,
    high: &[WordBit],
    low: &[WordBit],
    above: usize,
) -> Result<Items<WordBit>, AllocError>
    requires high { above ≤ length high.now }
    requires low { 1 ≤ length low.now }
    ensures { IfOk result (λ bits. bits ≡ take above high.now ++ drop 1 low.now) }
{
    let mut bits = Items::new(alloc);
    push_all(&mut bits, &high[..above])?;
    push_all(&mut bits, &low[1..])?;
    Ok(bits)
}

// The sum as one expression.
fn expression_of(alloc: Global, net: &Net, sum: Sum<'_>) -> Result<Expr, AllocError>
    requires valid { IsValid net.now }
    requires operands { AreOperands net.now sum.first.now sum.second.now }
    ensures { IfOk result (λ e. plain e ≡ sum_tree (widths net.now.nodes) sum.entry.is_minus sum.entry.first.now sum.entry.second.now) }
{
    let mut operands = Vec::new(alloc);
    operands.push(expression(alloc, net, sum.first)?)?;
    operands.push(expression(alloc, net, sum.second)?)?;
    Ok(Expr::Chain(operator(sum.is_minus), operands))
}

// Appends one node of the sum, and answers its bits.
fn add_piece(alloc: Global, net: &mut Net, sum: Sum<'_>) -> Result<Items<WordBit>, Memory>
    requires valid { IsValid net.old }
    requires operands { AreOperands net.old sum.first.now sum.second.now }
    ensures ok { OnOk result (net.new ≡ (with_piece sum.entry.is_minus sum.entry.first.now sum.entry.second.now net.old).net) }
    ensures bits { IfOk result (λ bits. bits ≡ (with_piece sum.entry.is_minus sum.entry.first.now sum.entry.second.now net.old).bits) }
    ensures valid { IsValid net.new }
{
    let width = sum.first.len() as u32;
    let node = net.cells(Class::Add, width, expression_of(alloc, net, sum)?)?;
    let mut bits = Items::new(alloc);
    push_bits(&mut bits, node, 0, width)?;
    Ok(bits)
}

// Appends the pieces of the sum, from the lowest up, and answers the bits of the result.
fn add_pieces(
    alloc: Global,
    net: &mut Net,
    sum: Sum<'_>,
    most: usize,
) -> Result<Items<WordBit>, Memory>
    requires valid { IsValid net.old }
    requires most { (4 ≤ most) × (most ≤ MAX_WIDTH) }
    requires operands { AreOperands net.old sum.first.now sum.second.now }
    ensures ok { OnOk result (net.new ≡ (with_pieces (followed most (length sum.entry.first.now)) most sum.entry.is_minus
        sum.entry.first.now sum.entry.second.now net.old).net) }
    ensures bits { IfOk result (λ bits. bits ≡ (with_pieces (followed most (length sum.entry.first.now)) most sum.entry.is_minus
        sum.entry.first.now sum.entry.second.now net.old).bits) }
    ensures valid { IsValid net.new }
{
    let is_minus = sum.is_minus;
    if sum.first.len() <= most {
        return add_piece(alloc, net, sum);
    }
    let above = sum.first.len() - (most - 1);
    let first = low_part(alloc, sum.first, above)?;
    let second = low_part(alloc, sum.second, above)?;
    let lowest = Sum {
        first: first.as_slice(),
        second: second.as_slice(),
        is_minus,
    };
    let low = add_piece(alloc, net, lowest)?;
    let carry = *low.get(0);
    let first = high_part(alloc, sum.first, above, partner(is_minus))?;
    let second = high_part(alloc, sum.second, above, carry)?;
    let further = Sum {
        first: first.as_slice(),
        second: second.as_slice(),
        is_minus,
    };
    let high = add_pieces(alloc, net, further, most)?;
    Ok(joined(alloc, high.as_slice(), low.as_slice(), above)?)
}

// Whether 0 is added or taken off at a place.
fn is_passed(is_minus: bool, first: WordBit, second: WordBit) -> bool
    ensures { result ≡ is_passed is_minus first second }
{
    match (first, second) {
        (_, WordBit::Zero) => true,
        (WordBit::Zero, _) => !is_minus,
        _ => false,
    }
}

// The bit of the result at such a place.
fn passed_bit(first: WordBit, second: WordBit) -> WordBit
    ensures { result ≡ passed_bit first second }
{
    match second {
        WordBit::Zero => first,
        WordBit::One | WordBit::Of { .. } => second,
    }
}

// How many places need a sum: all but the lowest ones, up to the first at which no 0 is added or taken off.
fn summed(is_minus: bool, first: &[WordBit], second: &[WordBit]) -> usize
    requires { length second.now ≡ length first.now }
    ensures { result ≡ summed is_minus first.now second.now }
{
    let mut left = first.len();
    'passed: while left > 0 {
        if !is_passed(is_minus, first[left - 1], second[left - 1]) {
            return left;
        }
        left -= 1;
    }
    0
}

// Appends the pieces of the places that need a sum, if there are any.
fn add_places(
    alloc: Global,
    net: &mut Net,
    sum: Sum<'_>,
    left: usize,
    most: usize,
) -> Result<Items<WordBit>, Memory>
    requires valid { IsValid net.old }
    requires most { (4 ≤ most) × (most ≤ MAX_WIDTH) }
    requires operands { AreOperands net.old sum.first.now sum.second.now }
    requires left { left ≤ length sum.first.now }
    ensures ok { OnOk result (net.new ≡ (with_places most sum.entry.is_minus
        (take left sum.entry.first.now) (take left sum.entry.second.now) net.old).net) }
    ensures bits { IfOk result (λ bits. bits ≡ (with_places most sum.entry.is_minus
        (take left sum.entry.first.now) (take left sum.entry.second.now) net.old).bits) }
    ensures valid { IsValid net.new }
{
    if left == 0 {
        return Ok(Items::new(alloc));
    }
    let places = Sum {
        first: &sum.first[..left],
        second: &sum.second[..left],
        is_minus: sum.is_minus,
    };
    add_pieces(alloc, net, places, most)
}

// Appends the bits of the places below, which are passed on.
fn push_passed(
    bits: &mut Items<WordBit>,
    first: &[WordBit],
    second: &[WordBit],
    left: usize,
) -> Result<(), AllocError>
    requires { length second.now ≡ length first.now }
    ensures { OnOk result (bits.new ≡ bits.old ++ passed_bits (drop left first.now) (drop left second.now)) }
{
    'places: for place in left..first.len() {
        bits.push(passed_bit(first[place], second[place]))?;
    }
    Ok(())
}

/// Appends the sum or the difference of two words, and answers its bits from the highest down, as many as each word has.
///
/// The lowest places at which 0 is added or taken off get no node: the result has the other word's bits there. The places
/// above are one node if they are at most `most`. Otherwise they are nodes of at most `most` bits, each of which takes the
/// carry or the borrow of the one below it. If memory runs out, the net is valid and may have some of the nodes.
pub fn add_in_pieces(
    alloc: Global,
    net: &mut Net,
    sum: Sum<'_>,
    most: u32,
) -> Result<Items<WordBit>, Memory>
    requires valid { IsValid net.old }
    requires most { (4 ≤ most) × (most ≤ MAX_WIDTH) }
    requires width { IsWidth (length sum.first.now) }
    requires alike { length sum.second.now ≡ length sum.first.now }
    requires first_there { All (IsThere (widths net.old.nodes)) sum.first.now }
    requires second_there { All (IsThere (widths net.old.nodes)) sum.second.now }
    ensures ok { OnOk result (net.new ≡ (with_sum most sum.entry.is_minus sum.entry.first.now sum.entry.second.now net.old).net) }
    ensures bits { IfOk result (λ bits. bits ≡ (with_sum most sum.entry.is_minus sum.entry.first.now sum.entry.second.now net.old).bits) }
    ensures valid { IsValid net.new }
    ensures grown { OnOk result (HasGrown net.old net.new) }
    ensures there { IfOk result (λ bits. All (IsThere (widths net.new.nodes)) bits) }
    ensures width { IfOk result (λ bits. length bits ≡ length sum.entry.first.now) }
    ensures sum { IfOk result (λ bits. HasSum sum.entry.is_minus sum.entry.first.now sum.entry.second.now net.old bits net.new) }
    ensures narrow { OnOk result (AppendsNarrow most net.old net.new) }
    ensures delays { IfOk result (λ bits. PassesNoMore sum.entry.first.now sum.entry.second.now net.old bits net.new) }
{
    let left = summed(sum.is_minus, sum.first, sum.second);
    let mut bits = add_places(alloc, net, sum, left, most as usize)?;
    push_passed(&mut bits, sum.first, sum.second, left)?;
    Ok(bits)
}
