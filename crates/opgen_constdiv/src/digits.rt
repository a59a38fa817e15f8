//! Splits the input into digits, and divides them one after another from the highest, each with the remainder so far.
ghost use Rattle.std.specs.Prelude.{◌≡◌, ◌+◌, ◌*◌, ◌≤◌, ◌<◌, ◌++◌, ◌-◌, All, IfOk, OnOk, length, take, drop, slice_index, []};
ghost use Rattle.opgen_num.specs.declared.format.TheConstants.{MAX_WIDTH};
ghost use Rattle.opgen_net.specs.Valid.{IsValid, widths};
ghost use Rattle.opgen_net.specs.WordRule.{IsThere};
ghost use Rattle.opgen_constdiv.specs.Rows.{IsSmall};
ghost use Rattle.opgen_design.specs.Value.{IsWidth};
ghost use Rattle.opgen_constdiv.specs.Steps.{IsInput, HoldsAfterEachDigit};
ghost use Rattle.opgen_constdiv.specs.Recipe.{with_input, digit_number as digit_number_of, dividend as dividend_of, so_far, divided, after, with_results, net_of};

use crate::rows::{digit_width, rest_width, rows};
use opgen_list::Items;
use opgen_net::{Net, Slice, WordBit, push_bits, push_zeros};
use opgen_num::Memory;
use std::alloc::{AllocError, Global};

/// The bits of a quotient so far and of the remainder, each from the highest, and the last table.
#[derive(Drop)]
pub struct Division {
    pub quotient: Items<WordBit>,
    pub rest: Items<WordBit>,
    pub table: usize,
}

// How many digits have all bits of the input.
fn digit_number(width: u32, divisor: u32) -> u32
    requires small { IsSmall divisor }
    requires width { width ≤ MAX_WIDTH }
    ensures value { result ≡ digit_number_of width divisor }
    ensures few { result ≤ 100 }
{
    let digit = digit_width(divisor);
    (width + (digit - 1)) / digit
}

// The bits of all digits from the highest: those of the input, with zeros above them.
fn dividend(alloc: Global, width: u32, divisor: u32) -> Result<Items<WordBit>, AllocError>
    requires small { IsSmall divisor }
    requires width { width ≤ MAX_WIDTH }
    ensures { IfOk result (λ bits. bits ≡ dividend_of width divisor) }
{
    let mut bits = Items::new(alloc);
    let all = digit_number(width, divisor) * digit_width(divisor);
    push_zeros(&mut bits, all.saturating_sub(width))?;
    push_bits(&mut bits, 0, 0, width)?;
    Ok(bits)
}

// A digit more: a table on the remainder above the digit.
fn divide_digit(
    alloc: Global,
    divisor: u32,
    digit: &[WordBit],
    division: &mut Division,
    net: &mut Net,
) -> Result<(), Memory>
    requires small { IsSmall divisor }
    requires net { IsValid net.old }
    requires there { All (IsThere (widths net.old.nodes)) (division.old.rest ++ digit.now) }
    requires six { length (division.old.rest ++ digit.now) ≡ 6 }
    ensures ok { OnOk result (divided divisor digit.now (so_far net.old division.old) ≡ so_far net.new division.new) }
    ensures valid { IsValid net.new }
{
    let mut bits = Vec::new(alloc);
    bits.extend_from_slice(division.rest.as_slice())?;
    bits.extend_from_slice(digit)?;
    let address = net.word(&bits)?;
    division.table = net.table(address, rows(alloc, divisor)?)?;
    let rest = rest_width(divisor);
    push_bits(
        &mut division.quotient,
        division.table,
        rest,
        digit_width(divisor),
    )?;
    division.rest = Items::new(alloc);
    push_bits(&mut division.rest, division.table, 0, rest)?;
    Ok(())
}

// Digit `place` of those of a width.
fn digit_at(bits: &[WordBit], place: usize, width: usize) -> &[WordBit]
    requires place { place ≤ 100 }
    requires width { width ≤ 5 }
    requires there { place * width + width ≤ length bits.now }
    ensures { result.now ≡ take width (drop (place * width) bits.now) }
{
    &bits[place * width..place * width + width]
}

// Divides all digits, from the highest.
fn divide_digits(alloc: Global, width: u32, divisor: u32, net: &mut Net) -> Result<Division, Memory>
    requires input { IsInput width }
    requires small { IsSmall divisor }
    requires net { net.old ≡ with_input width }
    ensures ok { IfOk result (λ d. after width divisor (digit_number_of width divisor) ≡ so_far net.new d) }
    ensures valid { IfOk result (λ d. IsValid net.new) }
{
    let mut division = Division {
        quotient: Items::new(alloc),
        rest: Items::new(alloc),
        table: 0,
    };
    push_zeros(&mut division.rest, rest_width(divisor))?;
    let bits = dividend(alloc, width, divisor)?;
    let digit = digit_width(divisor) as usize;
    'digits: for k in 0..digit_number(width, divisor) as usize {
        let digit = digit_at(bits.as_slice(), k, digit);
        divide_digit(alloc, divisor, digit, &mut division, net)?;
    }
    Ok(division)
}

// The lowest bits of the quotient, so many.
fn lowest(quotient: &[WordBit], width: usize) -> &[WordBit]
    requires { width ≤ length quotient.now }
    ensures { result.now ≡ drop (length quotient.now - width) quotient.now }
{
    &quotient[quotient.len() - width..]
}

// The lowest bits of the quotient as the output `q`, and where it is exact the remainder as the output `r`.
fn output_results(
    width: u32,
    divisor: u32,
    exact: bool,
    division: &Division,
    net: &mut Net,
) -> Result<(), Memory>
    requires small { IsSmall divisor }
    requires net { IsValid net.old }
    requires enough { width ≤ length division.now.quotient }
    requires wide { IsWidth width }
    requires there { All (IsThere (widths net.old.nodes)) division.now.quotient }
    requires table { slice_index (widths net.old.nodes) division.now.table ≡ 6 }
    ensures ok { OnOk result (net.new ≡ with_results exact width divisor (so_far net.old division.now)) }
    ensures valid { IsValid net.new }
{
    let bits = lowest(division.quotient.as_slice(), width as usize);
    let node = net.word(bits)?;
    let high = bits.len() as u32 - 1;
    net.output("q", Slice { node, high, low: 0 })?;
    if exact {
        let rest = Slice {
            node: division.table,
            high: rest_width(divisor) - 1,
            low: 0,
        };
        net.output("r", rest)?;
    }
    Ok(())
}

/// The net of a division of an input of a width by a small constant.
pub fn division_net(alloc: Global, width: u32, divisor: u32, exact: bool) -> Result<Net, Memory>
    requires input { IsInput width }
    requires small { IsSmall divisor }
    ensures net { IfOk result (λ net. net ≡ net_of exact width divisor) }
    ensures digits { IfOk result (HoldsAfterEachDigit width divisor) }
    ensures valid { IfOk result IsValid }
{
    let mut net = Net::new(alloc);
    let _x = net.input("x", width)?;
    let division = divide_digits(alloc, width, divisor, &mut net)?;
    output_results(width, divisor, exact, &division, &mut net)?;
    Ok(net)
}
