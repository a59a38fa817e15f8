//! Writes the text of an expression.
ghost use Rattle.std.specs.Prelude.{◌≡◌, ◌++◌, OnOk, codes, string_bytes};
ghost use Rattle.opgen_num.specs.Words.{word};
ghost use Rattle.opgen_design.specs.Plain.{plain, plain_all};
ghost use Rattle.opgen_design.specs.Value.{in_chain, in_not};
ghost use Rattle.opgen_vhdl.specs.ExpressionText.{signal_name, port_name, bit_text, bits_text, word_text, range_text};
ghost use Rattle.opgen_vhdl.specs.ExpressionText.{operator_text, within, expression_text, chain_text};

use opgen_design::{Design, Expr, Op};
use opgen_num::Word;
use std::alloc::AllocError;

// The name of a signal; no text where there is none.
pub(crate) fn signal_name<'a>(design: &'a Design, place: usize) -> &'a str
    ensures { result.now ≡ signal_name design.now place }
{
    match design.signals.as_slice().get(place) {
        Some(signal) => signal.name.as_str(),
        None => "",
    }
}

// The name of a port; no text where there is none.
pub(crate) fn port_name<'a>(design: &'a Design, place: usize) -> &'a str
    ensures { result.now ≡ port_name design.now place }
{
    match design.ports.as_slice().get(place) {
        Some(port) => port.name.as_str(),
        None => "",
    }
}

fn put_bit(out: &mut String, bit: bool) -> Result<(), AllocError>
    ensures { OnOk result (string_bytes out.new ≡ string_bytes out.old ++ bit_text bit) }
{
    out.push_str(if bit { "1" } else { "0" })
}

// The lowest bits of a number, the highest of them first.
#[tactic(auto, using(crate::proofs::Bits::bits_step))]
fn put_bits(out: &mut String, bits: u128, width: u32) -> Result<(), AllocError>
    ensures { OnOk result (string_bytes out.new ≡ string_bytes out.old ++ bits_text (word width bits)) }
{
    if width == 0 {
        return Ok(());
    }
    put_bits(out, bits / 2, width - 1)?;
    put_bit(out, bits % 2 == 1)
}

#[tactic(auto, unfolding(opgen_vhdl::specs::ExpressionText::word_text))]
pub(crate) fn put_word(out: &mut String, word: Word) -> Result<(), AllocError>
    ensures { OnOk result (string_bytes out.new ≡ string_bytes out.old ++ word_text word) }
{
    out.push_str("\"")?;
    put_bits(out, word.bits(), word.width())?;
    out.push_str("\"")
}

#[tactic(auto, unfolding(opgen_vhdl::specs::ExpressionText::range_text))]
pub(crate) fn put_range(out: &mut String, high: u32, low: u32) -> Result<(), AllocError>
    ensures { OnOk result (string_bytes out.new ≡ string_bytes out.old ++ range_text high low) }
{
    write!(out, "({high} downto {low})")
}

fn put_part(out: &mut String, name: &str, high: u32, low: u32) -> Result<(), AllocError>
    ensures { OnOk result (string_bytes out.new ≡ string_bytes out.old ++ name.now ++ range_text high low) }
{
    out.push_str(name)?;
    put_range(out, high, low)
}

fn put_port(out: &mut String, name: &str) -> Result<(), AllocError>
    ensures { OnOk result (string_bytes out.new ≡ string_bytes out.old ++ codes "unsigned(" ++ name.now ++ codes ")") }
{
    write!(out, "unsigned({name})")
}

fn operator(op: Op) -> &'static str
    ensures { result.now ≡ operator_text op }
{
    match op {
        Op::And => " and ",
        Op::Or => " or ",
        Op::Xor => " xor ",
        Op::Cat => " & ",
        Op::Plus => " + ",
        Op::Minus => " - ",
    }
}

#[cycle(expression)]
pub(crate) fn put_expression(
    out: &mut String,
    design: &Design,
    expression: &Expr,
) -> Result<(), AllocError>
    ensures { OnOk result (string_bytes out.new ≡ string_bytes out.old ++ expression_text design.now (plain expression.now)) }
{
    match expression {
        Expr::Name(signal) => out.push_str(signal_name(design, *signal)),
        Expr::Part(part) => put_part(out, signal_name(design, part.node), part.high, part.low),
        Expr::Bits(word) => put_word(out, *word),
        Expr::Port(port) => put_port(out, port_name(design, *port)),
        Expr::Not(operand) => {
            out.push_str("not ")?;
            put_after_not(out, design, operand)
        }
        Expr::Chain(op, operands) => put_chain(out, design, *op, operands),
    }
}

// The operand of `not`.
#[cycle(expression)]
fn put_after_not(out: &mut String, design: &Design, operand: &Expr) -> Result<(), AllocError>
    ensures { let text = within (in_not (plain operand.now)) (expression_text design.now (plain operand.now)) in
        OnOk result (string_bytes out.new ≡ string_bytes out.old ++ text) }
{
    match operand {
        Expr::Not(_) | Expr::Chain(_, _) => {
            out.push_str("(")?;
            put_expression(out, design, operand)?;
            out.push_str(")")
        }
        _ => put_expression(out, design, operand),
    }
}

// An operand of a chain.
#[cycle(expression)]
fn put_operand(out: &mut String, design: &Design, operand: &Expr) -> Result<(), AllocError>
    ensures { let text = within (in_chain (plain operand.now)) (expression_text design.now (plain operand.now)) in
        OnOk result (string_bytes out.new ≡ string_bytes out.old ++ text) }
{
    match operand {
        Expr::Chain(_, _) => {
            out.push_str("(")?;
            put_expression(out, design, operand)?;
            out.push_str(")")
        }
        _ => put_expression(out, design, operand),
    }
}

#[cycle(expression)]
fn put_chain(out: &mut String, design: &Design, op: Op, operands: &[Expr]) -> Result<(), AllocError>
    ensures { OnOk result (string_bytes out.new ≡ string_bytes out.old ++ chain_text design.now op (plain_all operands.now)) }
{
    match operands {
        [] => Ok(()),
        [first, rest @ ..] => {
            put_operand(out, design, first)?;
            'further: for operand in rest {
                out.push_str(operator(op))?;
                put_operand(out, design, operand)?;
            }
            Ok(())
        }
    }
}
