//! Evaluates an expression over a word for each signal and each port.
ghost use Rattle.std.specs.Prelude.{◌≡◌, ◌<◌, IsSome, length};
ghost use Rattle.opgen_design.specs.Plain.{plain, plain_all};
ghost use Rattle.opgen_design.specs.Value.{value, chain_value, word_at, chain_width};
ghost use Rattle.opgen_runs.specs.Fitting.{AreNarrow, Fits, scope_of, widths_of};

use crate::words::{combined, cut, turned};
use opgen_design::{Expr, Op};
use opgen_num::Word;

fn word_at(words: &[Word], place: usize) -> Word
    requires { place < length words.now }
    ensures { result ≡ word_at words.now place }
{
    words[place]
}

/// The value of an expression over a word for each signal and for each port.
#[cycle(value)]
pub fn value(expr: &Expr, names: &[Word], ports: &[Word]) -> Word
    requires narrow { AreNarrow names.now }
    requires fits { Fits names.now ports.now (plain expr.now) }
    ensures { result ≡ value (scope_of names.now ports.now) (plain expr.now) }
{
    match expr {
        Expr::Name(signal) => word_at(names, *signal),
        Expr::Part(slice) => cut(slice.high, slice.low, word_at(names, slice.node)),
        Expr::Bits(word) => *word,
        Expr::Port(place) => word_at(ports, *place),
        Expr::Not(operand) => turned(value(operand, names, ports)),
        Expr::Chain(op, operands) => chain_value(*op, operands, names, ports),
    }
}

#[cycle(value)]
fn chain_value(op: Op, operands: &[Expr], names: &[Word], ports: &[Word]) -> Word
    requires narrow { AreNarrow names.now }
    requires fits { IsSome (chain_width (widths_of names.now) (widths_of ports.now) op (plain_all operands.now)) }
    ensures { result ≡ chain_value (scope_of names.now ports.now) op (plain_all operands.now) }
{
    match operands {
        [] => Word::new(0, 0),
        [first, rest @ ..] => {
            let mut word = value(first, names, ports);
            for operand in rest {
                word = combined(op, word, value(operand, names, ports));
            }
            word
        }
    }
}
