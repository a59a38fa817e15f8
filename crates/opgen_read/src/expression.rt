//! Reads expressions by recursive descent.

ghost use Rattle.std.specs.Prelude.{◌≡◌, is_some, option_map};
ghost use Rattle.opgen_design.specs.Plain.{plain, plain_all};
ghost use Rattle.opgen_design.specs.Tree.{chain};
ghost use Rattle.opgen_vhdl.specs.Grammar.{operator};
ghost use Rattle.opgen_vhdl.specs.Reader.{eat, range_at, part_at, input_at, closed, op_at, primary_at, factor_at, expression_at, expression, inside};
ghost use Rattle.opgen_lex.specs.Left.{left};
ghost use Rattle.opgen_read.specs.Gives.{Gives};
ghost use Rattle.opgen_read.specs.Names.{names_in, further_at};

use crate::declared::Declared;
use crate::name::{name, signal_place};
use crate::refusal::Refusal;
use crate::required::mark;
use opgen_design::{Expr, Op, Port, Signal, Slice};
use opgen_lex::Cursor;
use opgen_vhdl::TokenKind;
use std::alloc::Global;

/// What names stand for.
#[derive(Clone, Copy)]
pub struct Scope<'n> {
    pub signals: &'n Declared<Signal>,
    pub ports: &'n Declared<Port>,
}

impl Scope<'_> {
    ghost use Rattle.std.specs.Prelude.{IsTrue};
    ghost use Rattle.opgen_names.specs.Names.{is_allowed_name};

    /// Whether a signal or a port has this name, which is allowed then.
    pub fn has(self, name: &str) -> bool
        ensures { IsTrue result → IsTrue (is_allowed_name name.now) }
    {
        self.signals.has(name) || self.ports.has(name)
    }
}

type Read<'a, T> = Result<(T, Cursor<'a>), Refusal>;

// The highest and the lowest bit of a part, behind its opening parenthesis.
#[tactic(auto, unfolding(opgen_vhdl::specs::Reader::range_at, opgen_vhdl::specs::Reader::and_then))]
fn range(rest: Cursor<'_>) -> Option<(u32, u32, Cursor<'_>)>
    ensures { option_map (λ x. ((x.0, x.1), left x.2)) result ≡ range_at (left rest.entry) }
{
    let (high, rest) = rest.index()?;
    let rest = rest.word("downto")?;
    let (low, rest) = rest.index()?;
    let rest = rest.mark(TokenKind::RightParen)?;
    Some((high, low, rest))
}

/// A signal, or a part of one.
#[tactic(auto, unfolding(opgen_vhdl::specs::Reader::part_at, opgen_vhdl::specs::Reader::and_then, opgen_vhdl::specs::Reader::choice))]
pub fn part<'a>(alloc: Global, scope: Scope<'_>, rest: Cursor<'a>) -> Read<'a, Expr>
    ensures { Gives (λ x. (plain x.0, left x.1)) result (part_at (names_in scope.entry) (left rest.entry)) }
{
    let (node, rest) = signal_place(alloc, scope, rest)?;
    match rest.mark(TokenKind::LeftParen) {
        None => Ok((Expr::Name(node), rest)),
        Some(rest) => match range(rest) {
            None => Err(Refusal::Refused),
            Some((high, low, rest)) => Ok((Expr::Part(Slice { node, high, low }), rest)),
        },
    }
}

// A port, behind `unsigned`.
#[tactic(auto, unfolding(opgen_vhdl::specs::Reader::input_at, opgen_vhdl::specs::Reader::and_then))]
fn input<'a>(alloc: Global, scope: Scope<'_>, rest: Cursor<'a>) -> Read<'a, Expr>
    ensures { Gives (λ x. (plain x.0, left x.1)) result (input_at (names_in scope.entry) (left rest.entry)) }
{
    let rest = mark(rest, TokenKind::LeftParen)?;
    let (name, rest) = name(alloc, Some(scope), rest)?;
    let rest = mark(rest, TokenKind::RightParen)?;
    Ok((Expr::Port(scope.ports.place(name.as_str())), rest))
}

// What is left behind an operator.
fn behind(rest: Cursor<'_>, op: Op) -> Option<Cursor<'_>>
    ensures { option_map left result ≡ eat (operator op) (left rest.entry) }
{
    match op {
        Op::And => rest.word("and"),
        Op::Or => rest.word("or"),
        Op::Xor => rest.word("xor"),
        Op::Cat => rest.mark(TokenKind::Ampersand),
        Op::Plus => rest.mark(TokenKind::Plus),
        Op::Minus => rest.mark(TokenKind::Minus),
    }
}

// Whether this operator is at the front.
fn is_at(rest: Cursor<'_>, op: Op) -> bool
    ensures { result ≡ is_some (eat (operator op) (left rest.entry)) }
{
    behind(rest, op).is_some()
}

// The operator at the front.
#[tactic(auto, unfolding(opgen_vhdl::specs::Reader::op_at))]
fn operator(rest: Cursor<'_>) -> Option<Op>
    ensures { result ≡ op_at (left rest.entry) }
{
    if is_at(rest, Op::And) {
        Some(Op::And)
    } else if is_at(rest, Op::Or) {
        Some(Op::Or)
    } else if is_at(rest, Op::Xor) {
        Some(Op::Xor)
    } else if is_at(rest, Op::Cat) {
        Some(Op::Cat)
    } else if is_at(rest, Op::Plus) {
        Some(Op::Plus)
    } else if is_at(rest, Op::Minus) {
        Some(Op::Minus)
    } else {
        None
    }
}

fn chain(op: Op, operands: Vec<Expr>) -> Expr
    ensures { plain result ≡ chain op (plain_all operands.items) }
{
    Expr::Chain(op, operands)
}

/// The expression at the front, with parentheses at most `depth` deep.
#[cycle(expression)]
#[tactic(auto, unfolding(opgen_vhdl::specs::Reader::expression_at, opgen_vhdl::specs::Reader::and_then, opgen_vhdl::specs::Reader::choice))]
pub fn expression<'a>(
    alloc: Global,
    scope: Scope<'_>,
    depth: u32,
    rest: Cursor<'a>,
) -> Read<'a, Expr>
    ensures { Gives (λ x. (plain x.0, left x.1)) result (expression (names_in scope.entry) depth (left rest.entry)) }
{
    let (first, rest) = factor(alloc, scope, depth, rest)?;
    match operator(rest) {
        None => Ok((first, rest)),
        Some(op) => {
            let mut operands = Vec::new(alloc);
            operands.push(first)?;
            let (operands, rest) = further(alloc, scope, depth, op, operands, rest)?;
            Ok((chain(op, operands), rest))
        }
    }
}

// The operands of a chain, where the first stand already.
#[cycle(expression)]
fn further<'a>(
    alloc: Global,
    scope: Scope<'_>,
    depth: u32,
    op: Op,
    operands: Vec<Expr>,
    rest: Cursor<'a>,
) -> Read<'a, Vec<Expr>>
    ensures { Gives (λ x. (plain_all x.0.items, left x.1)) result
        (further_at operands.items scope.entry depth op (left rest.entry)) }
{
    let mut operands = operands;
    let mut rest = rest;
    'operands: while let Some(after) = behind(rest, op) {
        let (operand, more) = factor(alloc, scope, depth, after)?;
        operands.push(operand)?;
        rest = more;
    }
    operands.shrink_to_fit();
    Ok((operands, rest))
}

#[cycle(expression)]
#[tactic(auto, unfolding(opgen_vhdl::specs::Reader::factor_at, opgen_vhdl::specs::Reader::and_then, opgen_vhdl::specs::Reader::choice))]
fn factor<'a>(alloc: Global, scope: Scope<'_>, depth: u32, rest: Cursor<'a>) -> Read<'a, Expr>
    ensures { Gives (λ x. (plain x.0, left x.1)) result (factor_at (names_in scope.entry) (inside (names_in scope.entry) depth) (left rest.entry)) }
{
    match rest.word("not") {
        None => primary(alloc, scope, depth, rest),
        Some(rest) => {
            let (operand, rest) = primary(alloc, scope, depth, rest)?;
            Ok((Expr::Not(Box::new(alloc, operand)?), rest))
        }
    }
}

#[cycle(expression)]
#[tactic(auto, unfolding(opgen_vhdl::specs::Reader::primary_at, opgen_vhdl::specs::Reader::and_then, opgen_vhdl::specs::Reader::choice))]
fn primary<'a>(alloc: Global, scope: Scope<'_>, depth: u32, rest: Cursor<'a>) -> Read<'a, Expr>
    ensures { Gives (λ x. (plain x.0, left x.1)) result (primary_at (names_in scope.entry) (inside (names_in scope.entry) depth) (left rest.entry)) }
{
    if let Some(rest) = rest.mark(TokenKind::LeftParen) {
        return group(alloc, scope, depth, rest);
    }
    if let Some(rest) = rest.word("unsigned") {
        return input(alloc, scope, rest);
    }
    match rest.string() {
        Some((word, rest)) => Ok((Expr::Bits(word), rest)),
        None => part(alloc, scope, rest),
    }
}

// An expression behind its opening parenthesis.
#[cycle(expression)]
#[tactic(auto, unfolding(opgen_vhdl::specs::Reader::inside, opgen_vhdl::specs::Reader::and_then))]
fn group<'a>(alloc: Global, scope: Scope<'_>, depth: u32, rest: Cursor<'a>) -> Read<'a, Expr>
    ensures { Gives (λ x. (plain x.0, left x.1)) result (closed (inside (names_in scope.entry) depth (left rest.entry))) }
{
    if depth == 0 {
        return Err(Refusal::Refused);
    }
    let (operand, rest) = expression(alloc, scope, depth - 1, rest)?;
    let rest = mark(rest, TokenKind::RightParen)?;
    Ok((operand, rest))
}
