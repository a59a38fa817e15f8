//! Reads the statements of an architecture: assignments, choices, tables, registers and outputs.

ghost use Rattle.std.specs.Prelude.{◌≡◌, length, map, option_map};
ghost use Rattle.std.specs.Char.{to_ascii_lowercase};
ghost use Rattle.opgen_design.specs.Run.{is_one};
ghost use Rattle.opgen_design.specs.Plain.{plain};
ghost use Rattle.opgen_vhdl.specs.Reader.{row_at, other_at, rows_at, table_at, choice_at, valued_at, output_at, target_at, assignment_at, concurrent_at, clocked_at, high_at, clock, edge_at, process_at, port_high_at, enable_at, eat_all};
ghost use Rattle.opgen_lex.specs.Left.{left};
ghost use Rattle.opgen_read.specs.Gives.{Gives};
ghost use Rattle.opgen_read.specs.Names.{names_in};

use crate::expression::{Scope, expression, part};
use crate::name::{name, signal_place};
use crate::refusal::Refusal;
use crate::required::{mark, word};
use opgen_design::{Driver, Expr, Formula, MAX_NESTING};
use opgen_lex::Cursor;
use opgen_list::{Items, Text};
use opgen_num::Word;
use opgen_vhdl::TokenKind;
use std::alloc::Global;

// A row of a table, its address first, and what is left behind its comma.
#[tactic(auto, unfolding(opgen_vhdl::specs::Reader::row_at, opgen_vhdl::specs::Reader::and_then))]
fn row(rest: Cursor<'_>) -> Option<((Word, Word), Cursor<'_>)>
    ensures { option_map (λ x. (x.0, left x.1)) result ≡ row_at (left rest.entry) }
{
    match rest.string() {
        None => None,
        Some((word, rest)) => {
            let rest = rest.word("when")?;
            match rest.string() {
                None => None,
                Some((address, rest)) => {
                    let rest = rest.mark(TokenKind::Comma)?;
                    Some(((address, word), rest))
                }
            }
        }
    }
}

// The word of every other address, and the piece is over.
#[tactic(auto, unfolding(opgen_vhdl::specs::Reader::other_at, opgen_vhdl::specs::Reader::and_then))]
fn other(rest: Cursor<'_>) -> Option<Word>
    ensures { result ≡ other_at (left rest.entry) }
{
    match rest.string() {
        None => None,
        Some((word, rest)) => {
            let _end = rest.word("when")?.word("others")?.end()?;
            Some(word)
        }
    }
}

fn rows(alloc: Global, rest: Cursor<'_>) -> Result<(Items<(Word, Word)>, Word), Refusal>
    ensures { Gives (λ x. x) result (rows_at (length (left rest.entry)) (left rest.entry)) }
{
    let mut rows = Items::new(alloc);
    let mut rest = rest;
    'rows: while let Some((row, more)) = row(rest) {
        rows.push(row)?;
        rest = more;
    }
    match other(rest) {
        Some(word) => Ok((rows, word)),
        None => Err(Refusal::Refused),
    }
}

// A table behind `with`.
#[tactic(auto, unfolding(opgen_vhdl::specs::Reader::table_at, opgen_vhdl::specs::Reader::and_then))]
fn table(alloc: Global, scope: Scope<'_>, rest: Cursor<'_>) -> Result<Driver, Refusal>
    ensures { Gives (λ x. x) result (table_at (names_in scope.entry) (left rest.entry)) }
{
    let (on, rest) = part(alloc, scope, rest)?;
    let rest = word(rest, "select")?;
    let (to, rest) = signal_place(alloc, scope, rest)?;
    let rest = mark(rest, TokenKind::LessEqual)?;
    let (rows, other) = rows(alloc, rest)?;
    Ok(Driver::Table {
        to,
        on: Formula::new(on),
        rows,
        other,
    })
}

fn is_one(word: Word) -> bool
    ensures { result ≡ is_one word }
{
    word.width() == 1 && word.bits() == 1
}

// The rest of a comparison with "1", up to a word behind it.
#[tactic(auto, unfolding(opgen_vhdl::specs::Reader::high_at, opgen_vhdl::specs::Reader::and_then))]
fn high<'a>(rest: Cursor<'a>, next: &str) -> Result<Cursor<'a>, Refusal>
    ensures { Gives left result (high_at (map to_ascii_lowercase next.now) (left rest.entry)) }
{
    let rest = mark(rest, TokenKind::Equal)?;
    match rest.string() {
        Some((condition, rest)) if is_one(condition) => word(rest, next),
        _ => Err(Refusal::Refused),
    }
}

// An assignment that depends on a condition, behind `when`.
#[tactic(auto, unfolding(opgen_vhdl::specs::Reader::choice_at, opgen_vhdl::specs::Reader::and_then))]
fn choice(
    alloc: Global,
    scope: Scope<'_>,
    to: usize,
    yes: Expr,
    rest: Cursor<'_>,
) -> Result<Driver, Refusal>
    ensures { Gives (λ x. x) result (choice_at (names_in scope.entry) to (plain yes) (left rest.entry)) }
{
    let (on, rest) = part(alloc, scope, rest)?;
    let rest = high(rest, "else")?;
    let (no, rest) = expression(alloc, scope, MAX_NESTING, rest)?;
    match rest.end() {
        None => Err(Refusal::Refused),
        Some(_end) => Ok(Driver::Choice {
            to,
            on: Formula::new(on),
            yes: Formula::new(yes),
            no: Formula::new(no),
        }),
    }
}

// An assignment to a signal, behind `<=`.
#[tactic(auto, unfolding(opgen_vhdl::specs::Reader::valued_at, opgen_vhdl::specs::Reader::and_then, opgen_vhdl::specs::Reader::choice))]
fn valued(alloc: Global, scope: Scope<'_>, to: usize, rest: Cursor<'_>) -> Result<Driver, Refusal>
    ensures { Gives (λ x. x) result (valued_at (names_in scope.entry) to (left rest.entry)) }
{
    let (value, rest) = expression(alloc, scope, MAX_NESTING, rest)?;
    match rest.word("when") {
        Some(rest) => choice(alloc, scope, to, value, rest),
        None => match rest.end() {
            None => Err(Refusal::Refused),
            Some(_end) => Ok(Driver::Assign {
                to,
                expr: Formula::new(value),
            }),
        },
    }
}

// An assignment to an output, behind `std_logic_vector`.
#[tactic(auto, unfolding(opgen_vhdl::specs::Reader::output_at, opgen_vhdl::specs::Reader::and_then))]
fn output(alloc: Global, scope: Scope<'_>, port: usize, rest: Cursor<'_>) -> Result<Driver, Refusal>
    ensures { Gives (λ x. x) result (output_at (names_in scope.entry) port (left rest.entry)) }
{
    let rest = mark(rest, TokenKind::LeftParen)?;
    let (value, rest) = expression(alloc, scope, MAX_NESTING, rest)?;
    let rest = mark(rest, TokenKind::RightParen)?;
    match rest.end() {
        None => Err(Refusal::Refused),
        Some(_end) => Ok(Driver::Output {
            port,
            expr: Formula::new(value),
        }),
    }
}

// The name that is driven, and what is left behind `<=`.
#[tactic(auto, unfolding(opgen_vhdl::specs::Reader::target_at, opgen_vhdl::specs::Reader::and_then))]
fn target<'a>(
    alloc: Global,
    scope: Scope<'_>,
    rest: Cursor<'a>,
) -> Result<(Text, Cursor<'a>), Refusal>
    ensures { Gives (λ x. (x.0, left x.1)) result (target_at (left rest.entry)) }
{
    let (name, rest) = name(alloc, Some(scope), rest)?;
    let rest = mark(rest, TokenKind::LessEqual)?;
    Ok((name, rest))
}

#[tactic(auto, unfolding(opgen_vhdl::specs::Reader::assignment_at, opgen_vhdl::specs::Reader::and_then, opgen_vhdl::specs::Reader::choice))]
fn assignment(alloc: Global, scope: Scope<'_>, piece: Cursor<'_>) -> Result<Driver, Refusal>
    ensures { Gives (λ x. x) result (assignment_at (names_in scope.entry) (left piece.entry)) }
{
    let (name, rest) = target(alloc, scope, piece)?;
    match rest.word("std_logic_vector") {
        Some(rest) => output(alloc, scope, scope.ports.place(name.as_str()), rest),
        None => valued(alloc, scope, scope.signals.place(name.as_str()), rest),
    }
}

/// The driver of a statement outside the process.
#[tactic(auto, unfolding(opgen_vhdl::specs::Reader::concurrent_at, opgen_vhdl::specs::Reader::choice))]
pub fn concurrent(alloc: Global, scope: Scope<'_>, piece: Cursor<'_>) -> Result<Driver, Refusal>
    ensures { Gives (λ x. x) result (concurrent_at (names_in scope.entry) (left piece.entry)) }
{
    match piece.word("with") {
        Some(rest) => table(alloc, scope, rest),
        None => assignment(alloc, scope, piece),
    }
}

/// The driver of an assignment within the process.
#[tactic(auto, unfolding(opgen_vhdl::specs::Reader::clocked_at, opgen_vhdl::specs::Reader::target_at, opgen_vhdl::specs::Reader::and_then))]
pub fn clocked(alloc: Global, scope: Scope<'_>, piece: Cursor<'_>) -> Result<Driver, Refusal>
    ensures { Gives (λ x. x) result (clocked_at (names_in scope.entry) (left piece.entry)) }
{
    let (to, rest) = signal_place(alloc, scope, piece)?;
    let rest = mark(rest, TokenKind::LessEqual)?;
    let (value, rest) = expression(alloc, scope, MAX_NESTING, rest)?;
    match rest.end() {
        None => Err(Refusal::Refused),
        Some(_end) => Ok(Driver::Register {
            to,
            expr: Formula::new(value),
        }),
    }
}

#[tactic(auto, unfolding(opgen_vhdl::specs::Reader::and_then))]
fn clock(rest: Cursor<'_>) -> Option<Cursor<'_>>
    ensures { option_map left result ≡ eat_all clock (left rest.entry) }
{
    rest.mark(TokenKind::LeftParen)?
        .word("clk")?
        .mark(TokenKind::RightParen)
}

#[tactic(auto, unfolding(opgen_vhdl::specs::Reader::edge_at, opgen_vhdl::specs::Reader::and_then))]
fn edge(rest: Cursor<'_>) -> Option<Cursor<'_>>
    ensures { option_map left result ≡ edge_at (left rest.entry) }
{
    let rest = rest.word("begin")?.word("if")?.word("rising_edge")?;
    clock(rest)?.word("then")
}

/// What is left of the process's first piece at its enable or its first assignment, behind `process`.
#[tactic(auto, unfolding(opgen_vhdl::specs::Reader::process_at, opgen_vhdl::specs::Reader::and_then, opgen_vhdl::specs::Reader::choice))]
pub fn process(rest: Cursor<'_>) -> Option<Cursor<'_>>
    ensures { option_map left result ≡ process_at (left rest.entry) }
{
    let rest = clock(rest)?;
    match rest.word("is") {
        Some(rest) => edge(rest),
        None => edge(rest),
    }
}

// The port that enables the registers, behind `if`.
#[tactic(auto, unfolding(opgen_vhdl::specs::Reader::port_high_at, opgen_vhdl::specs::Reader::and_then))]
fn port_high<'a>(
    alloc: Global,
    scope: Scope<'_>,
    rest: Cursor<'a>,
) -> Result<(usize, Cursor<'a>), Refusal>
    ensures { Gives (λ x. (x.0, left x.1)) result (port_high_at (names_in scope.entry) (left rest.entry)) }
{
    let (name, rest) = name(alloc, Some(scope), rest)?;
    let rest = high(rest, "then")?;
    Ok((scope.ports.place(name.as_str()), rest))
}

/// The port that enables the registers, where the process has an enable, and what is left at its first assignment.
#[tactic(auto, unfolding(opgen_vhdl::specs::Reader::enable_at, opgen_vhdl::specs::Reader::and_then, opgen_vhdl::specs::Reader::choice))]
pub fn enable<'a>(
    alloc: Global,
    scope: Scope<'_>,
    rest: Cursor<'a>,
) -> Result<(Option<usize>, Cursor<'a>), Refusal>
    ensures { Gives (λ x. (x.0, left x.1)) result (enable_at (names_in scope.entry) (left rest.entry)) }
{
    match rest.word("if") {
        None => Ok((None, rest)),
        Some(rest) => {
            let (port, rest) = port_high(alloc, scope, rest)?;
            Ok((Some(port), rest))
        }
    }
}
