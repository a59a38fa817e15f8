//! Reads the heads and ends of an entity and its architecture, and the declarations of ports and signals.

ghost use Rattle.std.specs.Prelude.{◌≡◌, IfOk, IsTrue, map, option_map, replicate, false};
ghost use Rattle.std.specs.Char.{to_ascii_lowercase};
ghost use Rattle.opgen_names.specs.Names.{is_allowed_name};
ghost use Rattle.opgen_vhdl.specs.Reader.{phrase_at, clock_port, entity_at, direction_at, width_at, port_at, own_name_at, unit_end_at, heading_at, others_zero, initial_value_at, initial_at, signal_at};
ghost use Rattle.opgen_lex.specs.Left.{left};
ghost use Rattle.opgen_read.specs.Gives.{Gives};

use crate::name::name;
use crate::refusal::Refusal;
use crate::required::{mark, word};
use opgen_design::{Dir, Port, Signal};
use opgen_lex::{Cursor, Phrase};
use opgen_list::Text;
use opgen_num::Word;
use opgen_vhdl::TokenKind;
use std::alloc::Global;

// The port of the clock, and the piece is over.
fn clock_port(rest: Cursor<'_>) -> Option<Cursor<'_>>
    ensures { option_map left result ≡ phrase_at clock_port (left rest.entry) }
{
    Phrase::new(rest)
        .word("is")
        .word("port")
        .mark(TokenKind::LeftParen)
        .word("clk")
        .mark(TokenKind::Colon)
        .word("in")
        .word("std_logic")
        .end()
}

/// The name of an entity, from a piece that is its head.
#[tactic(auto, unfolding(opgen_vhdl::specs::Reader::entity_at, opgen_vhdl::specs::Reader::and_then))]
pub fn entity(alloc: Global, piece: Cursor<'_>) -> Result<Text, Refusal>
    ensures { Gives (λ x. x) result (entity_at (left piece.entry)) }
{
    let rest = word(piece, "entity")?;
    let (name, rest) = name(alloc, None, rest)?;
    match clock_port(rest) {
        Some(_end) => Ok(name),
        None => Err(Refusal::Refused),
    }
}

#[tactic(auto, unfolding(opgen_vhdl::specs::Reader::direction_at, opgen_vhdl::specs::Reader::and_then, opgen_vhdl::specs::Reader::choice))]
fn direction(rest: Cursor<'_>) -> Option<(Dir, Cursor<'_>)>
    ensures { option_map (λ x. (x.0, left x.1)) result ≡ direction_at (left rest.entry) }
{
    match rest.word("in") {
        Some(rest) => Some((Dir::In, rest)),
        None => {
            let rest = rest.word("out")?;
            Some((Dir::Out, rest))
        }
    }
}

// The width of a range that ends at 0.
#[tactic(auto, unfolding(opgen_vhdl::specs::Reader::width_at, opgen_vhdl::specs::Reader::and_then))]
fn width(rest: Cursor<'_>) -> Option<(u32, Cursor<'_>)>
    ensures { option_map (λ x. (x.0, left x.1)) result ≡ width_at (left rest.entry) }
{
    let rest = rest.mark(TokenKind::LeftParen)?;
    let (high, rest) = rest.index()?;
    let rest = rest.word("downto")?.zero()?.mark(TokenKind::RightParen)?;
    Some((high + 1, rest))
}

/// A port, and what is left behind it.
#[tactic(auto, unfolding(opgen_vhdl::specs::Reader::port_at, opgen_vhdl::specs::Reader::and_then))]
pub fn port<'a>(alloc: Global, rest: Cursor<'a>) -> Result<(Port, Cursor<'a>), Refusal>
    ensures value { Gives (λ x. (x.0, left x.1)) result (port_at (left rest.entry)) }
    ensures allowed { IfOk result (λ x. IsTrue (is_allowed_name x.0.name)) }
{
    let (name, rest) = name(alloc, None, rest)?;
    let rest = mark(rest, TokenKind::Colon)?;
    let (dir, rest) = direction(rest).ok_or(Refusal::Refused)?;
    let rest = word(rest, "std_logic_vector")?;
    let (width, rest) = width(rest).ok_or(Refusal::Refused)?;
    Ok((Port { name, dir, width }, rest))
}

// The name of a unit at its end, where it is written.
#[tactic(auto, unfolding(opgen_vhdl::specs::Reader::own_name_at, opgen_vhdl::specs::Reader::and_then, opgen_vhdl::specs::Reader::choice))]
fn own_name(alloc: Global, rest: Cursor<'_>) -> Result<Option<Text>, Refusal>
    ensures { Gives (λ x. x) result (own_name_at (left rest.entry)) }
{
    match name(alloc, None, rest) {
        Ok((name, rest)) => match rest.end() {
            Some(_end) => Ok(Some(name)),
            None => Err(Refusal::Refused),
        },
        Err(Refusal::Memory) => Err(Refusal::Memory),
        Err(Refusal::Refused) => match rest.end() {
            Some(_end) => Ok(None),
            None => Err(Refusal::Refused),
        },
    }
}

/// The name of a unit of this kind at its end, behind `end`.
#[tactic(auto, unfolding(opgen_vhdl::specs::Reader::unit_end_at, opgen_vhdl::specs::Reader::choice))]
pub fn unit_end(alloc: Global, unit: &str, rest: Cursor<'_>) -> Result<Option<Text>, Refusal>
    ensures { Gives (λ x. x) result (unit_end_at (map to_ascii_lowercase unit.now) (left rest.entry)) }
{
    match rest.word(unit) {
        Some(rest) => own_name(alloc, rest),
        None => own_name(alloc, rest),
    }
}

/// The name of an architecture, that of its entity, and what is left behind them.
#[tactic(auto, unfolding(opgen_vhdl::specs::Reader::heading_at, opgen_vhdl::specs::Reader::and_then))]
pub fn heading<'a>(alloc: Global, piece: Cursor<'a>) -> Result<(Text, Text, Cursor<'a>), Refusal>
    ensures { Gives (λ x. ((x.0, x.1), left x.2)) result (heading_at (left piece.entry)) }
{
    let rest = word(piece, "architecture")?;
    let (own, rest) = name(alloc, None, rest)?;
    let rest = word(rest, "of")?;
    let (entity, rest) = name(alloc, None, rest)?;
    let rest = word(rest, "is")?;
    Ok((own, entity, rest))
}

// Zeros for all bits, behind the opening parenthesis, and the piece is over.
fn others_zero(rest: Cursor<'_>) -> Option<Cursor<'_>>
    ensures { option_map left result ≡ phrase_at others_zero (left rest.entry) }
{
    Phrase::new(rest)
        .word("others")
        .mark(TokenKind::Arrow)
        .mark(TokenKind::ZeroChar)
        .mark(TokenKind::RightParen)
        .end()
}

// The word of zeros of a width.
fn zeros(width: u32) -> Word
    ensures { result ≡ replicate width false }
{
    Word::new(0, width)
}

// An initial value behind `:=`.
#[tactic(auto, unfolding(opgen_vhdl::specs::Reader::initial_value_at, opgen_vhdl::specs::Reader::and_then, opgen_vhdl::specs::Reader::choice))]
fn initial_value(width: u32, rest: Cursor<'_>) -> Option<Word>
    ensures { result ≡ initial_value_at width (left rest.entry) }
{
    match rest.mark(TokenKind::LeftParen) {
        None => match rest.string() {
            None => None,
            Some((word, rest)) => {
                let _end = rest.end()?;
                Some(word)
            }
        },
        Some(rest) => {
            let _end = others_zero(rest)?;
            Some(zeros(width))
        }
    }
}

#[tactic(auto, unfolding(opgen_vhdl::specs::Reader::initial_at, opgen_vhdl::specs::Reader::and_then, opgen_vhdl::specs::Reader::choice))]
fn initial(width: u32, rest: Cursor<'_>) -> Option<Option<Word>>
    ensures { result ≡ initial_at width (left rest.entry) }
{
    match rest.mark(TokenKind::Becomes) {
        None => {
            let _end = rest.end()?;
            Some(None)
        }
        Some(rest) => {
            let word = initial_value(width, rest)?;
            Some(Some(word))
        }
    }
}

/// A signal, from a piece that declares it.
#[tactic(auto, unfolding(opgen_vhdl::specs::Reader::signal_at, opgen_vhdl::specs::Reader::and_then))]
pub fn signal(alloc: Global, piece: Cursor<'_>) -> Result<Signal, Refusal>
    ensures value { Gives (λ x. x) result (signal_at (left piece.entry)) }
    ensures allowed { IfOk result (λ x. IsTrue (is_allowed_name x.name)) }
{
    let rest = word(piece, "signal")?;
    let (name, rest) = name(alloc, None, rest)?;
    let rest = mark(rest, TokenKind::Colon)?;
    let rest = word(rest, "unsigned")?;
    let (width, rest) = width(rest).ok_or(Refusal::Refused)?;
    let initial = initial(width, rest).ok_or(Refusal::Refused)?;
    Ok(Signal {
        name,
        width,
        initial,
    })
}
