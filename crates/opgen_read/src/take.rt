//! The table of places in a text: which piece each place takes, and which place comes next.

ghost use Rattle.std.specs.Prelude.{◌≡◌, ◌∷◌, [], codes, map, option_map};
ghost use Rattle.std.specs.Char.{to_ascii_lowercase};
ghost use Rattle.opgen_vhdl.specs.Reader.{phrase_at, use_clause, ports_at, statement_at, body_at, declarations_at, opening_at, behind_if, clocked_body_at, takes_at};
ghost use Rattle.opgen_vhdl.specs.Symbols.{word};
ghost use Rattle.opgen_vhdl.specs.declared.place.Place.TheVariants.{Architecture, EndEntity, Entity};
ghost use Rattle.opgen_lex.specs.Left.{left};
ghost use Rattle.opgen_read.specs.Gives.{Gives};
ghost use Rattle.opgen_read.specs.Seen.{seen};

use crate::draft::Draft;
use crate::refusal::Refusal;
use crate::required::word;
use crate::statement::{clocked, concurrent, enable, process};
use crate::unit::{entity, heading, port, signal, unit_end};
use opgen_lex::{Cursor, Phrase};
use opgen_vhdl::{Place, TokenKind};
use std::alloc::Global;

type Step = Result<Place, Refusal>;

fn library_clause(piece: Cursor<'_>) -> Option<Cursor<'_>>
    ensures { option_map left result ≡ phrase_at (word (codes "library") ∷ word (codes "ieee") ∷ []) (left piece.entry) }
{
    Phrase::new(piece).word("library").word("ieee").end()
}

fn use_clause<'a>(piece: Cursor<'a>, unit: &str) -> Option<Cursor<'a>>
    ensures { option_map left result ≡ phrase_at (use_clause (map to_ascii_lowercase unit.now)) (left piece.entry) }
{
    Phrase::new(piece)
        .word("use")
        .word("ieee")
        .mark(TokenKind::Dot)
        .word(unit)
        .mark(TokenKind::Dot)
        .word("all")
        .end()
}

fn end_process(piece: Cursor<'_>) -> Option<Cursor<'_>>
    ensures { option_map left result ≡ phrase_at (word (codes "end") ∷ word (codes "process") ∷ []) (left piece.entry) }
{
    Phrase::new(piece).word("end").word("process").end()
}

fn end_if(rest: Cursor<'_>) -> Option<Cursor<'_>>
    ensures { option_map left result ≡ phrase_at (word (codes "if") ∷ []) (left rest.entry) }
{
    Phrase::new(rest).word("if").end()
}

fn end_edge(piece: Cursor<'_>) -> Option<Cursor<'_>>
    ensures { option_map left result ≡ phrase_at (word (codes "end") ∷ word (codes "if") ∷ []) (left piece.entry) }
{
    Phrase::new(piece).word("end").word("if").end()
}

// The place next to a phrase that changes nothing.
fn onward(end: Option<Cursor<'_>>, next: Place) -> Step
    ensures { Gives (λ p. p) result (option_map (λ _. next) end.entry) }
{
    match end {
        Some(_end) => Ok(next),
        None => Err(Refusal::Refused),
    }
}

#[tactic(auto, unfolding(opgen_vhdl::specs::Reader::takes_at, opgen_vhdl::specs::Reader::and_then))]
fn heading_of_entity(alloc: Global, draft: &mut Draft, piece: Cursor<'_>) -> Step
    ensures { Gives (λ p. (p, seen draft.new)) result (takes_at Entity (seen draft.old) (left piece.entry)) }
{
    let name = entity(alloc, piece)?;
    draft.set_entity(name);
    Ok(Place::Ports)
}

#[tactic(auto, unfolding(opgen_vhdl::specs::Reader::ports_at, opgen_vhdl::specs::Reader::and_then, opgen_vhdl::specs::Reader::choice))]
fn ports(alloc: Global, draft: &mut Draft, piece: Cursor<'_>) -> Step
    ensures { Gives (λ p. (p, seen draft.new)) result (ports_at (seen draft.old) (left piece.entry)) }
{
    let (port, rest) = port(alloc, piece)?;
    let (next, end) = match rest.mark(TokenKind::RightParen) {
        None => (Place::Ports, rest.end()),
        Some(rest) => (Place::EndEntity, rest.end()),
    };
    match end {
        None => Err(Refusal::Refused),
        Some(_end) => {
            draft.add_port(alloc, port)?;
            Ok(next)
        }
    }
}

#[tactic(auto, unfolding(opgen_vhdl::specs::Reader::takes_at, opgen_vhdl::specs::Reader::and_then))]
fn end_of_entity(alloc: Global, draft: &mut Draft, piece: Cursor<'_>) -> Step
    ensures { Gives (λ p. (p, seen draft.new)) result (takes_at EndEntity (seen draft.old) (left piece.entry)) }
{
    let rest = word(piece, "end")?;
    let name = unit_end(alloc, "entity", rest)?;
    draft.compare_entity(name);
    Ok(Place::Architecture)
}

#[tactic(auto, unfolding(opgen_vhdl::specs::Reader::takes_at, opgen_vhdl::specs::Reader::and_then))]
fn architecture(alloc: Global, draft: &mut Draft, piece: Cursor<'_>) -> Step
    ensures { Gives (λ p. (p, seen draft.new)) result (takes_at Architecture (seen draft.old) (left piece.entry)) }
{
    let (own, entity, rest) = heading(alloc, piece)?;
    draft.set_architecture(own, entity);
    declarations(alloc, draft, rest)
}

#[tactic(auto, unfolding(opgen_vhdl::specs::Reader::statement_at, opgen_vhdl::specs::Reader::and_then, opgen_vhdl::specs::Reader::choice))]
fn statement(alloc: Global, draft: &mut Draft, place: Place, piece: Cursor<'_>) -> Step
    ensures { Gives (λ p. (p, seen draft.new)) result (statement_at place (seen draft.old) (left piece.entry)) }
{
    match piece.word("end") {
        Some(rest) => {
            let name = unit_end(alloc, "architecture", rest)?;
            draft.compare_architecture(name);
            Ok(Place::End)
        }
        None => {
            let driver = concurrent(alloc, draft.scope(), piece)?;
            draft.add_driver(driver)?;
            Ok(place)
        }
    }
}

// The piece that opens the process, behind `process`.
#[tactic(auto, unfolding(opgen_vhdl::specs::Reader::opening_at, opgen_vhdl::specs::Reader::and_then))]
fn opening(alloc: Global, draft: &mut Draft, rest: Cursor<'_>) -> Step
    ensures { Gives (λ p. (p, seen draft.new)) result (opening_at (seen draft.old) (left rest.entry)) }
{
    let rest = process(rest).ok_or(Refusal::Refused)?;
    let (enable, rest) = enable(alloc, draft.scope(), rest)?;
    let driver = clocked(alloc, draft.scope(), rest)?;
    draft.set_enable(enable);
    draft.add_driver(driver)?;
    Ok(Place::Process)
}

#[tactic(auto, unfolding(opgen_vhdl::specs::Reader::body_at, opgen_vhdl::specs::Reader::and_then, opgen_vhdl::specs::Reader::choice))]
fn body(alloc: Global, draft: &mut Draft, piece: Cursor<'_>) -> Step
    ensures { Gives (λ p. (p, seen draft.new)) result (body_at (seen draft.old) (left piece.entry)) }
{
    match piece.word("process") {
        None => statement(alloc, draft, Place::Body, piece),
        Some(rest) => opening(alloc, draft, rest),
    }
}

#[tactic(auto, unfolding(opgen_vhdl::specs::Reader::declarations_at, opgen_vhdl::specs::Reader::and_then, opgen_vhdl::specs::Reader::choice))]
fn declarations(alloc: Global, draft: &mut Draft, piece: Cursor<'_>) -> Step
    ensures { Gives (λ p. (p, seen draft.new)) result (declarations_at (seen draft.old) (left piece.entry)) }
{
    match piece.word("begin") {
        Some(rest) => body(alloc, draft, rest),
        None => {
            let signal = signal(alloc, piece)?;
            draft.add_signal(alloc, signal)?;
            Ok(Place::Declarations)
        }
    }
}

// What comes behind the first `end if` of a process.
fn behind_if(enable: Option<usize>) -> Place
    ensures { result ≡ behind_if enable }
{
    match enable {
        None => Place::EndProcess,
        Some(_) => Place::EndEdge,
    }
}

#[tactic(auto, unfolding(opgen_vhdl::specs::Reader::clocked_body_at, opgen_vhdl::specs::Reader::and_then, opgen_vhdl::specs::Reader::choice))]
fn clocked_body(alloc: Global, draft: &mut Draft, piece: Cursor<'_>) -> Step
    ensures { Gives (λ p. (p, seen draft.new)) result (clocked_body_at (seen draft.old) (left piece.entry)) }
{
    match piece.word("end") {
        Some(rest) => onward(end_if(rest), behind_if(draft.enable)),
        None => {
            let driver = clocked(alloc, draft.scope(), piece)?;
            draft.add_driver(driver)?;
            Ok(Place::Process)
        }
    }
}

/// Reads a piece at a place into the draft, and returns the next place.
#[tactic(auto, unfolding(opgen_vhdl::specs::Reader::takes_at, opgen_vhdl::specs::Reader::and_then))]
pub fn take(alloc: Global, draft: &mut Draft, place: Place, piece: Cursor<'_>) -> Step
    ensures { Gives (λ p. (p, seen draft.new)) result (takes_at place (seen draft.old) (left piece.entry)) }
{
    match place {
        Place::Library => onward(library_clause(piece), Place::UseLogic),
        Place::UseLogic => onward(use_clause(piece, "std_logic_1164"), Place::UseNumeric),
        Place::UseNumeric => onward(use_clause(piece, "numeric_std"), Place::Entity),
        Place::Entity => heading_of_entity(alloc, draft, piece),
        Place::Ports => ports(alloc, draft, piece),
        Place::EndEntity => end_of_entity(alloc, draft, piece),
        Place::Architecture => architecture(alloc, draft, piece),
        Place::Declarations => declarations(alloc, draft, piece),
        Place::Body => body(alloc, draft, piece),
        Place::Process => clocked_body(alloc, draft, piece),
        Place::EndEdge => onward(end_edge(piece), Place::EndProcess),
        Place::EndProcess => onward(end_process(piece), Place::AfterProcess),
        Place::AfterProcess => statement(alloc, draft, Place::AfterProcess, piece),
        Place::End => Err(Refusal::Refused),
    }
}
