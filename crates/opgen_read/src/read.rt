//! Reads a whole text of VHDL as a design: its pieces, the limits on its size, and the rules of sound designs.

ghost use Rattle.std.specs.Prelude.{◌≡◌, ◌≤◌, IfOk, IfErr, IfSome, IfNone, IsTrue, ◌↔◌, length};
ghost use Rattle.opgen_design.specs.Sound.{HasNumbers, IsSound};
ghost use Rattle.opgen_vhdl.specs.Spelled.{Statements, Spells};
ghost use Rattle.opgen_vhdl.specs.Statements.{nothing};
ghost use Rattle.opgen_vhdl.specs.Tokens.{LexicalAt};
ghost use Rattle.opgen_lex.specs.First.{IsPassed, HasTokens};
ghost use Rattle.opgen_read.specs.Answer.{IsWithinLimits, IsReadFault};
ghost use Rattle.opgen_read.specs.Outcome.{IsTextFault, IsOutcome, HasFew};
ghost use Rattle.opgen_read.specs.Seen.{seen};
ghost use Rattle.opgen_read.specs.declared.read.TheConstants.{MAX_TEXT_LEN};

use crate::draft::Draft;
use crate::fault::ReadFault;
use crate::pieces::take_pieces;
use opgen_design::{Design, MAX_SIGNALS, SoundFault};
use opgen_lex::first_fault;
use std::alloc::Global;

/// The most ports of a design that is read.
pub const MAX_PORTS: usize = 64;

/// The most bytes of a text that is read.
pub const MAX_TEXT_LEN: usize = 67_108_864;

// The offset in a text at which no token starts, where it is behind the pieces that were read.
fn fault_behind(bytes: &[u8], rest: &[u8]) -> Option<u64>
    requires size { length bytes.now ≤ MAX_TEXT_LEN }
    requires passed { IsPassed bytes.now rest.now }
    ensures some { IfSome result (LexicalAt bytes.now) }
    ensures none { IfNone result (HasTokens bytes.now) }
{
    if let Some(at) = first_fault(rest) {
        let start = (bytes.len() - rest.len()) as u64;
        Some(start + at)
    } else {
        None
    }
}

// Reads the statements of a text into an empty draft.
fn take_statements(alloc: Global, draft: &mut Draft, bytes: &[u8]) -> Result<(), ReadFault>
    requires size { length bytes.now ≤ MAX_TEXT_LEN }
    requires empty { seen draft.old ≡ nothing }
    ensures ok { IfOk result (λ _. Statements bytes.now (seen draft.new)) }
    ensures few { IfOk result (λ _. HasFew (seen draft.new).design) }
    ensures err { IfErr result (IsTextFault bytes.now) }
{
    let mut rest = bytes;
    let read = take_pieces(alloc, draft, &mut rest);
    match fault_behind(bytes, rest) {
        Some(offset) => Err(ReadFault::Lexical { offset }),
        None => read,
    }
}

// What the statements of a text say.
fn statements(alloc: Global, bytes: &[u8]) -> Result<Draft, ReadFault>
    requires { length bytes.now ≤ MAX_TEXT_LEN }
    ensures ok { IfOk result (λ d. Statements bytes.now (seen d)) }
    ensures few { IfOk result (λ d. HasFew (seen d).design) }
    ensures err { IfErr result (IsTextFault bytes.now) }
{
    let mut draft = Draft::new(alloc);
    take_statements(alloc, &mut draft, bytes)?;
    Ok(draft)
}

fn is_within_limits(design: &Design) -> bool
    ensures { IsTrue result ↔ IsWithinLimits design.now }
{
    design.signals.len() <= MAX_SIGNALS && design.ports.len() <= MAX_PORTS
}

// The design of a draft.
fn design_of(draft: Draft) -> Design
    ensures { result ≡ (seen draft).design }
{
    Design {
        name: draft.name,
        ports: draft.ports.into_items(),
        signals: draft.signals.into_items(),
        drivers: draft.drivers,
        enable: draft.enable,
    }
}

// Returns the first fault of a design that is within the limits.
fn check_design(alloc: Global, design: &Design, agrees: bool) -> Result<(), ReadFault>
    requires limits { IsWithinLimits design.now }
    requires few { HasFew design.now }
    ensures { IsOutcome agrees design.now result }
{
    if !agrees {
        return Err(ReadFault::Unsound { rule: 1, item: 0 });
    }
    match design.sound(alloc) {
        Ok(()) => Ok(()),
        Err(SoundFault::Unsound { rule, item }) => Err(ReadFault::Unsound { rule, item }),
        Err(SoundFault::Memory) => Err(ReadFault::Memory),
    }
}

/// The design that a text of the VHDL subset spells. White space, comments and parentheses leave
/// nothing of themselves. Names are compared without case and stand in lower case; a name means its
/// first declaration.
///
/// Each token is cut twice, once to find where its piece ends and once to read it, and no list of tokens is kept; no clause speaks
/// of time or memory.
///
/// # Errors
///
/// The first cause, in the order of `ReadFault`: an offset at which no token starts, a piece that
/// its place does not take, more signals or ports than the limits, a rule of sound designs that
/// fails.
pub fn read_design(alloc: Global, bytes: &[u8]) -> Result<Design, ReadFault>
    requires { length bytes.now ≤ MAX_TEXT_LEN }
    ensures spelled { IfOk result (λ d. Spells bytes.now d) }
    ensures within_limits { IfOk result (λ d. IsWithinLimits d) }
    ensures sound { IfOk result (λ d. IsSound d) }
    ensures numbers { IfOk result (λ d. HasNumbers d) }
    ensures fault { IfErr result (IsReadFault bytes.now) }
{
    let draft = statements(alloc, bytes)?;
    let agrees = draft.agrees;
    let design = design_of(draft);
    if !is_within_limits(&design) {
        return Err(ReadFault::TooLarge);
    }
    check_design(alloc, &design, agrees)?;
    Ok(design)
}
