//! Reads names: those that are declared already, and new ones, which must be allowed.

ghost use Rattle.std.specs.Prelude.{◌≡◌, IfOk, IfSome, IsTrue, map, Some, None, if◌then◌else◌};
ghost use Rattle.std.specs.Char.{to_ascii_lowercase};
ghost use Rattle.opgen_names.specs.Names.{is_allowed_name};
ghost use Rattle.opgen_vhdl.specs.Grammar.{place_of};
ghost use Rattle.opgen_vhdl.specs.Reader.{name_at};
ghost use Rattle.opgen_lex.specs.Left.{left};
ghost use Rattle.opgen_read.specs.Gives.{Gives};
ghost use Rattle.opgen_read.specs.Names.{names_in, IsPlace, GivesPlace};

use crate::declared::Declared;
use crate::expression::Scope;
use crate::refusal::Refusal;
use opgen_design::Signal;
use opgen_lex::{Cursor, same_kind};
use opgen_list::Text;
use opgen_names::is_allowed_name;
use opgen_vhdl::TokenKind;
use std::alloc::{AllocError, Global};

// Whether a name is allowed. One that is declared is, so the rule of names judges the others alone.
fn is_allowed(declared: Option<Scope<'_>>, name: &str) -> bool
    ensures { result ≡ is_allowed_name name.now }
{
    match declared {
        Some(scope) if scope.has(name) => true,
        _ => is_allowed_name(name),
    }
}

// A text in lower case, where that is an allowed name.
fn allowed(
    alloc: Global,
    declared: Option<Scope<'_>>,
    text: &[u8],
) -> Result<Option<Text>, AllocError>
    ensures { IfOk result (λ n. n ≡ (if is_allowed_name (map to_ascii_lowercase text.now) then Some (map to_ascii_lowercase text.now) else None)) }
{
    let lower = text.to_ascii_lowercase(alloc)?;
    let Ok(name) = String::from_utf8(lower) else {
        return Ok(None);
    };
    if is_allowed(declared, &name) {
        Ok(Some(Text::from_string(name)))
    } else {
        Ok(None)
    }
}

/// The name at the front, in lower case, and what is left behind it. Where names are used, those that are declared are given
/// along: most uses are of one of these.
#[tactic(auto, using(crate::proofs::FirstName::name_first))]
pub fn name<'a>(
    alloc: Global,
    declared: Option<Scope<'_>>,
    rest: Cursor<'a>,
) -> Result<(Text, Cursor<'a>), Refusal>
    ensures value { Gives (λ x. (x.0, left x.1)) result (name_at (left rest.entry)) }
    ensures allowed { IfOk result (λ x. IsTrue (is_allowed_name x.0)) }
{
    let (kind, text, behind) = rest.token().ok_or(Refusal::Refused)?;
    if !same_kind(kind, TokenKind::Word) {
        return Err(Refusal::Refused);
    }
    match allowed(alloc, declared, text)? {
        Some(name) => Ok((name, Cursor::new(behind))),
        None => Err(Refusal::Refused),
    }
}

// The place of the signal that is declared under just these bytes, which are an allowed name then.
fn declared_place(signals: &Declared<Signal>, text: &[u8]) -> Option<usize>
    ensures place { IfSome result (λ k. k ≡ place_of (map (λ s. s.name) signals.now) text.now) }
    ensures allowed { IfSome result (λ _. IsTrue (is_allowed_name text.now)) }
{
    match signals.find_by_number(text) {
        Some(place) => Some(place),
        None => match str::from_utf8(text) {
            Ok(name) => signals.find(name),
            Err(_) => None,
        },
    }
}

// The place of the signal whose name stands at the front just as it was declared, and what is left behind it.
fn as_declared<'a>(signals: &Declared<Signal>, rest: Cursor<'a>) -> Option<(usize, Cursor<'a>)>
    ensures { IfSome result (IsPlace (map (λ s. s.name) signals.now) (name_at (left rest.entry))) }
{
    let (kind, text, behind) = rest.token()?;
    if !same_kind(kind, TokenKind::Word) {
        return None;
    }
    let place = declared_place(signals, text)?;
    Some((place, Cursor::new(behind)))
}

/// The place of the signal whose name stands at the front, and what is left behind the name. Most names stand as they were
/// declared, and are looked up as they stand.
pub fn signal_place<'a>(
    alloc: Global,
    scope: Scope<'_>,
    rest: Cursor<'a>,
) -> Result<(usize, Cursor<'a>), Refusal>
    ensures { GivesPlace (names_in scope.entry).signals result (name_at (left rest.entry)) }
{
    match as_declared(scope.signals, rest) {
        Some(found) => Ok(found),
        None => {
            let (name, rest) = name(alloc, Some(scope), rest)?;
            Ok((scope.signals.place(name.as_str()), rest))
        }
    }
}
