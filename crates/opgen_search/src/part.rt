//! Which sets belong to which piece of the search, by their least member that is no target.
ghost use Rattle.std.specs.Prelude.{◌≡◌, ◌↔◌, ◌^◌, ◌≤◌, ◌<◌, length, All, Some, IfOk, IsTrue};
ghost use Rattle.opgen_search.specs.Parts as parts;
ghost use Rattle.opgen_search.specs.Hunts as hunts;
ghost use Rattle.opgen_search.specs.Hunts.{IsChoice, AreOdds, AreOwnOdds, HaveChoices, IsSearch, IsPiece, takes};

use crate::hunt::{Piece, Search};
use std::alloc::{AllocError, Global};

/// The odd numbers above 1 and below the limit.
pub fn odds_below(alloc: Global, limit: u32) -> Result<Vec<u32>, AllocError>
    ensures { IfOk result (λ odds. AreOdds limit odds.items) }
{
    let mut odds = Vec::new(alloc);
    for half in 1..limit / 2 {
        odds.push(2 * half + 1)?;
    }
    Ok(odds)
}

// The number of a further member.
fn number(targets: &[u32], member: u32) -> u32
    requires { length targets.now < 2 ^ 31 }
    ensures { result ≡ parts.number targets.now member }
{
    let below = targets.iter().filter(|target| **target < member).count() as u32;
    (member.saturating_sub(3) / 2).saturating_sub(below)
}

/// The odd numbers whose sets, where none of their further members is less, go to a piece.
pub fn own_odds(alloc: Global, search: &Search, piece: u32) -> Result<Vec<u32>, AllocError>
    requires { IsSearch search.now }
    ensures { IfOk result (λ own. AreOwnOdds search.now piece own.items) }
{
    let mut own = Vec::new(alloc);
    for odd in search.odds.as_slice() {
        if number(search.targets.as_slice(), *odd) % search.pieces == piece {
            own.push(*odd)?;
        }
    }
    Ok(own)
}

/// Whether the sets with this least further member go to a piece.
pub fn takes_least(piece: &Piece, least: Option<u32>) -> bool
    requires { IsPiece piece.now }
    ensures { IsTrue result ↔ takes piece.now least }
{
    match least {
        Some(m) => {
            number(piece.search.targets.as_slice(), m) % piece.search.pieces == piece.number
        }
        None => piece.number == 0,
    }
}

/// The least further member after one more.
pub fn least_with(least: Option<u32>, member: u32) -> u32
    ensures { result ≡ hunts.least_with least member }
{
    least.map_or(member, |m| m.min(member))
}

/// Whether one further member, if it is the last, gives a set of another piece.
pub fn is_foreign(piece: &Piece, least: Option<u32>, member: u32, more: u32) -> bool
    requires { IsPiece piece.now }
    ensures { IsTrue result → (more ≤ 1) × (takes piece.now (Some (hunts.least_with least member)) → ⊥) }
{
    if more > 1 || least_with(least, member) != member {
        return false;
    }
    !takes_least(piece, Some(member))
}

/// The numbers that may be a further member, with so many to come.
pub fn choices<'a>(piece: &'a Piece, least: Option<u32>, more: u32) -> &'a [u32]
    requires { IsPiece piece.now }
    ensures each { All (IsChoice piece.now.search.now.limit) result.now }
    ensures every { HaveChoices piece.now least more result.now }
{
    if more > 1 || (least.is_some() && takes_least(piece, least)) {
        return piece.search.odds.as_slice();
    }
    piece.own.as_slice()
}
