//! Takes a set as the best so far, and publishes its cost to the shared bound.
ghost use Rattle.std.specs.Prelude.{◌≡◌, ◌^◌, ◌<◌, ℕ, List, length, Some, None, IfSome, IsTrue, IsFalse};
ghost use Rattle.opgen_search.specs.Least.{IsBefore};
ghost use Rattle.opgen_search.specs.Covered.{best_of, IsNotBefore, IsLesser};
ghost use Rattle.opgen_search.specs.Hunts.{IsHunt, IsLater, part_of};

use crate::hunt::{Hunt, Piece, is_before};
use opgen_graph::cost;

/// Learns the least cost known now.
pub fn look(piece: &Piece, hunt: &mut Hunt)
    requires { IsHunt piece.now hunt.old }
    ensures hunt { IsHunt piece.now hunt.new }
    ensures later { IsLater piece.now hunt.old hunt.new }
{
    hunt.known = piece.bound.look(&mut hunt.pass);
}

/// Whether a set is the first, or before the best so far.
pub fn is_better(piece: &Piece, hunt: &Hunt, set: &[u32]) -> bool
    requires count { length set.now < 2 ^ 31 }
    requires best { IfSome (best_of hunt.now.best) (λ best. length best < 2 ^ 31) }
    ensures better { IsTrue result → (best : List ℕ) → best_of hunt.now.best ≡ Some best → IsBefore piece.now.search.now.width set.now best }
    ensures worse { IsFalse result → IsNotBefore piece.now.search.now.width set.now (best_of hunt.now.best) }
{
    match &hunt.best {
        Some(best) => is_before(set, best.as_slice(), piece.search.width),
        None => true,
    }
}

/// Takes a set as the best, and publishes what it costs.
pub fn take(piece: &Piece, hunt: &mut Hunt, set: Vec<u32>)
    requires hunt { IsHunt piece.now hunt.old }
    requires member { part_of piece.now set.items }
    requires better { (best : List ℕ) → best_of hunt.old.best ≡ Some best → IsBefore piece.now.search.now.width set.items best }
    requires count { length set.items < 2 ^ 31 }
    ensures hunt { IsHunt piece.now hunt.new }
    ensures later { IsLater piece.now hunt.old hunt.new }
    ensures best { best_of hunt.new.best ≡ Some set.items }
{
    let price = cost(set.as_slice(), piece.search.width);
    let before = piece.bound.publish(&mut hunt.pass, price);
    hunt.known = before.min(price);
    hunt.best = Some(set);
}

/// The lesser of two answers.
pub fn lesser(one: Option<Vec<u32>>, other: Option<Vec<u32>>, width: u32) -> Option<Vec<u32>>
    requires one { IfSome (best_of one) (λ set. length set < 2 ^ 31) }
    requires other { IfSome (best_of other) (λ set. length set < 2 ^ 31) }
    ensures count { IfSome (best_of result) (λ set. length set < 2 ^ 31) }
    ensures lesser { IsLesser width (best_of one) (best_of other) (best_of result) }
{
    match (one, other) {
        (Some(first), Some(second)) => {
            if is_before(second.as_slice(), first.as_slice(), width) {
                Some(second)
            } else {
                Some(first)
            }
        }
        (Some(first), None) => Some(first),
        (None, second) => second,
    }
}
