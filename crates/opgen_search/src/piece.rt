//! Runs one piece of the search from its first look at the shared bound to its best set.
ghost use Rattle.std.specs.Prelude.{◌≡◌, ◌+◌, ◌^◌, ◌≤◌, ◌<◌, ◌∷◌, [], length, None, IfOk, IfSome, OnOk};
ghost use Rattle.opgen_bound.specs.Views.{most};
ghost use Rattle.opgen_bound.specs.Passes.{view, IsPassOf};
ghost use Rattle.opgen_search.specs.Covered.{best_of, Covered};
ghost use Rattle.opgen_search.specs.Hunts.{IsSearch, IsPiece, IsHunt, IsLater, IsSettled};
ghost use Rattle.opgen_search.specs.Forks.{IsAsked, IsFound, parts_of};

use crate::explore::explore;
use crate::gate::Gate;
use crate::hunt::{Hunt, Piece, Search};
use crate::node::Node;
use crate::part::own_odds;
use crate::take::take;
use opgen_bound::{Bound, Pass};
use std::alloc::{AllocError, Global};

/// What pieces found: the best set of their parts, if there is one, and their pass.
#[derive(Drop)]
pub struct Found {
    pub best: Result<Option<Vec<u32>>, AllocError>,
    pub pass: Pass,
}

// The node of the targets, none of them placed.
fn root(alloc: Global, targets: &[u32]) -> Result<Node, AllocError>
    ensures placed { IfOk result (λ node. node.placed.items ≡ 1 ∷ []) }
    ensures left { IfOk result (λ node. node.left.items ≡ targets.now) }
    ensures least { IfOk result (λ node. node.least ≡ None) }
{
    let placed = vec![in alloc; 1]?;
    let left = targets.to_vec(alloc)?;
    Ok(Node {
        placed,
        left,
        least: None,
    })
}

// Takes the set of the signed digits, if it is of the piece.
fn try_digits(piece: &Piece, hunt: &mut Hunt) -> Result<(), AllocError>
    requires piece { IsPiece piece.now }
    requires hunt { IsHunt piece.now hunt.old }
    requires none { hunt.old.best ≡ None }
    ensures hunt { IsHunt piece.now hunt.new }
    ensures later { IsLater piece.now hunt.old hunt.new }
    ensures digits { OnOk result (piece.now.number ≡ 0 → IsSettled piece.now hunt.new piece.now.search.now.digits.items) }
{
    if piece.number == 0 {
        let digits = piece.search.digits.to_vec(piece.alloc)?;
        take(piece, hunt, digits);
    }
    Ok(())
}

// Tries the sets of one piece.
fn try_piece(
    alloc: Global,
    bound: &Bound,
    search: &Search,
    number: u32,
    hunt: &mut Hunt,
) -> Result<(), AllocError>
    requires search { IsSearch search.now }
    requires number { number < search.now.pieces }
    requires bound { IsPassOf bound.now hunt.old.pass }
    requires known { hunt.old.known ≡ (view hunt.old.pass).seen }
    requires none { hunt.old.best ≡ None }
    requires fresh { most ≤ (view hunt.old.pass).published }
    ensures bound { IsPassOf bound.now hunt.new.pass }
    ensures share { (view hunt.new.pass).share ≡ (view hunt.old.pass).share }
    ensures start { (view hunt.new.pass).start ≡ (view hunt.old.pass).start }
    ensures count { IfSome (best_of hunt.new.best) (λ set. length set < 2 ^ 31) }
    ensures covered { OnOk result (Covered (parts_of search.now number (number + 1)) search.now.width (best_of hunt.new.best) (view hunt.new.pass)) }
{
    let own = own_odds(alloc, search, number)?;
    let piece = Piece {
        alloc,
        search,
        bound,
        number,
        own,
    };
    try_digits(&piece, hunt)?;
    let node = root(alloc, search.targets.as_slice())?;
    explore(&piece, hunt, node, search.extra)
}

/// One piece: its first look, and then its sets.
pub fn run_piece<G: Gate>(
    alloc: Global,
    bound: &Bound,
    search: &Search,
    gate: &G,
    mut pass: Pass,
    number: u32,
) -> Found
    requires { IsAsked bound.now search.now pass number (number + 1) }
    ensures { IsFound bound.now search.now pass number (number + 1) result }
{
    gate.arrive(number);
    let first = bound.look(&mut pass);
    let mut hunt = Hunt {
        best: None,
        known: first,
        pass,
    };
    let tried = try_piece(alloc, bound, search, number, &mut hunt);
    gate.leave(number, first);
    let Hunt {
        best,
        known: _,
        pass,
    } = hunt;
    match tried {
        Ok(()) => Found {
            best: Ok(best),
            pass,
        },
        Err(refused) => Found {
            best: Err(refused),
            pass,
        },
    }
}
