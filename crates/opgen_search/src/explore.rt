//! Explores the sets of one piece of the search: adds one member after another, and keeps the best complete set.
ghost use Rattle.std.specs.Prelude.{◌≡◌, ◌⊎◌, [], ◌+◌, ◌<◌, length, drop, IfOk, OnOk, IsTrue, IsFalse, IsPermutation};
ghost use Rattle.std.specs.List.Sorted.{IsNonDecreasing};
ghost use Rattle.opgen_graph.specs.SetCost.{set_cost};
ghost use Rattle.opgen_search.specs.Nodes.{IsNode, IsStuck, HasRoom, members, members_of};
ghost use Rattle.opgen_search.specs.Hunts.{IsChoice, IsPiece, IsHunt, IsLater, IsCovered, AreSettled, IsTried, IsLeastOf, takes};

use crate::hunt::{Hunt, Piece};
use crate::node::{Node, close, has, is_worth, with_member};
use crate::part::{choices, is_foreign, takes_least};
use crate::take::{is_better, look, take};
use opgen_graph::cost;
use std::alloc::{AllocError, Global};

// The set of the placed members.
fn set_of(alloc: Global, placed: &[u32]) -> Result<Vec<u32>, AllocError>
    requires { 0 < length placed.now }
    ensures members { IfOk result (λ set. IsPermutation (drop 1 placed.now) set.items) }
    ensures increasing { IfOk result (λ set. IsNonDecreasing set.items) }
{
    let mut set = placed[1..].to_vec(alloc)?;
    set.sort_unstable();
    Ok(set)
}

// Takes the set of a node with nothing left that is of the piece, if it is the first or before the best so far.
fn consider(piece: &Piece, hunt: &mut Hunt, node: &Node) -> Result<(), AllocError>
    requires piece { IsPiece piece.now }
    requires hunt { IsHunt piece.now hunt.old }
    requires node { IsNode node.now.placed.items [] }
    requires room { HasRoom piece.now.search.now.targets.items piece.now.search.now.extra (members node.now.placed.items []) 0 }
    requires least { IsLeastOf piece.now.search.now.targets.items (members node.now.placed.items []) node.now.least }
    requires takes { takes piece.now node.now.least }
    ensures hunt { IsHunt piece.now hunt.new }
    ensures later { IsLater piece.now hunt.old hunt.new }
    ensures all { OnOk result (AreSettled piece.now hunt.new (members node.now.placed.items [])) }
{
    let set = set_of(piece.alloc, node.placed.as_slice())?;
    if is_better(piece, hunt, set.as_slice()) {
        take(piece, hunt, set);
    }
    Ok(())
}

// Whether a node is a set of the piece.
fn is_whole(piece: &Piece, node: &Node) -> bool
    requires { IsPiece piece.now }
    ensures whole { IsTrue result → (node.now.left.items ≡ []) × takes piece.now node.now.least }
    ensures open { IsFalse result → (0 < length node.now.left.items) ⊎ (takes piece.now node.now.least → ⊥) }
{
    node.left.is_empty() && takes_least(piece, node.least)
}

/// Tries each set of the piece that has the node's members and at most so many more.
#[cycle(explore)]
pub fn explore(piece: &Piece, hunt: &mut Hunt, mut node: Node, more: u32) -> Result<(), AllocError>
    requires piece { IsPiece piece.now }
    requires hunt { IsHunt piece.now hunt.old }
    requires node { IsNode node.placed.items node.left.items }
    requires room { HasRoom piece.now.search.now.targets.items piece.now.search.now.extra (members_of node) more }
    requires least { IsLeastOf piece.now.search.now.targets.items (members_of node) node.least }
    ensures hunt { IsHunt piece.now hunt.new }
    ensures later { IsLater piece.now hunt.old hunt.new }
    ensures covered { OnOk result (IsCovered piece.now hunt.new (members_of node) more) }
{
    close(&mut node)?;
    if is_whole(piece, &node) {
        return consider(piece, hunt, &node);
    }
    if more == 0 {
        return Ok(());
    }
    try_members(piece, hunt, &node, more)
}

// The same for a node that is no set of the piece, and of which nothing that is left can be made.
#[cycle(explore)]
fn try_members(piece: &Piece, hunt: &mut Hunt, node: &Node, more: u32) -> Result<(), AllocError>
    requires piece { IsPiece piece.now }
    requires hunt { IsHunt piece.now hunt.old }
    requires node { IsNode node.now.placed.items node.now.left.items }
    requires stuck { IsStuck node.now.placed.items node.now.left.items }
    requires open { (0 < length node.now.left.items) ⊎ (takes piece.now node.now.least → ⊥) }
    requires room { HasRoom piece.now.search.now.targets.items piece.now.search.now.extra (members_of node.now) more }
    requires least { IsLeastOf piece.now.search.now.targets.items (members_of node.now) node.now.least }
    requires more { 0 < more }
    ensures hunt { IsHunt piece.now hunt.new }
    ensures later { IsLater piece.now hunt.old hunt.new }
    ensures covered { OnOk result (IsCovered piece.now hunt.new (members_of node.now) more) }
{
    look(piece, hunt);
    let width = piece.search.width;
    let spent = cost(&node.placed[1..], width) + cost(node.left.as_slice(), width);
    for member in choices(piece, node.least, more) {
        try_member(piece, hunt, node, spent, more, *member)?;
    }
    Ok(())
}

// The same for the sets that have one further member, which can be made of what is placed.
#[cycle(explore)]
fn try_member(
    piece: &Piece,
    hunt: &mut Hunt,
    node: &Node,
    spent: u64,
    more: u32,
    member: u32,
) -> Result<(), AllocError>
    requires piece { IsPiece piece.now }
    requires hunt { IsHunt piece.now hunt.old }
    requires node { IsNode node.now.placed.items node.now.left.items }
    requires stuck { IsStuck node.now.placed.items node.now.left.items }
    requires room { HasRoom piece.now.search.now.targets.items piece.now.search.now.extra (members_of node.now) more }
    requires least { IsLeastOf piece.now.search.now.targets.items (members_of node.now) node.now.least }
    requires more { 0 < more }
    requires spent { spent ≡ set_cost piece.now.search.now.width (members_of node.now) }
    requires member { IsChoice piece.now.search.now.limit member }
    ensures hunt { IsHunt piece.now hunt.new }
    ensures later { IsLater piece.now hunt.old hunt.new }
    ensures all { OnOk result (IsTried piece.now hunt.new node.now more member) }
{
    if spent + cost(&[member], piece.search.width) > hunt.known {
        return Ok(());
    }
    if has(node.placed.as_slice(), node.left.as_slice(), member) {
        return Ok(());
    }
    if is_foreign(piece, node.least, member, more) {
        return Ok(());
    }
    if !is_worth(node.placed.as_slice(), node.left.as_slice(), member, more) {
        return Ok(());
    }
    let next = with_member(piece.alloc, node, member)?;
    explore(piece, hunt, next, more - 1)
}
