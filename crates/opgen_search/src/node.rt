//! A partial set of adders in the search: the members that can be built already, and those that are still to be built.
ghost use Rattle.std.specs.Prelude.{◌≡◌, ◌++◌, ◌∷◌, [], ◌<◌, ◌≤◌, Some, IfOk, OnOk, IfNone, IfSome, IsFalse, IsTrue, length, slice_index, All, Contains, IsPermutation, ◌⊎◌};
ghost use Rattle.opgen_graph.specs.Adders.{IsTerm};
ghost use Rattle.opgen_graph.specs.Reach.{Among};
ghost use Rattle.opgen_search.specs.Nodes.{IsNode, IsStuck, members_of};
ghost use Rattle.opgen_search.specs.Hunts as hunts;

use crate::part::least_with;
use opgen_graph::{makes_among, makes_with};
use std::alloc::{AllocError, Global};

/// A set in the making: 1 and the members that are placed, each made of two before it, and the members that are left.
#[derive(Drop)]
pub struct Node {
    pub placed: Vec<u32>,
    pub left: Vec<u32>,
    /// The least member that is no target.
    pub least: Option<u32>,
}

// The place of the first number that is left and can be made.
fn next_made(placed: &[u32], left: &[u32]) -> Option<usize>
    requires { All IsTerm placed.now × All IsTerm left.now }
    ensures none { IfNone result (IsStuck placed.now left.now) }
    ensures some { IfSome result (λ place. (place < length left.now) × Among placed.now (slice_index left.now place)) }
{
    for (place, n) in left.iter().enumerate() {
        if makes_among(placed, *n) {
            return Some(place);
        }
    }
    None
}

/// Places numbers that are left until none of them can be made.
pub fn close(node: &mut Node) -> Result<(), AllocError>
    requires { IsNode node.old.placed.items node.old.left.items }
    ensures node { OnOk result (IsNode node.new.placed.items node.new.left.items) }
    ensures members { OnOk result (IsPermutation (members_of node.old) (members_of node.new)) }
    ensures stuck { OnOk result (IsStuck node.new.placed.items node.new.left.items) }
    ensures least { OnOk result (node.new.least ≡ node.old.least) }
{
    'places: while let Some(place) = next_made(node.placed.as_slice(), node.left.as_slice()) {
        let next = node.left.remove(place);
        node.placed.push(next)?;
    }
    Ok(())
}

/// The node with one further member, which is placed.
pub fn with_member(alloc: Global, node: &Node, member: u32) -> Result<Node, AllocError>
    ensures placed { IfOk result (λ next. next.placed.items ≡ node.now.placed.items ++ member ∷ []) }
    ensures left { IfOk result (λ next. next.left.items ≡ node.now.left.items) }
    ensures least { IfOk result (λ next. next.least ≡ Some (hunts.least_with node.now.least member)) }
{
    let mut placed = node.placed.to_vec(alloc)?;
    placed.push(member)?;
    let left = node.left.to_vec(alloc)?;
    let least = Some(least_with(node.least, member));
    Ok(Node {
        placed,
        left,
        least,
    })
}

// Whether a further member lets one that is left be made.
fn helps(placed: &[u32], left: &[u32], member: u32) -> bool
    requires terms { All IsTerm placed.now × All IsTerm left.now × IsTerm member }
    requires stuck { IsStuck placed.now left.now }
    ensures { IsFalse result → IsStuck (placed.now ++ member ∷ []) left.now }
{
    for n in left {
        if makes_with(&[member], member, *n) {
            return true;
        }
        if makes_with(placed, member, *n) {
            return true;
        }
    }
    false
}

/// Whether a further member can be made, and, where it is the last one, lets one that is left be made.
pub fn is_worth(placed: &[u32], left: &[u32], member: u32, more: u32) -> bool
    requires terms { All IsTerm placed.now × All IsTerm left.now × IsTerm member }
    requires stuck { IsStuck placed.now left.now }
    ensures made { IsTrue result → Among placed.now member }
    ensures useless { IsFalse result → Among placed.now member → (more ≤ 1) × (0 < length left.now) × IsStuck (placed.now ++ member ∷ []) left.now }
{
    if more > 1 || left.is_empty() {
        return makes_among(placed, member);
    }
    // the test that takes fewer pairs first
    if left.len() < placed.len() {
        return helps(placed, left, member) && makes_among(placed, member);
    }
    makes_among(placed, member) && helps(placed, left, member)
}

/// Whether a number is placed or left.
pub fn has(placed: &[u32], left: &[u32], value: u32) -> bool
    ensures held { IsTrue result → Contains placed.now value ⊎ Contains left.now value }
    ensures free { IsFalse result → (Contains placed.now value → ⊥) × (Contains left.now value → ⊥) }
{
    if placed.contains(&value) {
        return true;
    }
    left.contains(&value)
}
