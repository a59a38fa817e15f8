//! The data of a search: what is sought, one piece of it, and the best set so far; and the order of two sets.
ghost use Rattle.std.specs.Prelude.{◌↔◌, ◌^◌, ◌<◌, length, IsTrue};
ghost use Rattle.opgen_search.specs.Least.{IsBefore};

use opgen_bound::{Bound, Pass};
use opgen_graph::cost;
use std::alloc::Global;
use std::cmp::Ordering;

/// What is sought, and by how many pieces. Members are `odds`, which are the odd numbers above 1 and below `limit`.
#[derive(Drop)]
pub struct Search {
    pub targets: Vec<u32>,
    pub width: u32,
    pub extra: u32,
    pub limit: u32,
    pub pieces: u32,
    /// The set of the signed digits.
    pub digits: Vec<u32>,
    pub odds: Vec<u32>,
}

/// One piece of a search, by its number. Those of `odds` that its number takes are its own.
#[derive(Drop)]
pub struct Piece<'a> {
    /// Allocates its sets.
    pub alloc: Global,
    pub search: &'a Search,
    pub bound: &'a Bound,
    pub number: u32,
    pub own: Vec<u32>,
}

/// The best set of a piece so far, and the least cost known: a set that costs more need not be tried.
#[derive(Drop)]
pub struct Hunt {
    pub best: Option<Vec<u32>>,
    pub known: u64,
    pub pass: Pass,
}

/// Whether a set is before another by cost, or at equal cost by the list.
#[tactic(auto, unfolding(crate::specs::Least::order))]
pub fn is_before(set: &[u32], other: &[u32], width: u32) -> bool
    requires { (length set.now < 2 ^ 31) × (length other.now < 2 ^ 31) }
    ensures { IsTrue result ↔ IsBefore width set.now other.now }
{
    let by_cost = cost(set, width).cmp(&cost(other, width));
    by_cost.then(set.cmp(other)) == Ordering::Less
}
