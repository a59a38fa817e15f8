//! Finds the least set of adders for some numbers, by all pieces of the search on several threads.
ghost use Rattle.std.specs.Prelude.{◌≡◌, ◌≤◌, ◌<◌, length, IfOk};
ghost use Rattle.opgen_num.specs.declared.format.TheConstants.{MAX_INPUT};
ghost use Rattle.opgen_graph.specs.Reach.{Reaches};
ghost use Rattle.opgen_search.specs.Space as space;
ghost use Rattle.opgen_search.specs.Space.{AreTargets};
ghost use Rattle.opgen_search.specs.Least.{IsLeast};
ghost use Rattle.opgen_search.specs.Hunts.{IsSearch};

use crate::fork::{Task, run_pieces};
use crate::gate::Gate;
use crate::hunt::Search;
use crate::part::odds_below;
use crate::piece::Found;
use opgen_bound::Bound;
use opgen_graph::{cost, csd_set};
use opgen_num::Memory;
use std::alloc::Global;
use std::thread::Threads;

// The number below which members stand.
fn limit(targets: &[u32]) -> u32
    requires { AreTargets targets.now }
    ensures { result ≡ space.limit targets.now }
{
    let mut greatest: u32 = 0;
    for target in targets {
        greatest = greatest.max(*target);
    }
    2 << (32 - greatest.leading_zeros())
}

// What all pieces share.
fn search_of(
    alloc: Global,
    targets: &[u32],
    width: u32,
    extra: u32,
    pieces: u32,
) -> Result<Search, Memory>
    requires targets { AreTargets targets.now }
    requires count { length targets.now ≤ 8 }
    requires width { (1 ≤ width) × (width ≤ MAX_INPUT) }
    requires extra { extra ≤ 2 }
    requires pieces { (1 ≤ pieces) × (pieces ≤ 32) }
    ensures search { IfOk result IsSearch }
    ensures targets { IfOk result (λ search. search.targets.items ≡ targets.now) }
    ensures width { IfOk result (λ search. search.width ≡ width) }
    ensures extra { IfOk result (λ search. search.extra ≡ extra) }
    ensures pieces { IfOk result (λ search. search.pieces ≡ pieces) }
{
    let limit = limit(targets);
    let digits = csd_set(alloc, targets)?;
    let odds = odds_below(alloc, limit)?;
    let targets = targets.to_vec(alloc)?;
    Ok(Search {
        targets,
        width,
        extra,
        limit,
        pieces,
        digits,
        odds,
    })
}

// The least set of a search, by all its pieces.
fn least_of<R: Threads + Sync, G: Gate + Sync>(
    rt: &R,
    alloc: Global,
    search: &Search,
    gate: &G,
) -> Result<Vec<u32>, Memory>
    requires { IsSearch search.now }
    ensures { IfOk result (λ set. IsLeast search.now.targets.items search.now.width search.now.extra set.items) }
{
    let start = cost(search.digits.as_slice(), search.width);
    let (bound, pass) = Bound::new(alloc, start)?;
    let task = Task {
        pass,
        low: 0,
        high: search.pieces,
    };
    let Found { best, pass } = run_pieces(rt, alloc, &bound, search, gate, task);
    bound.close(pass);
    match best? {
        Some(set) => Ok(set),
        None => unreachable!(),
    }
}

/// The least set of adders for some targets: of all sets of the space the one with no other before it.
///
/// The search is cut into as many pieces as workers, which are forked by `join` and share the least
/// cost known. The answer does not depend on the number of workers, nor on the gate. With no target
/// there is nothing to search, and the gate is told nothing.
pub fn least_set<R: Threads + Sync, G: Gate + Sync>(
    rt: &R,
    alloc: Global,
    targets: &[u32],
    width: u32,
    extra: u32,
    workers: u32,
    gate: &G,
) -> Result<Vec<u32>, Memory>
    requires targets { AreTargets targets.now }
    requires count { length targets.now ≤ 8 }
    requires width { (1 ≤ width) × (width ≤ MAX_INPUT) }
    requires extra { extra ≤ 2 }
    requires workers { (1 ≤ workers) × (workers ≤ 32) }
    ensures least { IfOk result (λ set. IsLeast targets.now width extra set.items) }
    ensures reaches { IfOk result (λ set. Reaches targets.now set.items) }
{
    if targets.is_empty() {
        return Ok(Vec::new(alloc));
    }
    let search = search_of(alloc, targets, width, extra, workers)?;
    least_of(rt, alloc, &search, gate)
}
