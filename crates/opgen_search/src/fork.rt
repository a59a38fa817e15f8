//! Splits the pieces of the search between threads, and merges what they found.
ghost use Rattle.std.specs.Prelude.{◌≡◌, ◌^◌, ◌<◌, length, IfOk, IfSome, OnOk, IsOk};
ghost use Rattle.std.specs.Thread.{IsSync};
ghost use Rattle.opgen_bound.specs.Passes.{view, IsPassOf};
ghost use Rattle.opgen_bound.specs.Steps.{joined};
ghost use Rattle.opgen_search.specs.Covered.{best_of, IsLesser};
ghost use Rattle.opgen_search.specs.Forks.{AnswersBoth, IsAsked, IsFound, IsShort};

use crate::gate::Gate;
use crate::hunt::Search;
use crate::piece::{Found, run_piece};
use crate::take::lesser;
use opgen_bound::{Bound, Pass};
use std::alloc::{AllocError, Global};
use std::thread::{Threads, join};

type Best = Result<Option<Vec<u32>>, AllocError>;

// The lesser of two answers, if there was memory for both.
fn lesser_of(one: Best, other: Best, width: u32) -> Best
    requires one { IfOk one (λ best. IfSome (best_of best) (λ set. length set < 2 ^ 31)) }
    requires other { IfOk other (λ best. IfSome (best_of best) (λ set. length set < 2 ^ 31)) }
    ensures count { IfOk result (λ best. IfSome (best_of best) (λ set. length set < 2 ^ 31)) }
    ensures lesser { IfOk result (λ best. IfOk one (λ first. IfOk other (λ second. IsLesser width (best_of first) (best_of second) (best_of best)))) }
    ensures one { OnOk result (IsOk one) }
    ensures other { OnOk result (IsOk other) }
{
    Ok(lesser(one?, other?, width))
}

// What two lots of pieces found together: it covers the parts of both.
fn merge(bound: &Bound, search: &Search, left: Found, right: Found) -> Found
    requires bounds { IsPassOf bound.now left.pass × IsPassOf bound.now right.pass }
    requires counts { IsShort left × IsShort right }
    ensures bound { IsPassOf bound.now result.pass }
    ensures view { view result.pass ≡ joined (view left.pass) (view right.pass) }
    ensures count { IsShort result }
    ensures answered { AnswersBoth search.now left right result }
{
    let Found {
        best: one,
        mut pass,
    } = left;
    let Found {
        best: other,
        pass: second,
    } = right;
    bound.join(&mut pass, second);
    let best = lesser_of(one, other, search.width);
    Found { best, pass }
}

/// A task of the search: the pieces from `low` up to `high`, under a pass.
#[derive(Drop)]
pub struct Task {
    pub pass: Pass,
    pub low: u32,
    pub high: u32,
}

/// The pieces of a task, forked by `join`.
pub fn run_pieces<R: Threads + Sync, G: Gate + Sync>(
    rt: &R,
    alloc: Global,
    bound: &Bound,
    search: &Search,
    gate: &G,
    task: Task,
) -> Found
    requires { IsAsked bound.now search.now task.pass task.low task.high }
    ensures { IsFound bound.now search.now task.pass task.low task.high result }
{
    let Task {
        mut pass,
        low,
        high,
    } = task;
    if high - low == 1 {
        return run_piece(alloc, bound, search, gate, pass, low);
    }
    let middle = low + (high - low) / 2;
    let other = bound.split(&mut pass);
    let (left, right) = join(
        rt,
        move || -> Found
            requires { IsSync R.row × IsSync G.row × IsAsked bound.now search.now other low middle }
            ensures { IsFound bound.entry.now search.entry.now other low middle result }
        {
            let task = Task {
                pass: other,
                low,
                high: middle,
            };
            run_pieces(rt, alloc, bound, search, gate, task)
        },
        move || -> Found
            requires { IsSync R.row × IsSync G.row × IsAsked bound.now search.now pass middle high }
            ensures { IsFound bound.entry.now search.entry.now pass middle high result }
        {
            let task = Task {
                pass,
                low: middle,
                high,
            };
            run_pieces(rt, alloc, bound, search, gate, task)
        },
    );
    merge(bound, search, left, right)
}
