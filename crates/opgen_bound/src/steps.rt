//! The operations on the shared bound: create it, read the least cost, publish a cost, split and join passes, and close it.
ghost use Rattle.std.specs.Prelude.{◌≡◌, ◌≤◌, min, IfOk};
ghost use Rattle.opgen_bound.specs.Views.{whole};
ghost use Rattle.opgen_bound.specs.Steps.{root, looked, lowered, kept, given, joined, FindsOwn};
ghost use Rattle.opgen_bound.specs.Passes.{view, IsPassOf};

use crate::bound::{Bound, Pass};
use crate::view::{Halve, Look, Merge, Publish};
use atomic_table::Table;
use opgen_num::Memory;
use std::alloc::Global;

impl Bound {
    /// A bound of this cost, and the pass that holds the whole of it.
    pub fn new(alloc: Global, start: u64) -> Result<(Bound, Pass), Memory>
        ensures bound { IfOk result (λ made. IsPassOf made.0 made.1) }
        ensures view { IfOk result (λ made. view made.1 ≡ root start) }
    {
        let (table, seat) = Table::of_words(alloc, &[start], &start)?;
        Ok((Bound { table }, Pass { seat }))
    }

    /// The least cost known now: one load.
    pub fn look(&self, pass: &mut Pass) -> u64
        requires { IsPassOf self.now pass.old }
        ensures bound { IsPassOf self.now pass.new }
        ensures view { view pass.new ≡ looked (view pass.old) result }
        ensures falls { result ≤ (view pass.old).seen }
        ensures seen_start { (view pass.old).seen ≤ (view pass.old).start }
        ensures seen_own { (view pass.old).seen ≤ (view pass.old).published }
        ensures alone { FindsOwn (view pass.old) result }
    {
        self.table.shared.load::<Look>(&mut pass.seat, 0)
    }

    /// Lowers the least cost known to this cost where that is less, in one step. The answer is the least cost known before it.
    pub fn publish(&self, pass: &mut Pass, cost: u64) -> u64
        requires { IsPassOf self.now pass.old }
        ensures bound { IsPassOf self.now pass.new }
        ensures view { view pass.new ≡ lowered (view pass.old) cost result }
        ensures falls { result ≤ (view pass.old).seen }
        ensures alone { FindsOwn (view pass.old) result }
    {
        self.table
            .shared
            .fetch_min::<Publish>(&mut pass.seat, 0, cost)
    }

    /// A second pass, for another thread. It takes half of the share, rounded down.
    pub fn split(&self, pass: &mut Pass) -> Pass
        requires bound { IsPassOf self.now pass.old }
        requires share { 2 ≤ (view pass.old).share }
        ensures bounds { IsPassOf self.now pass.new × IsPassOf self.now result }
        ensures kept { view pass.new ≡ kept (view pass.old) }
        ensures given { view result ≡ given (view pass.old) }
    {
        let seat = self.table.shared.split_seat::<Halve>(&mut pass.seat);
        Pass { seat }
    }

    /// Two passes become one, which knows what both knew.
    pub fn join(&self, pass: &mut Pass, other: Pass)
        requires bounds { IsPassOf self.now pass.old × IsPassOf self.now other }
        ensures bound { IsPassOf self.now pass.new }
        ensures view { view pass.new ≡ joined (view pass.old) (view other) }
    {
        let Pass { seat } = other;
        self.table.shared.join_seat::<Merge>(&mut pass.seat, seat);
    }

    /// The least cost known at the end, when all other passes were joined into this one.
    pub fn close(self, pass: Pass) -> u64
        requires bound { IsPassOf self pass }
        requires all { (view pass).share ≡ whole }
        ensures least { result ≡ min (view pass).start (view pass).published }
        ensures falls { result ≤ (view pass).seen }
    {
        let Bound { table } = self;
        let Pass { seat } = pass;
        let closed = table.close_with(seat);
        let word = closed.word(0);
        closed.free();
        word
    }
}
