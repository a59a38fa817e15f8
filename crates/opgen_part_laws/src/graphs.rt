//! Laws of adder graphs: which sets can be built, the single graph of a set, odd parts, and multiples before cycle 0.
ghost use Rattle.opgen_graph.specs.SignedDigits.{DigitSetsReach};
ghost use Rattle.opgen_graph.specs.GraphLaws.{RanksAreGraphs, OneGraph};
ghost use Rattle.opgen_graph.specs.Served.{ReachedSetsServe};
ghost use Rattle.opgen_graph.specs.Targets.{PartsAreOdd};
ghost use Rattle.opgen_graph.specs.Resting.{MultiplesRest};

/// The set of signed-digit partial sums of some targets has the targets, and can be reached from 1.
pub fn digit_sets_reach()
    ensures { DigitSetsReach }
{}

/// A graph by ranks has an adder for each member and no other, wired from 1 on.
pub fn ranks_are_graphs()
    ensures { RanksAreGraphs }
{}

/// A set has one graph by ranks.
pub fn one_graph()
    ensures { OneGraph }
{}

/// The graph of a set that reaches the targets of some constants has what their net needs.
pub fn reached_sets_serve()
    ensures { ReachedSetsServe }
{}

/// A number is a power of two times its odd part, which is odd.
pub fn parts_are_odd()
    ensures { PartsAreOdd }
{}

/// The multiples of an input are zero before cycle 0.
pub fn multiples_rest()
    ensures { MultiplesRest }
{}
