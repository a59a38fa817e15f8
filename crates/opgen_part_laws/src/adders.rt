//! Laws of least sets of adders: there is one, with one graph, and one net of several constants on it.
ghost use Rattle.opgen_search.specs.Recipe.{OneAdderSet, OneLeastGraph, SomeLeastGraph, OneNet};
ghost use Rattle.opgen_search.specs.Least.{OneLeast};
ghost use Rattle.opgen_search.specs.Parts.{NumbersCount};
ghost use Rattle.opgen_part_laws.specs.SearchedNets.{SomeNet};

/// Numbers have one least set of adders for their odd parts.
pub fn one_adder_set()
    ensures { OneAdderSet }
{}

/// Numbers have one graph of that set.
pub fn one_least_graph()
    ensures { OneLeastGraph }
{}

/// That numbers from -2047 to 2047 have no such set, or none with a graph that serves them, is impossible. Which set it is, is
/// not said.
pub fn some_least_graph()
    ensures { SomeLeastGraph }
{}

/// A least set is the only one for its targets.
pub fn one_least()
    ensures { OneLeast }
{}

/// The number of a further member is how many odd numbers above 1 that are no targets stand below it.
pub fn numbers_count()
    ensures { NumbersCount }
{}

/// Several constants have one net on the graph of their least set.
pub fn one_net_of_several()
    ensures { OneNet }
{}

/// That several accepted constants whose graph is searched for have no such set, or no such net that fits their operator, is
/// impossible. Which set it is, is not said.
pub fn some_net_of_several()
    ensures { SomeNet }
{}
