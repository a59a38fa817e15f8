//! Builds the net of several constants from the adder graph of their odd parts.
ghost use Rattle.std.specs.Prelude.{◌≡◌, IfOk};
ghost use Rattle.opgen_operator.specs.declared.operator.Operator.TheVariants.{Mcm};
ghost use Rattle.opgen_operator.specs.Fits.{FitsInEachMode};
ghost use Rattle.opgen_kinds.specs.Several.{IsAcceptedSeveral};
ghost use Rattle.opgen_graph.specs.Recipe.{net_of_graph};
ghost use Rattle.opgen_graph.specs.Served.{Serves};
ghost use Rattle.opgen_mcm.specs.Products.{HasProducts};

use opgen_graph::{Graph, graph_net};
use opgen_net::Net;
use opgen_num::Memory;
use opgen_operator::Several;
use std::alloc::Global;

/// The net of several constants times the input `x`, with the outputs `y0`, `y1` and so on.
///
/// The adders of the graph make the input times each odd part of the constants. A constant is read
/// off the node of its odd part, and taken off zeros where it is below 0.
pub fn build(alloc: Global, several: &Several, graph: &Graph) -> Result<Net, Memory>
    requires several { IsAcceptedSeveral several.now }
    requires graph { Serves several.now.constants graph.now }
    ensures net { IfOk result (λ net. net ≡ net_of_graph graph.now several.now) }
    ensures products { IfOk result (HasProducts several.now) }
    ensures fits { IfOk result (FitsInEachMode (Mcm several.now)) }
{
    graph_net(alloc, graph, several)
}
