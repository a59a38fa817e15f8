//! Builds the net of several constants times one input by the adders of a graph.
ghost use Rattle.std.specs.Prelude.{◌≡◌, IfOk};
ghost use Rattle.opgen_net.specs.Valid.{IsValid};
ghost use Rattle.opgen_operator.specs.declared.operator.Operator.TheVariants.{Mcm};
ghost use Rattle.opgen_operator.specs.Fits.{FitsInEachMode};
ghost use Rattle.opgen_kinds.specs.Several.{IsAcceptedSeveral};
ghost use Rattle.opgen_ports.specs.Ranges.{IsInput};
ghost use Rattle.opgen_graph.specs.Recipe.{with_input, net_of_graph};
ghost use Rattle.opgen_graph.specs.Served.{Serves};

use crate::adders::place_adders;
use crate::constants::place_outputs;
use crate::ranks::Graph;
use opgen_net::Net;
use opgen_num::{Format, Memory};
use opgen_operator::Several;
use std::alloc::Global;

/// The net of an input `x` alone.
pub fn input_net(alloc: Global, input: Format) -> Result<Net, Memory>
    requires { IsInput input }
    ensures net { IfOk result (λ net. net ≡ with_input input) }
    ensures valid { IfOk result IsValid }
{
    let mut net = Net::new(alloc);
    let _x = net.input("x", input.width)?;
    Ok(net)
}

/// The net of several constants times the input `x`, with the outputs `y0`, `y1` and so on, by the
/// adders of a graph.
///
/// Each adder is one addition or subtraction of shifted nodes. A constant is read off the node of
/// its odd part, and taken off zeros where it is below 0.
pub fn graph_net(alloc: Global, graph: &Graph, several: &Several) -> Result<Net, Memory>
    requires several { IsAcceptedSeveral several.now }
    requires graph { Serves several.now.constants graph.now }
    ensures net { IfOk result (λ net. net ≡ net_of_graph graph.now several.now) }
    ensures fits { IfOk result (FitsInEachMode (Mcm several.now)) }
{
    let mut net = input_net(alloc, several.input)?;
    let adders = graph.adders.as_slice();
    let known = place_adders(alloc, &mut net, several.input, adders)?;
    place_outputs(alloc, &mut net, several, known.as_slice())?;
    Ok(net)
}
