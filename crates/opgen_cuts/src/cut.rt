//! The net that is made of another with its sums in pieces.
ghost use Rattle.std.specs.Prelude.{◌≡◌, ◌≤◌, All, IfOk, OnOk, map};
ghost use Rattle.opgen_num.specs.declared.format.TheConstants.{MAX_WIDTH};
ghost use Rattle.opgen_net.specs.Valid.{IsValid, LiesWithin, widths};
ghost use Rattle.opgen_cuts.specs.Recipe.{cut_net, cutting_of, ports_of};
ghost use Rattle.opgen_cuts.specs.Renamed.{renamed_output};
ghost use Rattle.opgen_cuts.specs.Same.{HasNoWideSum, IsSameCircuit};

use crate::cutting::Cutting;
use crate::needed::needed;
use crate::renamed::renamed_slice;
use opgen_list::Items;
use opgen_net::{Net, Output};
use opgen_num::Memory;
use std::alloc::Global;

// The input ports of a net, each with its node, and nothing else.
fn ports_of(alloc: Global, net: &Net) -> Result<Net, Memory>
    requires { IsValid net.now }
    ensures ok { IfOk result (λ ports. ports ≡ ports_of net.now) }
    ensures valid { IfOk result IsValid }
{
    let mut ports = Net::new(alloc);
    'ports: for (name, width) in net.inputs.as_slice() {
        ports.input(name.as_str(), *width)?;
    }
    Ok(ports)
}

// The new net with all nodes, and the bits and the place of each node of the old one.
fn cutting_of(alloc: Global, net: &Net, most: u32) -> Result<Cutting, Memory>
    requires valid { IsValid net.now }
    requires most { (4 ≤ most) × (most ≤ MAX_WIDTH) }
    ensures { IfOk result (λ cutting. cutting ≡ cutting_of most net.now) }
{
    let marks = needed(alloc, net)?;
    let mut cutting = Cutting {
        net: ports_of(alloc, net)?,
        bits: Items::new(alloc),
        places: Items::new(alloc),
    };
    'nodes: for place in 0..net.nodes.len() {
        cutting.copy(net.nodes.get(place), most, marks[place])?;
    }
    Ok(cutting)
}

// Outputs over the places.
fn outputs(alloc: Global, places: &[usize], outputs: &[Output]) -> Result<Items<Output>, Memory>
    ensures { IfOk result (λ os. os ≡ map (renamed_output places.now) outputs.now) }
{
    let mut found = Items::new(alloc);
    'outputs: for output in outputs {
        found.push(Output {
            name: output.name.copy(alloc)?,
            from: renamed_slice(places, output.from),
        })?;
    }
    Ok(found)
}

/// Another net of the same circuit, whose sums have at most `most` bits each.
///
/// A sum of more bits is made in pieces, whose carries go on from one to the next, and the lowest places at which 0 is added or
/// taken off get no node. With `most` the greatest width of a signal no sum is cut, and only these places go.
pub fn cut_sums(alloc: Global, net: &Net, most: u32) -> Result<Net, Memory>
    requires valid { IsValid net.now }
    requires most { (4 ≤ most) × (most ≤ MAX_WIDTH) }
    ensures net { IfOk result (λ made. made ≡ cut_net most net.now) }
    ensures valid { IfOk result IsValid }
    ensures same { IfOk result (IsSameCircuit net.now) }
    ensures narrow { IfOk result (λ made. All (HasNoWideSum most) made.nodes) }
{
    let cutting = cutting_of(alloc, net, most)?;
    let outputs = outputs(alloc, cutting.places.as_slice(), net.outputs.as_slice())?;
    Ok(Net {
        inputs: cutting.net.inputs,
        nodes: cutting.net.nodes,
        outputs,
    })
}
