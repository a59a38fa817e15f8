//! The inputs of a sum of products as nodes, and a heap with no bit.
ghost use Rattle.std.specs.Prelude.{◌≡◌, IfOk};
ghost use Rattle.opgen_net.specs.Valid.{IsValid};
ghost use Rattle.opgen_terms.specs.Sop.{IsSop};
ghost use Rattle.opgen_sop.specs.Recipe.{input_net, heap_width, start};
ghost use Rattle.opgen_sop.specs.Small.{IsSmallGuard};
ghost use Rattle.opgen_sop.specs.Summed.{Stands, AreSummed};

use opgen_heap::Heap;
use opgen_net::Net;
use opgen_num::Memory;
use opgen_operator::Sop;
use opgen_partial::Work;
use std::alloc::Global;

// A node for each input, in order.
fn input_net(alloc: Global, sop: &Sop) -> Result<Net, Memory>
    requires { IsSop sop.now }
    ensures ok { IfOk result (λ net. net ≡ input_net sop.now) }
    ensures valid { IfOk result IsValid }
{
    let mut net = Net::new(alloc);
    'inputs: for port in sop.inputs.as_slice() {
        let _input = net.input(port.name.as_str(), port.format.width)?;
    }
    Ok(net)
}

/// The inputs, and a heap of so many bits.
pub(crate) fn start(alloc: Global, sop: &Sop, guard: u32, width: u32) -> Result<Work, Memory>
    requires sop { IsSop sop.now }
    requires guard { IsSmallGuard sop.now guard }
    requires width { width ≡ heap_width sop.now guard }
    ensures ok { IfOk result (λ work. work ≡ start sop.now guard) }
    ensures stands { IfOk result (Stands sop.now guard) }
    ensures summed { IfOk result (AreSummed sop.now guard sop.now.scaled sop.now.products) }
{
    let net = input_net(alloc, sop)?;
    Ok(Work {
        net,
        heap: Heap::new(alloc, width),
    })
}
