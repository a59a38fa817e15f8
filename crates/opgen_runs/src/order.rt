//! An order in which the drivers of a design are evaluated within a cycle, for a design of any size.
ghost use Rattle.std.specs.Prelude.{◌↔◌, IfOk, IsTrue};
ghost use Rattle.opgen_design.specs.Order.{IsOrderOf};
ghost use Rattle.opgen_design.specs.Sound.{HasNumbers, IsSound};

use opgen_design::Design;
use opgen_num::Memory;
use std::alloc::Global;

// Whether the ports, signals and drivers of a design are together fewer than 2^32.
fn has_numbers(design: &Design) -> bool
    ensures { IsTrue result ↔ HasNumbers design.now }
{
    let ports = design.ports.len() as u128;
    let signals = design.signals.len() as u128;
    let drivers = design.drivers.len() as u128;
    ports + signals + drivers < 1 << 32
}

/// An order of evaluation of a sound design, as [`Design::order`] finds it.
///
/// A design whose ports, signals and drivers are together 2^32 or more is answered by `Memory`.
pub fn evaluation_order(alloc: Global, design: &Design) -> Result<Vec<usize>, Memory>
    requires { IsSound design.now }
    ensures order { IfOk result (λ v. IsOrderOf design.now v.items) }
    ensures numbers { IfOk result (λ v. HasNumbers design.now) }
{
    if has_numbers(design) {
        design.order(alloc)
    } else {
        Err(Memory)
    }
}
