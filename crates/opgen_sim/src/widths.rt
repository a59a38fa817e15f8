//! The widths of a design's ports.
ghost use Rattle.std.specs.Prelude.{◌≡◌, IfOk, map};
ghost use Rattle.opgen_design.specs.Run.{at_ports};
ghost use Rattle.opgen_sim.specs.Rows.{AreWidths, is_of};

use opgen_design::{Design, Dir, Port};
use std::alloc::{AllocError, Global};

/// The widths of the input ports and those of the output ports, in order.
#[derive(Drop)]
pub struct Widths {
    pub inputs: Vec<u32>,
    pub outputs: Vec<u32>,
}

fn is_of(dir: Dir, port: &Port) -> bool
    ensures { result ≡ is_of dir port.now.dir }
{
    port.dir == dir
}

/// The widths of the ports of a direction, in order.
pub fn port_widths(alloc: Global, ports: &[Port], dir: Dir) -> Result<Vec<u32>, AllocError>
    ensures { IfOk result (λ widths. widths.items ≡ at_ports (is_of dir) ports.now (map (λ p. p.width) ports.now)) }
{
    let mut widths = Vec::new(alloc);
    for port in ports {
        if is_of(dir, port) {
            widths.push(port.width)?;
        }
    }
    Ok(widths)
}

impl Widths {
    /// Those of a design.
    pub fn of(alloc: Global, design: &Design) -> Result<Widths, AllocError>
        ensures { IfOk result (λ w. AreWidths design.now w) }
    {
        let ports = design.ports.as_slice();
        Ok(Widths {
            inputs: port_widths(alloc, ports, Dir::In)?,
            outputs: port_widths(alloc, ports, Dir::Out)?,
        })
    }
}
