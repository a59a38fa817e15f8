//! The ports of a design beside those of a specification.
ghost use Rattle.std.specs.Prelude.{◌≡◌, ◌↔◌, ◌++◌, IfOk, IsTrue, length, map};
ghost use Rattle.std.specs.List.{AllZip};
ghost use Rattle.opgen_design.specs.declared.design.Dir.TheVariants.{In, Out};
ghost use Rattle.opgen_operator.specs.Valid.{IsValidSpec};
ghost use Rattle.opgen_operator.specs.Outputs.{port_of, operator_ports};
ghost use Rattle.opgen_check.specs.Ports.{IsSamePort};

use opgen_design::{Dir, Port};
use opgen_num::Memory;
use opgen_operator::{PortFormat, Spec};
use std::alloc::Global;

fn is_same_port(port: &Port, dir: Dir, format: &PortFormat) -> bool
    ensures { IsTrue result ↔ IsSamePort port.now (port_of dir format.now) }
{
    port.dir == dir
        && port.width == format.format.width
        && port
            .name
            .as_str()
            .eq_ignore_ascii_case(format.name.as_str())
}

// Whether ports are those of one direction, place by place.
fn are_side(ports: &[Port], dir: Dir, formats: &[PortFormat]) -> bool
    requires { length ports.now ≡ length formats.now }
    ensures { IsTrue result ↔ AllZip IsSamePort ports.now (map (port_of dir) formats.now) }
{
    let mut place = 0;
    'ports: for port in ports {
        if !is_same_port(port, dir, &formats[place]) {
            return false;
        }
        place += 1;
    }
    true
}

// Whether ports are these inputs and then these outputs, place by place.
fn are_ports(ports: &[Port], inputs: &[PortFormat], outputs: &[PortFormat]) -> bool
    ensures { IsTrue result ↔ AllZip IsSamePort ports.now (map (port_of In) inputs.now ++ map (port_of Out) outputs.now) }
{
    if ports.len() < inputs.len() || ports.len() - inputs.len() != outputs.len() {
        return false;
    }
    let (given, got) = ports.split_at(inputs.len());
    are_side(given, Dir::In, inputs) && are_side(got, Dir::Out, outputs)
}

/// Whether the ports of a design are those that a specification asks for: its inputs and then its outputs, place by place.
pub(crate) fn agree(alloc: Global, spec: &Spec, ports: &[Port]) -> Result<bool, Memory>
    requires { IsValidSpec spec.now }
    ensures { IfOk result (λ agree. IsTrue agree ↔ AllZip IsSamePort ports.now (operator_ports spec.now)) }
{
    let inputs = spec.inputs(alloc)?;
    let outputs = spec.outputs(alloc)?;
    Ok(are_ports(ports, &inputs, &outputs))
}
