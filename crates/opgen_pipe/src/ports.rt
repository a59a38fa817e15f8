//! The ports of a net's design: the clock enable if it is asked for, the inputs, and the outputs.
ghost use Rattle.std.specs.Prelude.{◌≡◌, ◌++◌, IfOk, OnOk, All, map};
ghost use Rattle.opgen_net.specs.Made.{input_port, output_port};
ghost use Rattle.opgen_net.specs.Valid.{IsValid, LiesWithin, widths as widths_of};
ghost use Rattle.opgen_design.specs.Run.{enable_inputs};
ghost use Rattle.opgen_pipe.specs.Pipelined.{ports_of};

use crate::widths::slice_width;
use opgen_design::{Dir, Port};
use opgen_list::{Items, Text};
use opgen_net::{Net, Output};
use std::alloc::{AllocError, Global};

// Appends the port of the clock enable, where it is asked for.
fn push_enable(alloc: Global, ports: &mut Items<Port>, enable: bool) -> Result<(), AllocError>
    ensures { OnOk result (ports.new ≡ ports.old ++ map input_port (enable_inputs enable)) }
{
    if enable {
        ports.push(Port {
            name: Text::from_str(alloc, "ce")?,
            dir: Dir::In,
            width: 1,
        })?;
    }
    Ok(())
}

// Appends the ports of the inputs.
fn push_inputs(
    alloc: Global,
    ports: &mut Items<Port>,
    inputs: &[(Text, u32)],
) -> Result<(), AllocError>
    ensures { OnOk result (ports.new ≡ ports.old ++ map input_port inputs.now) }
{
    'inputs: for (name, width) in inputs {
        ports.push(Port {
            name: name.copy(alloc)?,
            dir: Dir::In,
            width: *width,
        })?;
    }
    Ok(())
}

// Appends the ports of the outputs.
fn push_outputs(
    alloc: Global,
    ports: &mut Items<Port>,
    widths: &[u32],
    outputs: &[Output],
) -> Result<(), AllocError>
    requires { All (λ o. LiesWithin widths.now o.from) outputs.now }
    ensures { OnOk result (ports.new ≡ ports.old ++ map output_port outputs.now) }
{
    'outputs: for output in outputs {
        ports.push(Port {
            name: output.name.copy(alloc)?,
            dir: Dir::Out,
            width: slice_width(widths, output.from),
        })?;
    }
    Ok(())
}

/// The ports of a net's design: the clock enable, where it is asked for, the inputs and the outputs.
pub(crate) fn all_ports(
    alloc: Global,
    net: &Net,
    widths: &[u32],
    enable: bool,
) -> Result<Items<Port>, AllocError>
    requires valid { IsValid net.now }
    requires widths { widths.now ≡ widths_of net.now.nodes }
    ensures { IfOk result (λ ports. ports ≡ ports_of enable net.now) }
{
    let mut ports = Items::new(alloc);
    push_enable(alloc, &mut ports, enable)?;
    push_inputs(alloc, &mut ports, net.inputs.as_slice())?;
    push_outputs(alloc, &mut ports, widths, net.outputs.as_slice())?;
    Ok(ports)
}
