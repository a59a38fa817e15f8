//! Writes the text of an entity.
ghost use Rattle.std.specs.Prelude.{◌≡◌, ◌++◌, OnOk, IfOk, string_bytes};
ghost use Rattle.std.specs.List.{flat_map};
ghost use Rattle.opgen_vhdl.specs.DesignText.{direction_text, port_text, entity_text};

use crate::expression::put_range;
use opgen_design::{Design, Dir, Port};
use std::alloc::{AllocError, Global};

fn direction(dir: Dir) -> &'static str
    ensures { result.now ≡ direction_text dir }
{
    match dir {
        Dir::In => "in",
        Dir::Out => "out",
    }
}

// A port, after the `;` of the port before it.
#[tactic(auto, unfolding(opgen_vhdl::specs::DesignText::port_text))]
fn put_port(out: &mut String, port: &Port) -> Result<(), AllocError>
    ensures { OnOk result (string_bytes out.new ≡ string_bytes out.old ++ port_text port.now) }
{
    let name = port.name.as_str();
    let direction = direction(port.dir);
    write!(out, ";\n    {name} : {direction} std_logic_vector")?;
    put_range(out, port.width.saturating_sub(1), 0)
}

fn put_ports(out: &mut String, design: &Design) -> Result<(), AllocError>
    ensures { OnOk result (string_bytes out.new ≡ string_bytes out.old ++ flat_map port_text design.now.ports) }
{
    'ports: for port in design.ports.as_slice() {
        put_port(out, port)?;
    }
    Ok(())
}

#[tactic(auto, unfolding(opgen_vhdl::specs::DesignText::entity_text))]
pub(crate) fn entity(alloc: Global, design: &Design) -> Result<String, AllocError>
    ensures { IfOk result (λ text. string_bytes text ≡ entity_text design.now) }
{
    let mut out = String::from_str(
        alloc,
        "library ieee;\nuse ieee.std_logic_1164.all;\nuse ieee.numeric_std.all;\n\n",
    )?;
    let name = design.name.as_str();
    write!(out, "entity {name} is\n  port (\n    clk : in std_logic")?;
    put_ports(&mut out, design)?;
    out.push_str("\n  );\nend entity;\n\n")?;
    Ok(out)
}
