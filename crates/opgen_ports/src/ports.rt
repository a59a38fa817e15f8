//! Ports of an operator: their names and formats, as several kinds have them.
ghost use Rattle.std.specs.Prelude.{◌≡◌, ◌≤◌, ◌↔◌, ◌^◌, [], ◌∷◌, codes, IfOk, IsTrue};
ghost use Rattle.opgen_ports.specs.Ports.{port, covering, unsigned, with_rest, one_input, two_inputs, AreWithin};

use crate::reach::{Reach, width_of};
use opgen_list::Text;
use opgen_num::Format;
use std::alloc::{AllocError, Global};

/// A port of an operator.
#[derive(Drop)]
pub struct PortFormat {
    pub name: Text,
    pub format: Format,
}

/// A port of this name and format.
pub fn port(alloc: Global, name: &str, format: Format) -> Result<PortFormat, AllocError>
    ensures { IfOk result (λ made. made ≡ port name.now format) }
{
    let name = Text::from_str(alloc, name)?;
    Ok(PortFormat { name, format })
}

/// A port alone.
pub fn one(alloc: Global, name: &str, format: Format) -> Result<Vec<PortFormat>, AllocError>
    ensures { IfOk result (λ ports. ports.items ≡ port name.now format ∷ []) }
{
    let mut ports = Vec::new(alloc);
    ports.push(port(alloc, name, format)?)?;
    Ok(ports)
}

/// Two ports `a` and `b`.
pub fn operands(alloc: Global, a: Format, b: Format) -> Result<Vec<PortFormat>, AllocError>
    ensures { IfOk result (λ ports. ports.items ≡ port (codes "a") a ∷ port (codes "b") b ∷ []) }
{
    let mut ports = one(alloc, "a", a)?;
    ports.push(port(alloc, "b", b)?)?;
    Ok(ports)
}

/// The least format that holds numbers so far below and above 0, in units of its last place.
pub fn covering(reach: Reach, lsb: i32) -> Format
    requires below { reach.below ≤ 2 ^ 120 }
    requires above { reach.above ≤ 2 ^ 120 }
    ensures { result ≡ covering reach lsb }
{
    Format {
        signed: 0 < reach.below,
        width: width_of(reach),
        lsb,
    }
}

/// An unsigned format.
pub fn unsigned(width: u32, lsb: i32) -> Format
    ensures { result ≡ unsigned width lsb }
{
    Format {
        signed: false,
        width,
        lsb,
    }
}

/// A quotient or root of this name, and its remainder `r` if it is exact.
pub fn with_rest(
    alloc: Global,
    exact: bool,
    name: &str,
    main: Format,
    rest: Format,
) -> Result<Vec<PortFormat>, AllocError>
    ensures { IfOk result (λ ports. ports.items ≡ with_rest exact (port name.now main) (port (codes "r") rest)) }
{
    let mut ports = one(alloc, name, main)?;
    if exact {
        ports.push(port(alloc, "r", rest)?)?;
    }
    Ok(ports)
}

/// Whether an only input has so many bits at most.
pub fn is_within(most: u32, input: Format) -> bool
    ensures { IsTrue result ↔ AreWithin most (one_input input) }
{
    input.width <= most
}

/// Whether each of two inputs has so many bits at most.
pub fn are_within(most: u32, a: Format, b: Format) -> bool
    ensures { IsTrue result ↔ AreWithin most (two_inputs a b) }
{
    a.width <= most && b.width <= most
}
