//! Reads the bytes of a command's files, as a specification, a design or rows, or refuses them.
ghost use Rattle.std.specs.Prelude.{◌≡◌, ◌≢◌, ◌≤◌, ◌<◌, ◌^◌, All, IfOk, IfErr, Ok, Err, length};
ghost use Rattle.std.specs.Str.Lines.{lines};
ghost use Rattle.opgen_num.specs.declared.format.TheConstants.{MAX_WIDTH};
ghost use Rattle.opgen_design.specs.Run.{input_widths};
ghost use Rattle.opgen_design.specs.Sound.{HasNumbers, IsSound};
ghost use Rattle.opgen_operator.specs.Valid.{IsValidSpec};
ghost use Rattle.opgen_document.specs.Document.{tree};
ghost use Rattle.opgen_spec.specs.Faults.{read};
ghost use Rattle.opgen_vec.specs.Reading.{IsReading};
ghost use Rattle.opgen_top.specs.Due.{most_simulated_bytes};
ghost use Rattle.opgen_top.specs.Prepared.{HoldsRows, IfRefused, IsListed};
ghost use Rattle.opgen_top.specs.Simulate.{GivesDesign, RefusesRows, RefusesVhdl};
ghost use Rattle.opgen_top.specs.Specified.{OnReading};

use crate::answer::Refusal;
use crate::line::Line;
use crate::rows::Rows;
use opgen_design::{Design, Dir};
use opgen_read::{ReadFault, read_design};
use opgen_sim::port_widths;
use opgen_spec::{Spec, SpecFault, read_spec};
use opgen_vec::{VecFault, Vectors, read_empty_rows, read_vectors};
use std::alloc::Global;

/// The specification that the bytes give, where it has no fault.
pub(crate) fn read_specification(alloc: Global, bytes: &[u8]) -> Result<Spec, Refusal>
    ensures reads { IfOk result (λ spec. read (tree bytes.now) ≡ Ok spec) }
    ensures valid { IfOk result IsValidSpec }
    ensures refused { IfRefused result (λ a. OnReading (read (tree bytes.now)) a (λ spec. ⊥)) }
    ensures listed { IfRefused result IsListed }
{
    match read_spec(alloc, bytes) {
        Ok(spec) => Ok(spec),
        Err(SpecFault::Memory) => Err(Refusal::Memory),
        Err(fault) => Err(Refusal::Line(Line::Refused(fault))),
    }
}

/// The design that the VHDL spells.
pub(crate) fn read_vhdl(alloc: Global, bytes: &[u8]) -> Result<Design, Refusal>
    requires { length bytes.now ≤ most_simulated_bytes }
    ensures gives { IfOk result (GivesDesign bytes.now) }
    ensures numbers { IfOk result HasNumbers }
    ensures refused { IfRefused result (RefusesVhdl bytes.now) }
{
    match read_design(alloc, bytes) {
        Ok(design) => Ok(design),
        Err(ReadFault::Memory) => Err(Refusal::Memory),
        Err(fault) => Err(Refusal::Line(Line::VhdlRefused(fault))),
    }
}

// The rows of a file of vectors; without widths each line is empty.
fn rows_of_lines(alloc: Global, bytes: &[u8], widths: &[u32]) -> Result<Rows, VecFault>
    requires few { length widths.now < 2 ^ 32 }
    requires narrow { All (λ width. width ≤ MAX_WIDTH) widths.now }
    ensures rows { IfOk result (HoldsRows widths.now bytes.now) }
    ensures fault { IfErr result (λ fault. fault ≢ VecFault.Memory → IsReading widths.now (lines bytes.now) (Err fault)) }
{
    if widths.is_empty() {
        return Ok(Rows {
            count: read_empty_rows(bytes)?,
            inputs: Vectors {
                columns: 0,
                cells: Vec::new(alloc),
            },
        });
    }
    let inputs = read_vectors(alloc, bytes, widths)?;
    Ok(Rows {
        count: inputs.row_count() as u32,
        inputs,
    })
}

// The rows that the vectors hold for inputs of these widths.
fn read_rows(alloc: Global, bytes: &[u8], widths: &[u32]) -> Result<Rows, Refusal>
    requires few { length widths.now < 2 ^ 32 }
    requires narrow { All (λ width. width ≤ MAX_WIDTH) widths.now }
    ensures rows { IfOk result (HoldsRows widths.now bytes.now) }
    ensures refused { IfRefused result (RefusesRows widths.now bytes.now) }
{
    match rows_of_lines(alloc, bytes, widths) {
        Ok(rows) => Ok(rows),
        Err(VecFault::Memory) => Err(Refusal::Memory),
        Err(fault) => Err(Refusal::Line(Line::VectorsRefused(fault))),
    }
}

/// The rows that the vectors hold for the inputs of a design.
pub(crate) fn read_inputs(alloc: Global, design: &Design, vectors: &[u8]) -> Result<Rows, Refusal>
    requires sound { IsSound design.now }
    requires numbers { HasNumbers design.now }
    ensures rows { IfOk result (HoldsRows (input_widths design.now) vectors.now) }
    ensures refused { IfRefused result (RefusesRows (input_widths design.now) vectors.now) }
{
    let widths = port_widths(alloc, design.ports.as_slice(), Dir::In)?;
    read_rows(alloc, vectors, &widths)
}
