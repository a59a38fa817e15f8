//! Writes the statement of each driver: an assignment, a choice, a table, a register or an output.
ghost use Rattle.std.specs.Prelude.{◌≡◌, ◌++◌, OnOk, string_bytes};
ghost use Rattle.std.specs.List.{flat_map};
ghost use Rattle.opgen_design.specs.declared.design.Driver.TheVariants.{Assign, Choice, Table, Register, Output};
ghost use Rattle.opgen_vhdl.specs.DesignText.{row_text, other_text, further_indent, driver_text};

use crate::expression::{port_name, put_expression, put_word, signal_name};
use opgen_design::{Design, Driver, Formula};
use opgen_num::Word;
use std::alloc::AllocError;

#[tactic(auto, unfolding(opgen_vhdl::specs::DesignText::row_text))]
fn put_row(out: &mut String, row: &(Word, Word)) -> Result<(), AllocError>
    ensures { OnOk result (string_bytes out.new ≡ string_bytes out.old ++ row_text row.now) }
{
    out.push_str("    ")?;
    put_word(out, row.1)?;
    out.push_str(" when ")?;
    put_word(out, row.0)?;
    out.push_str(",\n")
}

fn put_rows(out: &mut String, rows: &[(Word, Word)]) -> Result<(), AllocError>
    ensures { OnOk result (string_bytes out.new ≡ string_bytes out.old ++ flat_map row_text rows.now) }
{
    'rows: for row in rows {
        put_row(out, row)?;
    }
    Ok(())
}

// The row of every other address.
#[tactic(auto, unfolding(opgen_vhdl::specs::DesignText::other_text))]
fn put_other(out: &mut String, word: Word) -> Result<(), AllocError>
    ensures { OnOk result (string_bytes out.new ≡ string_bytes out.old ++ other_text word) }
{
    out.push_str("    ")?;
    put_word(out, word)?;
    out.push_str(" when others;\n")?;
    Ok(())
}

#[tactic(auto, unfolding(opgen_vhdl::specs::DesignText::driver_text))]
fn put_table(
    out: &mut String,
    design: &Design,
    to: usize,
    on: &Formula,
    rows: &[(Word, Word)],
    other: Word,
) -> Result<(), AllocError>
    ensures { OnOk result (string_bytes out.new ≡ string_bytes out.old ++ driver_text design.now (Table to on.now rows.now other)) }
{
    out.push_str("  with ")?;
    put_expression(out, design, on.expr())?;
    writeln!(out, " select {} <=", signal_name(design, to))?;
    put_rows(out, rows)?;
    put_other(out, other)
}

#[tactic(auto, unfolding(opgen_vhdl::specs::DesignText::driver_text))]
fn put_choice(
    out: &mut String,
    design: &Design,
    to: usize,
    on: &Formula,
    yes: &Formula,
    no: &Formula,
) -> Result<(), AllocError>
    ensures { OnOk result (string_bytes out.new ≡ string_bytes out.old ++ driver_text design.now (Choice to on.now yes.now no.now)) }
{
    write!(out, "  {} <= ", signal_name(design, to))?;
    put_expression(out, design, yes.expr())?;
    out.push_str(" when ")?;
    put_expression(out, design, on.expr())?;
    out.push_str(" = \"1\" else ")?;
    put_expression(out, design, no.expr())?;
    out.push_str(";\n")
}

// An assignment to a signal.
#[tactic(auto, unfolding(opgen_vhdl::specs::DesignText::driver_text))]
fn put_assignment(
    out: &mut String,
    design: &Design,
    to: usize,
    expr: &Formula,
) -> Result<(), AllocError>
    ensures { OnOk result (string_bytes out.new ≡ string_bytes out.old ++ driver_text design.now (Assign to expr.now)) }
{
    write!(out, "  {} <= ", signal_name(design, to))?;
    put_expression(out, design, expr.expr())?;
    out.push_str(";\n")
}

// The registers of a design with an enable stand a level deeper.
fn put_further_indent(out: &mut String, design: &Design) -> Result<(), AllocError>
    ensures { OnOk result (string_bytes out.new ≡ string_bytes out.old ++ further_indent design.now.enable) }
{
    match design.enable {
        Some(_) => out.push_str("  "),
        None => Ok(()),
    }
}

// An assignment two levels deeper, in the process.
#[tactic(auto, unfolding(opgen_vhdl::specs::DesignText::driver_text))]
fn put_register(
    out: &mut String,
    design: &Design,
    to: usize,
    expr: &Formula,
) -> Result<(), AllocError>
    ensures { OnOk result (string_bytes out.new ≡ string_bytes out.old ++ driver_text design.now (Register to expr.now)) }
{
    put_further_indent(out, design)?;
    out.push_str("    ")?;
    put_assignment(out, design, to, expr)
}

#[tactic(auto, unfolding(opgen_vhdl::specs::DesignText::driver_text))]
fn put_output(
    out: &mut String,
    design: &Design,
    port: usize,
    expr: &Formula,
) -> Result<(), AllocError>
    ensures { OnOk result (string_bytes out.new ≡ string_bytes out.old ++ driver_text design.now (Output port expr.now)) }
{
    write!(out, "  {} <= std_logic_vector(", port_name(design, port))?;
    put_expression(out, design, expr.expr())?;
    out.push_str(");\n")?;
    Ok(())
}

#[tactic(auto, unfolding(opgen_vhdl::specs::DesignText::driver_text))]
pub(crate) fn put_driver(
    out: &mut String,
    design: &Design,
    driver: &Driver,
) -> Result<(), AllocError>
    ensures { OnOk result (string_bytes out.new ≡ string_bytes out.old ++ driver_text design.now driver.now) }
{
    match driver {
        Driver::Assign { to, expr } => put_assignment(out, design, *to, expr),
        Driver::Choice { to, on, yes, no } => put_choice(out, design, *to, on, yes, no),
        Driver::Table {
            to,
            on,
            rows,
            other,
        } => put_table(out, design, *to, on, rows.as_slice(), *other),
        Driver::Register { to, expr } => put_register(out, design, *to, expr),
        Driver::Output { port, expr } => put_output(out, design, *port, expr),
    }
}
