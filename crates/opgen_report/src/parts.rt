//! Writes the lines of a report: request, ports, timing, cells, and the members of the adder graph.
ghost use Rattle.std.specs.Prelude.{◌≡◌, ◌++◌, ℕ, OnOk, string_bytes};
ghost use Rattle.std.specs.List.{flat_map};
ghost use Rattle.opgen_report.specs.Report.{mode_word, sign_word, request_text, time_text, format_text, port_line, cells_line, member_text, members_line, graph_line};

use opgen_num::Format;
use opgen_operator::{Operator, PortFormat, Spec};
use std::alloc::AllocError;

fn mode_word(exact: bool) -> &'static str
    ensures { result.now ≡ mode_word exact }
{
    if exact { "exact" } else { "faithful" }
}

fn sign_word(signed: bool) -> &'static str
    ensures { result.now ≡ sign_word signed }
{
    if signed { "signed" } else { "unsigned" }
}

#[tactic(auto, unfolding(crate::specs::Report::request_text))]
pub(crate) fn put_request(out: &mut String, spec: &Spec) -> Result<(), AllocError>
    ensures { OnOk result (string_bytes out.new ≡ string_bytes out.old ++ request_text spec.now) }
{
    writeln!(out, "operator {}", spec.name.as_str())?;
    writeln!(out, "kind {}", spec.op.kind().name())?;
    writeln!(out, "mode {}", mode_word(spec.exact))?;
    writeln!(out, "target {}", spec.target.as_str())?;
    writeln!(out, "period {}", spec.period)
}

#[tactic(auto, unfolding(crate::specs::Report::time_text))]
pub(crate) fn put_time(out: &mut String, latency: u32, slack: u64) -> Result<(), AllocError>
    ensures { OnOk result (string_bytes out.new ≡ string_bytes out.old ++ time_text latency slack) }
{
    writeln!(out, "latency {latency}\nslack {slack}")
}

#[tactic(auto, unfolding(crate::specs::Report::format_text))]
fn put_format(out: &mut String, format: Format) -> Result<(), AllocError>
    ensures { OnOk result (string_bytes out.new ≡ string_bytes out.old ++ format_text format) }
{
    let Format { signed, width, lsb } = format;
    write!(out, "{} {width} {lsb}", sign_word(signed))
}

#[tactic(auto, unfolding(crate::specs::Report::port_line))]
fn put_port(out: &mut String, side: &str, port: &PortFormat) -> Result<(), AllocError>
    ensures { OnOk result (string_bytes out.new ≡ string_bytes out.old ++ port_line side.now port.now) }
{
    write!(out, "{side} {} ", port.name.as_str())?;
    put_format(out, port.format)?;
    out.push('\n')
}

pub(crate) fn put_ports(
    out: &mut String,
    side: &str,
    ports: &[PortFormat],
) -> Result<(), AllocError>
    ensures { OnOk result (string_bytes out.new ≡ string_bytes out.old ++ flat_map (port_line side.now) ports.now) }
{
    for port in ports {
        put_port(out, side, port)?;
    }
    Ok(())
}

#[tactic(auto, unfolding(crate::specs::Report::cells_line))]
pub(crate) fn put_cells(out: &mut String, cells: &[u64; 6]) -> Result<(), AllocError>
    ensures { OnOk result (string_bytes out.new ≡ string_bytes out.old ++ cells_line cells.now) }
{
    let [wire, logic, add, choice, table, register] = *cells;
    write!(out, "cells wire {wire} logic {logic} add {add}")?;
    writeln!(out, " choice {choice} table {table} register {register}")?;
    Ok(())
}

fn put_members(out: &mut String, set: &[u32]) -> Result<(), AllocError>
    ensures { OnOk result (string_bytes out.new ≡ string_bytes out.old ++ flat_map member_text set.now) }
{
    for member in set {
        write!(out, " {member}")?;
    }
    Ok(())
}

fn put_members_line(out: &mut String, set: &[u32]) -> Result<(), AllocError>
    ensures { OnOk result (string_bytes out.new ≡ string_bytes out.old ++ members_line set.now) }
{
    out.push_str("graph")?;
    put_members(out, set)?;
    out.push('\n')
}

pub(crate) fn put_graph(out: &mut String, op: &Operator, set: &[u32]) -> Result<(), AllocError>
    ensures { OnOk result (string_bytes out.new ≡ string_bytes out.old ++ graph_line op.now set.now) }
{
    if op.has_graph() {
        put_members_line(out, set)
    } else {
        Ok(())
    }
}
