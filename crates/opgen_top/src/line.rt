//! The lines that the program prints.
ghost use Rattle.std.specs.Prelude.{◌≡◌, Some, IfOk, string_bytes};
ghost use Rattle.std.specs.Fmt.{WritesOnOk};
ghost use Rattle.opgen_top.specs.Lines.{line_bytes, line_status, line_text, worked_line, wrote_line};
ghost use Rattle.opgen_top.specs.Statuses.{ComesWithLine};

use crate::status::Status;
use opgen_list::Text;
use opgen_read::ReadFault;
use opgen_spec::SpecFault;
use opgen_vec::VecFault;
use std::alloc::{AllocError, Global};
use std::fmt;

/// The line that an answer prints. It decides the status.
#[derive(Drop)]
pub enum Line {
    /// The VHDL of an operator of this name and the report on it are stored.
    Wrote {
        name: Text,
        latency: u32,
    },
    /// The vectors of an operator of this name are stored, so many rows.
    WroteVectors {
        name: Text,
        cycles: u32,
    },
    /// So many rows of a run are stored.
    Simulated {
        rows: u32,
    },
    /// The filter of the number `n` was planned and run, and so many of its cycles are good.
    Worked {
        n: u32,
        signals: usize,
        latency: u32,
        good: u32,
    },
    /// All rows that were judged are good: so many.
    Good {
        rows: u32,
    },
    Refused(SpecFault),
    UnknownTarget,
    NotAdjustable,
    /// The net of the specification needs a period of so many picoseconds.
    PeriodTooShort {
        need: u64,
    },
    TooLarge,
    Usage,
    ReadFault,
    VhdlRefused(ReadFault),
    /// The ports of the VHDL are not those of the specification.
    Ports,
    VectorsRefused(VecFault),
    /// The first row that was judged and is not good, from 0.
    BadRow {
        row: u32,
    },
    TooLong,
}

impl Line {
    /// The status that comes with the line.
    pub fn status(&self) -> Status
        ensures value { result.0 ≡ line_status self.now }
        ensures listed { ComesWithLine result.0 }
    {
        match self {
            Line::Wrote { .. }
            | Line::WroteVectors { .. }
            | Line::Simulated { .. }
            | Line::Worked { .. }
            | Line::Good { .. } => Status::OK,
            Line::Refused(_)
            | Line::UnknownTarget
            | Line::NotAdjustable
            | Line::PeriodTooShort { .. }
            | Line::TooLarge => Status::SPEC_REFUSED,
            Line::Usage => Status::USAGE,
            Line::ReadFault => Status::READ_FAULT,
            Line::VhdlRefused(_) | Line::Ports => Status::VHDL_REFUSED,
            Line::VectorsRefused(_) => Status::VECTORS_REFUSED,
            Line::BadRow { .. } => Status::BAD_ROW,
            Line::TooLong => Status::TOO_LONG,
        }
    }

    /// The line as it is printed, with its line feed.
    pub fn text(&self, alloc: Global) -> Result<String, AllocError>
        ensures { IfOk result (λ text. string_bytes text ≡ line_bytes self.now) }
    {
        format!(in alloc; "{self}\n")
    }
}

fn write_wrote<W: fmt::Write>(f: &mut fmt::Formatter<W>, name: &str, latency: u32) -> fmt::Result
    ensures { WritesOnOk W.write_str_gives f.old result (wrote_line name.now latency) f.new }
{
    write!(f, "wrote {name}.vhd and ")?;
    write!(f, "{name}.rpt, latency {latency}")
}

fn write_worked<W: fmt::Write>(
    f: &mut fmt::Formatter<W>,
    n: u32,
    signals: usize,
    latency: u32,
    good: u32,
) -> fmt::Result
    ensures { WritesOnOk W.write_str_gives f.old result (worked_line n signals latency good) f.new }
{
    write!(f, "workload {n} signals {signals}")?;
    write!(f, " latency {latency} good {good}")
}

impl fmt::Display for Line {
    ghost output = { λ line. Some (line_text line) };

    fn fmt<W: fmt::Write>(&self, f: &mut fmt::Formatter<W>) -> fmt::Result {
        match self {
            Line::Wrote { name, latency } => write_wrote(f, name.as_str(), *latency),
            Line::WroteVectors { name, cycles } => {
                write!(f, "wrote {}.vec, {cycles} cycles", name.as_str())
            }
            Line::Simulated { rows } => write!(f, "simulated {rows} cycles"),
            Line::Worked {
                n,
                signals,
                latency,
                good,
            } => write_worked(f, *n, *signals, *latency, *good),
            Line::Good { rows } => write!(f, "good {rows}"),
            Line::Refused(fault) => write!(f, "specification: {fault}"),
            Line::UnknownTarget => f.write_str("specification: UnknownTarget"),
            Line::NotAdjustable => f.write_str("specification: NotAdjustable"),
            Line::PeriodTooShort { need } => write!(f, "specification: PeriodTooShort {need}"),
            Line::TooLarge => f.write_str("specification: TooLarge"),
            Line::Usage => {
                f.write_str("usage: opgen COMMAND (generate, vectors, simulate, workload, check)")
            }
            Line::ReadFault => f.write_str("read fault"),
            Line::VhdlRefused(fault) => write!(f, "vhdl: {fault}"),
            Line::Ports => f.write_str("vhdl: Ports"),
            Line::VectorsRefused(fault) => write!(f, "vectors: {fault}"),
            Line::BadRow { row } => write!(f, "row {row} not good"),
            Line::TooLong => f.write_str("too long"),
        }
    }
}
