//! Why a specification is rejected, and how the error prints.
ghost use Rattle.std.specs.Prelude.{◌≡◌, ◌++◌, codes, Some};
ghost use Rattle.std.specs.Fmt.{decimal, signed_decimal, WritesOnOk};
ghost use Rattle.opgen_spec.specs.Texts.{place_text, fault_text};

use opgen_document::Key;
use std::alloc::AllocError;
use std::error::Error;
use std::fmt;

/// Why a document is no specification. `line` is 0 for a key of the document, and else the number
/// of a line of one of its arrays, as a delay line, from 1.
#[derive(Clone, Copy, Debug, Drop)]
pub enum SpecFault {
    NotToml,
    /// `at` is the place of the key among those of its table in byte order, from 0. The lines of the
    /// arrays are counted on, from one array to the next.
    UnknownKey { line: u64, at: u64 },
    MissingKey { key: Key, line: u64 },
    WrongType { key: Key, line: u64 },
    /// The version is none of 1 to 4, or no circuits are made yet as the document asks for them.
    BadVersion { found: i64 },
    BadName,
    BadKind,
    /// `found` is the number, or the length of a list or a text, or the number of the line whose
    /// class is none, or whose name of an input cannot be taken.
    OutOfRange { key: Key, line: u64, found: i64 },
    /// Of the first coefficient, tap or term that is not whole in units of the output's last place.
    NotExact { index: u32 },
    Coarse { shift: i32 },
    /// `need` is the number of bits of the widest signal.
    TooWide { need: u32 },
    Memory,
}

/// A key and the number of its line, if it is a line's.
#[derive(Clone, Copy)]
struct Place {
    key: Key,
    line: u64,
}

impl fmt::Display for Place {
    ghost output = { λ place. Some (place_text place) };

    fn fmt<W: fmt::Write>(&self, f: &mut fmt::Formatter<W>) -> fmt::Result {
        if self.line == 0 {
            write!(f, "{}", self.key)
        } else {
            write!(f, "{} {}", self.key, self.line)
        }
    }
}

// Writes the name of an error and its number.
fn write_number<W: fmt::Write>(f: &mut fmt::Formatter<W>, name: &str, number: i64) -> fmt::Result
    ensures { WritesOnOk W.write_str_gives f.old result (name.now ++ codes " " ++ signed_decimal number) f.new }
{
    write!(f, "{name} {number}")
}

// Writes the name of an error and its key.
fn write_place<W: fmt::Write>(f: &mut fmt::Formatter<W>, name: &str, place: Place) -> fmt::Result
    ensures { WritesOnOk W.write_str_gives f.old result (name.now ++ codes " " ++ place_text place) f.new }
{
    write!(f, "{name} {place}")
}

fn write_unknown<W: fmt::Write>(f: &mut fmt::Formatter<W>, line: u64, at: u64) -> fmt::Result
    ensures { WritesOnOk W.write_str_gives f.old result (codes "UnknownKey " ++ decimal line ++ codes " " ++ decimal at) f.new }
{
    write!(f, "UnknownKey {line} {at}")
}

fn write_found<W: fmt::Write>(f: &mut fmt::Formatter<W>, place: Place, found: i64) -> fmt::Result
    ensures { WritesOnOk W.write_str_gives f.old result
        (codes "OutOfRange " ++ place_text place ++ codes " " ++ signed_decimal found) f.new }
{
    write!(f, "OutOfRange {place} {found}")
}

impl fmt::Display for SpecFault {
    ghost output = { λ fault. Some (fault_text fault) };

    fn fmt<W: fmt::Write>(&self, f: &mut fmt::Formatter<W>) -> fmt::Result {
        match *self {
            SpecFault::NotToml => f.write_str("NotToml"),
            SpecFault::UnknownKey { line, at } => write_unknown(f, line, at),
            SpecFault::MissingKey { key, line } => write_place(
                f,
                "MissingKey",
                Place { key, line },
            ),
            SpecFault::WrongType { key, line } => write_place(f, "WrongType", Place { key, line }),
            SpecFault::BadVersion { found } => write_number(f, "BadVersion", found),
            SpecFault::BadName => f.write_str("BadName"),
            SpecFault::BadKind => f.write_str("BadKind"),
            SpecFault::OutOfRange { key, line, found } => {
                write_found(f, Place { key, line }, found)
            }
            SpecFault::NotExact { index } => write_number(f, "NotExact", i64::from(index)),
            SpecFault::Coarse { shift } => write_number(f, "Coarse", i64::from(shift)),
            SpecFault::TooWide { need } => write_number(f, "TooWide", i64::from(need)),
            SpecFault::Memory => f.write_str("out of memory"),
        }
    }
}

impl Error for SpecFault {}

impl From<AllocError> for SpecFault {
    ghost use Rattle.opgen_spec.specs.declared.fault.SpecFault.TheVariants as faults;

    ghost from_gives = { λ _ fault. fault ≡ faults.Memory };

    fn from(_refused: AllocError) -> SpecFault {
        SpecFault::Memory
    }
}
