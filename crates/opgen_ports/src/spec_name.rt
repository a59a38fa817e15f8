//! Which names a specification may have.

ghost use Rattle.std.specs.Prelude.{◌≡◌, ◌≤◌, length, IsTrue};
ghost use Rattle.std.specs.List.{list_all};
ghost use Rattle.std.specs.Char.{is_ascii_digit};
ghost use Rattle.opgen_names.specs.Names.{is_allowed_name};
ghost use Rattle.opgen_ports.specs.SpecName.{is_spec_name, is_taken, is_signal_name};

use opgen_names::is_allowed_name;

/// The most bytes that a specification's name has.
pub const MAX_SPEC_NAME_LEN: usize = 32;

static TAKEN: [&str; 18] = [
    "rtl", "clk", "ce", "a", "b", "d", "q", "r", "x", "y", "y0", "y1", "y2", "y3", "y4", "y5",
    "y6", "y7",
];

fn is_taken(name: &str) -> bool
    ensures { result ≡ is_taken name.now }
{
    TAKEN.contains(&name)
}

fn has_only_digits(bytes: &[u8]) -> bool
    ensures { result ≡ list_all is_ascii_digit bytes.now }
{
    bytes.iter().all(|byte| byte.is_ascii_digit())
}

fn is_signal_name(name: &str) -> bool
    ensures { result ≡ is_signal_name name.now }
{
    match name.as_bytes() {
        [b's', digits @ ..] => !digits.is_empty() && has_only_digits(digits),
        _ => false,
    }
}

/// Whether a specification may have the name: it is a name of the VHDL subset, short enough, and
/// none that its design gives to a port, a signal or the architecture.
pub fn is_spec_name(name: &str) -> bool
    ensures value { result ≡ is_spec_name name.now }
    ensures allowed { IsTrue result → IsTrue (is_allowed_name name.now) }
    ensures length { IsTrue result → (1 ≤ length name.now) × (length name.now ≤ 32) }
{
    name.len() <= MAX_SPEC_NAME_LEN
        && is_allowed_name(name)
        && !is_taken(name)
        && !is_signal_name(name)
}
