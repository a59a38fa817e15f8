//! Modes of outputs, by how they are rounded and by whether they are exact.
ghost use Rattle.std.specs.Prelude.{◌≡◌, ◌↔◌, IsTrue};
ghost use Rattle.opgen_ports.specs.Modes.{is_exact, is_faithful, is_marked, mode_of_exact, mode_by, IsExactOrFaithful};

use opgen_num::{Mode, Rounding};

/// The mode of outputs that are exact, or else faithful.
pub fn mode_of_exact(exact: bool) -> Mode
    ensures { result ≡ mode_of_exact exact }
{
    if exact { Mode::Exact } else { Mode::Faithful }
}

/// The mode of outputs whose rounding is chosen, or else of those that are exact or faithful.
pub fn mode_by(rounding: Option<Rounding>, exact: bool) -> Mode
    ensures { result ≡ mode_by rounding exact }
{
    match rounding {
        Some(Rounding::Down) => Mode::Down,
        Some(Rounding::Nearest) => Mode::Nearest,
        None => mode_of_exact(exact),
    }
}

/// Whether outputs of a mode are exact.
pub fn is_exact(mode: Mode) -> bool
    ensures { result ≡ is_exact mode }
{
    match mode {
        Mode::Exact => true,
        Mode::Faithful | Mode::Down | Mode::Nearest => false,
    }
}

/// Whether outputs of a mode are faithful.
pub fn is_faithful(mode: Mode) -> bool
    ensures { result ≡ is_faithful mode }
{
    match mode {
        Mode::Faithful => true,
        Mode::Exact | Mode::Down | Mode::Nearest => false,
    }
}

/// Whether an operator's own mode, if it has one, is exact.
pub fn is_marked(mark: Option<Mode>) -> bool
    ensures { result ≡ is_marked mark }
{
    match mark {
        Some(mode) => is_exact(mode),
        None => false,
    }
}

/// Whether a mode is one of the two that every kind has.
pub fn is_exact_or_faithful(mode: Mode) -> bool
    ensures { IsTrue result ↔ IsExactOrFaithful mode }
{
    match mode {
        Mode::Exact | Mode::Faithful => true,
        Mode::Down | Mode::Nearest => false,
    }
}
