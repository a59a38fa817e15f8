//! The numbers of ports in a cycle and before it, and their sums, each times a coefficient.
ghost use Rattle.std.specs.Prelude.{◌≡◌, ◌+◌, ◌≤◌, ◌^◌, ℤ, ◌≤ℤ◌, ◌<◌, pos, length, ◌*ℤ◌, All, unsigned_abs, false};
ghost use Rattle.opgen_ports.specs.Ports.{number_of, recent_numbers, IsHistory, weighted, one_input, two_inputs};
ghost use Rattle.opgen_ports.specs.Ranges.{IsInput, IsWithin};
ghost use Rattle.opgen_ports.specs.Spans.{IsOf};

use opgen_num::{Format, MAX_INPUT, MAX_NUMERATOR, MAX_TAPS, MAX_WIDTH, Word};

/// The number of an input's word.
pub fn input(format: Format, bits: u128) -> i128
    requires format { IsInput format }
    requires bits { bits < 2 ^ format.width }
    ensures value { result ≡ number_of format bits }
    ensures bound { unsigned_abs result ≤ 2 ^ format.width }
    ensures of { IsOf format result }
    ensures unsigned { format.signed ≡ false → pos 0 ≤ℤ result }
{
    format.value(Word::new(bits, format.width))
}

/// The number of an output's word.
pub fn output(format: Format, bits: u128) -> i128
    requires least { 1 ≤ format.width }
    requires most { format.width ≤ MAX_WIDTH }
    requires bits { bits < 2 ^ format.width }
    ensures { result ≡ number_of format bits }
{
    format.value(Word::new(bits, format.width))
}

/// The number of the only input some cycles ago, 0 before cycle 0.
pub fn recent(format: Format, history: &[u128], ago: usize) -> i128
    requires format { IsInput format }
    requires history { IsHistory (one_input format) history.now }
    ensures value { result ≡ recent_numbers (one_input format) history.now 0 ago }
    ensures bound { unsigned_abs result ≤ 2 ^ format.width }
    ensures of { IsOf format result }
{
    if ago < history.len() {
        input(format, history[history.len() - 1 - ago])
    } else {
        0
    }
}

/// The numbers of two inputs in the last cycle.
pub fn last_two(a: Format, b: Format, history: &[u128]) -> (i128, i128)
    requires a { IsInput a }
    requires b { IsInput b }
    requires history { IsHistory (two_inputs a b) history.now }
    ensures first { result.0 ≡ recent_numbers (two_inputs a b) history.now 0 0 }
    ensures second { result.1 ≡ recent_numbers (two_inputs a b) history.now 1 0 }
    ensures first_of { IsOf a result.0 }
    ensures second_of { IsOf b result.1 }
    ensures unsigned { b.signed ≡ false → pos 0 ≤ℤ result.1 }
{
    let first = history.len() - 2;
    (input(a, history[first]), input(b, history[first + 1]))
}

/// The last inputs, each times its coefficient.
pub fn weighted(format: Format, coefs: &[i64], history: &[u128]) -> i128
    requires format { IsInput format }
    requires few { length coefs.now ≤ MAX_TAPS }
    requires small { All (IsWithin MAX_NUMERATOR) coefs.now }
    requires history { IsHistory (one_input format) history.now }
    ensures value { result ≡ weighted coefs.now (recent_numbers (one_input format) history.now 0) }
    ensures bound { unsigned_abs result ≤ 2 ^ (format.width + 38) }
{
    let mut total = 0;
    let mut ago = 0;
    'coefs: for coef in coefs {
        total += product(recent(format, history, ago), *coef);
        ago += 1;
    }
    total
}

/// An input times a coefficient.
pub fn product(n: i128, coef: i64) -> i128
    requires input { unsigned_abs n ≤ 2 ^ MAX_INPUT }
    requires coef { unsigned_abs coef ≤ MAX_NUMERATOR }
    ensures { result ≡ n *ℤ coef }
{
    n * i128::from(coef)
}
