//! Parses decimal texts such as `-0.125` as whole numbers over a power of ten.
ghost use Rattle.std.specs.Prelude.{◌≡◌, ◌==◌, position, ◌+◌, ◌*◌, ◌<◌, ◌≤◌, ◌^◌, [], length, IsTrue, IfSome};
ghost use Rattle.std.specs.Char.{is_ascii_digit};
ghost use Rattle.std.specs.List.{list_all};
ghost use Rattle.opgen_document.specs.Numbers.{are_digits, are_parts, digits_from, decimal_with, cut_at, unsigned_decimal, decimal_of, numerator, scaled};

/// A decimal text: its sign, the number that its digits give without the point, and how many of
/// them stand after the point.
#[derive(Clone, Copy)]
pub(crate) struct Decimal {
    pub negative: bool,
    pub digits: u64,
    pub places: u32,
}

const MAX_DIGITS: usize = 9;

fn all_are_digits(bytes: &[u8]) -> bool
    ensures { result ≡ list_all is_ascii_digit bytes.now }
{
    bytes.iter().all(|byte| byte.is_ascii_digit())
}

fn are_digits(bytes: &[u8]) -> bool
    ensures { result ≡ are_digits bytes.now }
{
    !bytes.is_empty() && all_are_digits(bytes)
}

// The number that digits give, read on from a number.
fn digits_from(start: u64, digits: &[u8]) -> u64
    requires digits { IsTrue (list_all is_ascii_digit digits.now) }
    requires small { (start + 1) * 10 ^ length digits.now ≤ 10 ^ 9 }
    ensures value { result ≡ digits_from start digits.now }
    ensures bound { result + 1 ≤ (start + 1) * 10 ^ length digits.now }
{
    let mut number = start;
    'digits: for digit in digits {
        number = number * 10 + (*digit - b'0') as u64;
    }
    number
}

fn are_parts(whole: &[u8], places: &[u8]) -> bool
    ensures value { result ≡ are_parts whole.now places.now }
    ensures whole { IsTrue result → IsTrue (list_all is_ascii_digit whole.now) }
    ensures places { IsTrue result → IsTrue (list_all is_ascii_digit places.now) }
    ensures few { IsTrue result → length whole.now + length places.now ≤ 9 }
{
    are_digits(whole) && all_are_digits(places) && whole.len() + places.len() <= MAX_DIGITS
}

fn decimal_with(negative: bool, whole: &[u8], places: &[u8]) -> Option<Decimal>
    ensures value { result ≡ decimal_with negative whole.now places.now }
    ensures digits { IfSome result (λ d. d.digits < 10 ^ 9) }
    ensures places { IfSome result (λ d. d.places ≤ 9) }
{
    if !are_parts(whole, places) {
        return None;
    }
    let units = digits_from(0, whole);
    Some(Decimal {
        negative,
        digits: digits_from(units, places),
        places: places.len() as u32,
    })
}

// The parts before and after the point at a place.
fn cut_at(negative: bool, body: &[u8], point: Option<usize>) -> Option<Decimal>
    requires { IfSome point (λ at. at < length body.now) }
    ensures value { result ≡ cut_at negative body.now point }
    ensures digits { IfSome result (λ d. d.digits < 10 ^ 9) }
    ensures places { IfSome result (λ d. d.places ≤ 9) }
{
    match point {
        None => decimal_with(negative, body, &[]),
        Some(at) if at + 1 < body.len() => decimal_with(negative, &body[..at], &body[at + 1..]),
        Some(_) => None,
    }
}

fn point_in(body: &[u8]) -> Option<usize>
    ensures value { result ≡ position (λ byte. byte == 46) body.now }
    ensures within { IfSome result (λ at. at < length body.now) }
{
    body.iter().position(|byte| *byte == b'.')
}

// A decimal text without its sign.
fn unsigned_decimal(negative: bool, body: &[u8]) -> Option<Decimal>
    ensures value { result ≡ unsigned_decimal negative body.now }
    ensures digits { IfSome result (λ d. d.digits < 10 ^ 9) }
    ensures places { IfSome result (λ d. d.places ≤ 9) }
{
    cut_at(negative, body, point_in(body))
}

/// The parts of a decimal text: an optional `-`, digits, and optionally a point with more digits,
/// of one to nine digits in all.
pub(crate) fn decimal_of(text: &str) -> Option<Decimal>
    ensures value { result ≡ decimal_of text.now }
    ensures digits { IfSome result (λ d. d.digits < 10 ^ 9) }
    ensures places { IfSome result (λ d. d.places ≤ 9) }
{
    match text.as_bytes() {
        [] => None,
        [b'-', body @ ..] => unsigned_decimal(true, body),
        body => unsigned_decimal(false, body),
    }
}

fn scaled(decimal: Decimal, power: u32) -> u64
    requires digits { decimal.digits < 10 ^ 9 }
    requires power { power ≤ 9 }
    ensures value { result ≡ scaled power decimal }
    ensures bound { result < 10 ^ 18 }
{
    decimal.digits * 10u64.pow(power.saturating_sub(decimal.places))
}

/// The number times ten to a power, less by its digits after the point.
pub(crate) fn numerator(decimal: Decimal, power: u32) -> i64
    requires digits { decimal.digits < 10 ^ 9 }
    requires power { power ≤ 9 }
    ensures { result ≡ numerator power decimal }
{
    let scaled = scaled(decimal, power) as i64;
    if decimal.negative { -scaled } else { scaled }
}
