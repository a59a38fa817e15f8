//! Tests of good roundings, quotients and roots at the limits of 128 bits, and of the least format that holds two numbers.
use opgen_num::{
    Format, FormatFault, Mode, cover, good_linear, good_root, is_quotient, is_root, least_width,
};

/// A numerator, a denominator, a number, a mode, and whether the number is good for the fraction in the mode.
static FRACTIONS: [(i128, i128, i128, Mode, bool); 19] = [
    (7, 2, 4, Mode::Faithful, true),
    (6, 2, 4, Mode::Faithful, false),
    (i128::MAX, 1, i128::MAX, Mode::Exact, true),
    (i128::MAX, i128::MAX, i128::MAX, Mode::Faithful, false),
    (i128::MIN, i128::MAX, 0, Mode::Faithful, false),
    (i128::MIN, i128::MAX, -1, Mode::Faithful, true),
    (i128::MIN, i128::MAX, -2, Mode::Faithful, true),
    (i128::MIN, i128::MAX, -3, Mode::Faithful, false),
    (i128::MIN, i128::MAX, -1, Mode::Exact, false),
    (-3, 2, -2, Mode::Down, true),
    (-3, 2, -1, Mode::Down, false),
    (-3, 2, -1, Mode::Nearest, true),
    (-3, 2, -2, Mode::Nearest, false),
    (3, 2, 2, Mode::Nearest, true),
    (29, 2, 15, Mode::Nearest, true),
    (29, 2, 14, Mode::Down, true),
    (i128::MIN, i128::MAX, -2, Mode::Down, true),
    (i128::MIN, i128::MAX, -1, Mode::Nearest, true),
    (i128::MAX, 1, i128::MAX, Mode::Nearest, true),
];

#[test]
fn fractions(rt: HostRuntime) {
    for (n, m, y, mode, good) in &FRACTIONS {
        assert!(rt; *m > 0);
        assert_eq!(rt; good_linear(*n, *m, *y, *mode), *good, "{n} {m} {y}");
    }
}

/// The square root of 2 to the power of 128.
const HALF: u128 = 1 << 64;

/// A numerator, a denominator, a quotient, a remainder, and whether they are those of the division.
static QUOTIENTS: [(u128, u128, u128, u128, bool); 5] = [
    (100, 7, 14, 2, true),
    (100, 7, 13, 9, false),
    (0, 0, 0, 0, false),
    (u128::MAX, u128::MAX, 1, 0, true),
    (u128::MAX, u128::MAX, u128::MAX, u128::MAX, false),
];

/// A number, a root, a remainder, and whether they are those of the number.
static ROOTS_WITH_RESTS: [(u128, u128, u128, bool); 4] = [
    (200, 14, 4, true),
    (200, 13, 31, false),
    (u128::MAX, HALF - 1, 2 * (HALF - 1), true),
    (u128::MAX, u128::MAX, u128::MAX, false),
];

#[test]
fn remainders(rt: HostRuntime) {
    for (n, b, q, r, good) in &QUOTIENTS {
        assert_eq!(rt; is_quotient(*n, *b, *q, *r), *good, "{n} {b} {q} {r}");
    }
    for (n, y, r, good) in &ROOTS_WITH_RESTS {
        assert_eq!(rt; is_root(*n, *y, *r), *good, "{n} {y} {r}");
    }
}

/// A number, a rounding of its root, and whether it is good.
static ROOTS: [(u128, u128, bool); 9] = [
    (0, 0, true),
    (0, 1, false),
    (16, 3, false),
    (16, 4, true),
    (16, 5, false),
    (u128::MAX, HALF - 1, true),
    (u128::MAX, HALF, true),
    (u128::MAX, HALF + 1, false),
    (u128::MAX, u128::MAX, false),
];

#[test]
fn roots(rt: HostRuntime) {
    for (n, y, good) in &ROOTS {
        assert_eq!(rt; good_root(*n, *y), *good, "{n} {y}");
    }
}

/// Half of the numbers of the widest format.
const HALF_RANGE: i128 = 1 << 95;

/// Two numbers, a last place, and the sign and the width of the least format that holds both, if there is one.
static FORMATS: [(i128, i128, i32, Option<(bool, u32)>); 7] = [
    (0, 0, 0, Some((false, 1))),
    (-1, 0, 0, Some((true, 2))),
    (-HALF_RANGE, HALF_RANGE - 1, 64, Some((true, 96))),
    (-HALF_RANGE, HALF_RANGE, 0, None),
    (0, 2 * HALF_RANGE - 1, -64, Some((false, 96))),
    (0, 2 * HALF_RANGE, 0, None),
    (i128::MIN, i128::MAX, 0, None),
];

// Whether a format has this sign, width and last place, or there is none.
fn is_format(found: Option<Format>, least: Option<(bool, u32)>, lsb: i32) -> bool {
    match (found, least) {
        (Some(found), Some((signed, width))) => found == Format { signed, width, lsb },
        (None, None) => true,
        _ => false,
    }
}

#[test]
fn least_formats(rt: HostRuntime) {
    for (low, high, lsb, least) in &FORMATS {
        assert!(rt; *low <= *high && -64 <= *lsb && *lsb <= 64);
        let found = cover(*low, *high, *lsb);
        assert!(rt; is_format(found, *least, *lsb), "{low} {high}");
    }
    assert_eq!(rt; least_width(i128::MIN, i128::MAX), 128);
    assert_eq!(rt; least_width(i128::MAX, i128::MAX), 127);
}

/// The sign, the width and the last place of a format, and its fault, if there is one.
static FAULTS: [(bool, u32, i32, Option<FormatFault>); 8] = [
    (true, 2, -64, None),
    (false, 96, 64, None),
    (false, 0, 0, Some(FormatFault::Width)),
    (true, 1, 0, Some(FormatFault::Width)),
    (false, 97, 0, Some(FormatFault::Width)),
    (false, 1, -65, Some(FormatFault::Lsb)),
    (false, 1, 65, Some(FormatFault::Lsb)),
    (true, 1, 65, Some(FormatFault::Width)),
];

#[test]
fn faults_of_formats(rt: HostRuntime) {
    for (signed, width, lsb, fault) in &FAULTS {
        assert_eq!(rt;
            Format::new(*signed, *width, *lsb).err(),
            *fault,
            "{width} {lsb}"
        );
    }
}
