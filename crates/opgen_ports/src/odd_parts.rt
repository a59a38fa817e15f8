//! Counts the different odd parts of some numbers.
ghost use Rattle.std.specs.Prelude.{◌≡◌, ◌<◌, ◌≤◌, length, All};
ghost use Rattle.std.specs.List.{list_any};
ghost use Rattle.opgen_num.specs.declared.limits.TheConstants.{MAX_SEARCHED_CONSTANT, MAX_SEARCHED_TAPS};
ghost use Rattle.opgen_ports.specs.OddParts.{odd_part, has_part, has_part_alone, odd_part_count};
ghost use Rattle.opgen_ports.specs.Ranges.{IsWithin};

// What is left of a number that is divided by 2 as often as it can be.
fn odd_part(number: u32) -> u32
    requires { 0 < number }
    ensures { result ≡ odd_part number }
{
    number >> number.trailing_zeros()
}

// Whether a number is not 0 and has this odd part, its sign aside.
fn has_part(part: u32, number: i64) -> bool
    requires { IsWithin MAX_SEARCHED_CONSTANT number }
    ensures { result ≡ has_part part number }
{
    let number = number.unsigned_abs() as u32;
    number != 0 && odd_part(number) == part
}

fn any_has_part(part: u32, numbers: &[i64]) -> bool
    requires { All (IsWithin MAX_SEARCHED_CONSTANT) numbers.now }
    ensures { result ≡ list_any (has_part part) numbers.now }
{
    'numbers: for number in numbers {
        if has_part(part, *number) {
            return true;
        }
    }
    false
}

// Whether a number is not 0 and none of the others has its odd part.
fn has_part_alone(number: i64, others: &[i64]) -> bool
    requires number { IsWithin MAX_SEARCHED_CONSTANT number }
    requires others { All (IsWithin MAX_SEARCHED_CONSTANT) others.now }
    ensures { result ≡ has_part_alone number others.now }
{
    let magnitude = number.unsigned_abs() as u32;
    magnitude != 0 && !any_has_part(odd_part(magnitude), others)
}

/// How many different odd parts the numbers other than 0 have, their signs aside.
pub fn odd_part_count(numbers: &[i64]) -> u32
    requires few { length numbers.now ≤ MAX_SEARCHED_TAPS }
    requires small { All (IsWithin MAX_SEARCHED_CONSTANT) numbers.now }
    ensures value { result ≡ odd_part_count numbers.now }
    ensures bound { result ≤ length numbers.now }
{
    let mut count = 0;
    let mut place = 0;
    'numbers: for number in numbers {
        place += 1;
        if has_part_alone(*number, &numbers[place..]) {
            count += 1;
        }
    }
    count
}
