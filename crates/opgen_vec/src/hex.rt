//! Words in hexadecimal.
ghost use Rattle.std.specs.Prelude.{◌≡◌, ◌/◌, ◌%◌, ◌++◌, ◌≤◌, ◌<◌, ◌^◌, ◌*◌, ◌+◌, length, vec_len, vec_capacity, IfSome};
ghost use Rattle.std.specs.Char.{digit_char};
ghost use Rattle.opgen_num.specs.declared.format.TheConstants.{MAX_WIDTH};
ghost use Rattle.opgen_vec.specs.Rows.{digit_count, word_text};
ghost use Rattle.opgen_vec.specs.Digits.{hex_value, word_at};

use crate::WORD_NUMBERS;

/// How many digits a word of so many bits has.
pub(crate) fn digit_count(width: u32) -> usize
    ensures { result ≡ digit_count width }
{
    (width as usize + 3) / 4
}

fn hex_value(digits: &[u8]) -> Option<u128>
    requires { length digits.now ≤ digit_count MAX_WIDTH }
    ensures value { result ≡ hex_value 0 digits.now }
    ensures small { IfSome result (λ n. n < 16 ^ length digits.now) }
{
    let mut value = 0u128;
    for byte in digits {
        let digit = (*byte as char).to_digit(16)?;
        value = value * 16 + digit as u128;
    }
    Some(value)
}

/// The word of this width at the front of a text, if one of exactly its digits stands there.
pub(crate) fn word_at(text: &[u8], width: u32) -> Option<u128>
    requires { width ≤ MAX_WIDTH }
    ensures { result ≡ word_at width text.now }
{
    let digits = digit_count(width);
    if text.len() < digits {
        return None;
    }
    let value = hex_value(&text[..digits])?;
    if value < 1 << width {
        Some(value)
    } else {
        None
    }
}

const DIGITS: [u8; 16] = *b"0123456789abcdef";

fn digit_char(digit: u8) -> u8
    requires { digit < 16 }
    ensures { result ≡ digit_char digit }
{
    DIGITS[digit as usize]
}

// The digit at a place, counted from the lowest.
fn digit_at(cell: u128, place: usize) -> u8
    ensures { result ≡ cell / 16 ^ place % 16 }
{
    if place < 16 {
        (((cell % WORD_NUMBERS) as u64 >> (4 * place)) % 16) as u8
    } else if place < 32 {
        (((cell / WORD_NUMBERS) as u64 >> (4 * (place - 16))) % 16) as u8
    } else {
        0
    }
}

/// Appends the word of this width. There is room for its digits.
pub(crate) fn put_word(out: &mut Vec<u8>, width: u32, cell: u128)
    requires room { vec_len out.old + digit_count width ≤ vec_capacity out.old }
    ensures { out.new.items ≡ out.old.items ++ word_text width cell }
{
    let mut place = digit_count(width);
    'places: while place > 0 {
        place -= 1;
        out.push_reserved(digit_char(digit_at(cell, place)));
    }
}
