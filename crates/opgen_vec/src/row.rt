//! Rows of words, one line each.
ghost use Rattle.std.specs.Prelude.{◌≡◌, ◌==◌, ◌≤◌, ◌<◌, ◌+◌, ◌-◌, ◌∷◌, All, length, take, drop, Some, None, IfOk, MatchBool};
ghost use Rattle.std.specs.List.{position_or_len};
ghost use Rattle.std.specs.Str.Lines.{lines, strip_carriage_return};
ghost use Rattle.opgen_num.specs.declared.format.TheConstants.{MAX_WIDTH};
ghost use Rattle.opgen_vec.specs.Rows.{digit_count};
ghost use Rattle.opgen_vec.specs.Digits.{spaced_word_at, row_cells};

use crate::hex::{digit_count, word_at};
use std::alloc::AllocError;

fn without_return(line: &[u8]) -> &[u8]
    ensures { result.now ≡ strip_carriage_return line.now }
{
    match line {
        [before @ .., b'\r'] => before,
        _ => line,
    }
}

fn line_len(text: &[u8]) -> usize
    ensures value { result ≡ position_or_len (λ byte. byte == 10) text.now }
    ensures within { result ≤ length text.now }
{
    text.iter().take_while(|byte| **byte != b'\n').count()
}

/// The first line of a text without what ends it, and the text after it.
pub(crate) fn split_line(text: &[u8]) -> (&[u8], &[u8])
    requires { 0 < length text.now }
    ensures lines { lines text.now ≡ result.0.now ∷ lines result.1.now }
    ensures shorter { length result.1.now < length text.now }
{
    let len = line_len(text);
    if len < text.len() {
        (without_return(&text[..len]), &text[len + 1..])
    } else {
        (text, &text[len..])
    }
}

fn spaced_word_at(text: &[u8], width: u32) -> Option<u128>
    requires { width ≤ MAX_WIDTH }
    ensures { result ≡ spaced_word_at width text.now }
{
    match text {
        [b' ', word @ ..] => word_at(word, width),
        _ => None,
    }
}

/// Appends the cells of a row, if the line is one.
pub(crate) fn read_row(
    line: &[u8],
    widths: &[u32],
    cells: &mut Vec<u128>,
) -> Result<bool, AllocError>
    requires { All (λ width. width ≤ MAX_WIDTH) widths.now }
    ensures kept { IfOk result (λ good. take (length cells.old.items) cells.new.items ≡ cells.old.items) }
    ensures cells { IfOk result (λ good. MatchBool good
        (row_cells widths.now line.now ≡ Some (drop (length cells.old.items) cells.new.items))
        (row_cells widths.now line.now ≡ None)) }
{
    let Some((first, others)) = widths.split_first() else {
        return Ok(line.is_empty());
    };
    let Some(cell) = word_at(line, *first) else {
        return Ok(false);
    };
    cells.reserve(widths.len())?;
    cells.push_reserved(cell);
    let mut rest = &line[digit_count(*first)..];
    for width in others {
        let Some(cell) = spaced_word_at(rest, *width) else {
            return Ok(false);
        };
        cells.push_reserved(cell);
        rest = &rest[1 + digit_count(*width)..];
    }
    Ok(rest.is_empty())
}
