//! Recognizes what is at the front of a text: white space, a comment, or one token of the VHDL subset.

ghost use Rattle.std.specs.Prelude.{◌≡◌, ◌==◌, ◌≤◌, length, take, drop, ◌&&◌, Some, None, if◌then◌else◌};
ghost use Rattle.std.specs.Char.{is_ascii_digit};
ghost use Rattle.std.specs.List.{prefix_len};
ghost use Rattle.opgen_vhdl.specs.Tokens.{is_white, is_word_byte, is_bit, is_in_line, is_underscore, has_single_underscores, begins};
ghost use Rattle.opgen_vhdl.specs.Fronts.{front_of, word_front, number_front, bits_front, char_front, hyphen_front, mark_front, FrontStands};

use opgen_names::MAX_NAME_LEN;
use opgen_num::MAX_WIDTH;
use opgen_vhdl::{Front, TokenKind};

const MAX_DIGITS: usize = 9;

fn is_white(byte: u8) -> bool
    ensures { result ≡ is_white byte }
{
    matches!(byte, b' ' | b'\t' | b'\r' | b'\n')
}

fn is_word_byte(byte: u8) -> bool
    ensures { result ≡ is_word_byte byte }
{
    byte.is_ascii_alphabetic() || byte.is_ascii_digit() || byte == b'_'
}

pub fn is_bit(byte: u8) -> bool
    ensures { result ≡ is_bit byte }
{
    byte == b'0' || byte == b'1'
}

fn white_len(bytes: &[u8]) -> usize
    ensures value { result ≡ prefix_len is_white bytes.now }
    ensures within { result ≤ length bytes.now }
{
    bytes.iter().take_while(|b| is_white(**b)).count()
}

/// The bytes behind the white space at the front.
pub fn behind_white(bytes: &[u8]) -> &[u8]
    ensures { result.now ≡ drop (prefix_len is_white bytes.now) bytes.now }
{
    let (_white, behind) = bytes.split_at(white_len(bytes));
    behind
}

// Whether an underscore stands behind another.
fn is_second(byte: u8, underscore: bool) -> bool
    ensures { result ≡ (is_underscore byte && underscore) }
{
    byte == b'_' && underscore
}

fn is_underscore(byte: u8) -> bool
    ensures { result ≡ is_underscore byte }
{
    byte == b'_'
}

// The length of a word that ends behind an underscore or another byte.
fn ended(len: usize, underscore: bool) -> Option<usize>
    ensures { result ≡ (if underscore then None else Some len) }
{
    if underscore { None } else { Some(len) }
}

// The length of the word at the front, if its underscores are single.
fn word_len(bytes: &[u8]) -> Option<usize>
    ensures { let n = prefix_len is_word_byte bytes.now in result ≡ (if has_single_underscores (take n bytes.now) then Some n else None) }
{
    let mut len = 0;
    let mut underscore = false;
    'bytes: while len < bytes.len() {
        let byte = bytes[len];
        if !is_word_byte(byte) {
            return ended(len, underscore);
        }
        if is_second(byte, underscore) {
            return None;
        }
        underscore = is_underscore(byte);
        len += 1;
    }
    ended(len, underscore)
}

fn digits_len(bytes: &[u8]) -> usize
    ensures value { result ≡ prefix_len is_ascii_digit bytes.now }
    ensures within { result ≤ length bytes.now }
{
    bytes.iter().take_while(|b| b.is_ascii_digit()).count()
}

fn bits_len(bytes: &[u8]) -> usize
    ensures value { result ≡ prefix_len is_bit bytes.now }
    ensures within { result ≤ length bytes.now }
{
    bytes.iter().take_while(|b| is_bit(**b)).count()
}

// How many bytes stand before the next line feed or the end.
fn line_len(bytes: &[u8]) -> usize
    ensures value { result ≡ prefix_len is_in_line bytes.now }
    ensures within { result ≤ length bytes.now }
{
    bytes.iter().take_while(|b| **b != b'\n').count()
}

// The word at the front of bytes that begin with a letter.
fn word_front(bytes: &[u8]) -> Option<Front>
    ensures { result ≡ word_front bytes.now }
{
    let len = word_len(bytes)?;
    if len <= MAX_NAME_LEN {
        Some(Front::Token(TokenKind::Word, len))
    } else {
        None
    }
}

fn begins_with_word_byte(bytes: &[u8]) -> bool
    ensures { result ≡ begins is_word_byte bytes.now }
{
    match bytes {
        [] => false,
        [b, ..] => is_word_byte(*b),
    }
}

fn begins_with(bytes: &[u8], byte: u8) -> bool
    ensures { result ≡ begins (λ b. b == byte) bytes.now }
{
    match bytes {
        [] => false,
        [b, ..] => *b == byte,
    }
}

// The number at the front of bytes that begin with a digit.
fn number_front(bytes: &[u8]) -> Option<Front>
    ensures { result ≡ number_front bytes.now }
{
    let len = digits_len(bytes);
    if len <= MAX_DIGITS && !begins_with_word_byte(&bytes[len..]) {
        Some(Front::Token(TokenKind::Number, len))
    } else {
        None
    }
}

// The bit string whose opening quote these bytes follow.
fn bits_front(bytes: &[u8]) -> Option<Front>
    ensures { result ≡ bits_front bytes.now }
{
    let len = bits_len(bytes);
    if 1 <= len && len <= MAX_WIDTH as usize && begins_with(&bytes[len..], b'"') {
        Some(Front::Token(TokenKind::Bits, len + 2))
    } else {
        None
    }
}

// The character literal whose opening quote these bytes follow.
fn char_front(bytes: &[u8]) -> Option<Front>
    ensures { result ≡ char_front bytes.now }
{
    match bytes {
        [b'0', b'\'', ..] => Some(Front::Token(TokenKind::ZeroChar, 3)),
        _ => None,
    }
}

// The comment or the minus whose first hyphen these bytes follow.
fn hyphen_front(bytes: &[u8]) -> Option<Front>
    ensures { result ≡ hyphen_front bytes.now }
{
    match bytes {
        [b'-', line @ ..] => Some(Front::Gap(2 + line_len(line))),
        _ => Some(Front::Token(TokenKind::Minus, 1)),
    }
}

// The mark that begins with that byte, which these bytes follow.
fn mark_front(first: u8, bytes: &[u8]) -> Option<Front>
    ensures { result ≡ mark_front first bytes.now }
{
    match first {
        b'(' => Some(Front::Token(TokenKind::LeftParen, 1)),
        b')' => Some(Front::Token(TokenKind::RightParen, 1)),
        b';' => Some(Front::Token(TokenKind::Semicolon, 1)),
        b',' => Some(Front::Token(TokenKind::Comma, 1)),
        b'.' => Some(Front::Token(TokenKind::Dot, 1)),
        b'&' => Some(Front::Token(TokenKind::Ampersand, 1)),
        b'+' => Some(Front::Token(TokenKind::Plus, 1)),
        b':' if begins_with(bytes, b'=') => Some(Front::Token(TokenKind::Becomes, 2)),
        b':' => Some(Front::Token(TokenKind::Colon, 1)),
        b'=' if begins_with(bytes, b'>') => Some(Front::Token(TokenKind::Arrow, 2)),
        b'=' => Some(Front::Token(TokenKind::Equal, 1)),
        b'<' if begins_with(bytes, b'=') => Some(Front::Token(TokenKind::LessEqual, 2)),
        _ => None,
    }
}

#[inline(always)]
fn front_of(bytes: &[u8]) -> Option<Front>
    ensures { result ≡ front_of bytes.now }
{
    let (first, rest) = bytes.split_first()?;
    match *first {
        b if is_white(b) => Some(Front::Gap(1)),
        b if b.is_ascii_alphabetic() => word_front(bytes),
        b if b.is_ascii_digit() => number_front(bytes),
        b'"' => bits_front(rest),
        b'\'' => char_front(rest),
        b'-' => hyphen_front(rest),
        b => mark_front(b, rest),
    }
}

/// What the bytes begin with, if anything stands there.
#[inline(always)]
pub fn leading(bytes: &[u8]) -> Option<Front>
    ensures { FrontStands bytes.now result }
{
    front_of(bytes)
}

/// What stands at that offset of the text, if anything does.
pub fn front_at(bytes: &[u8], at: usize) -> Option<Front>
    requires { at ≤ length bytes.now }
    ensures { FrontStands (drop at bytes.now) result }
{
    front_of(&bytes[at..])
}
