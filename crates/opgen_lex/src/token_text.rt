//! Reads the texts of tokens: compares words in any case, and converts numbers and bit strings.

ghost use Rattle.std.specs.Prelude.{◌≡◌, ◌+◌, ◌≤◌, ◌<◌, IsTrue, IfSome, map, length, nat_lt, Some, None, if◌then◌else◌, ◌∷◌};
ghost use Rattle.std.specs.Char.{to_ascii_lowercase, is_ascii_digit};
ghost use Rattle.std.specs.List.{list_all};
ghost use Rattle.std.specs.Str.{bytes_eq};
ghost use Rattle.opgen_num.specs.declared.format.TheConstants.{MAX_WIDTH};
ghost use Rattle.opgen_vhdl.specs.Grammar.{value};
ghost use Rattle.opgen_vhdl.specs.Reader.{same_kind, rank};
ghost use Rattle.opgen_vhdl.specs.Symbols.{bits_in};

use crate::front::is_bit;
use opgen_num::{MAX_WIDTH, Word};
use opgen_vhdl::TokenKind;

// The number of the highest bit of a signal.
const MAX_INDEX: u32 = MAX_WIDTH - 1;

fn rank(kind: TokenKind) -> u8
    ensures { result ≡ rank kind }
{
    kind as u8
}

/// Whether two tokens are of one kind.
pub fn same_kind(a: TokenKind, b: TokenKind) -> bool
    ensures { result ≡ same_kind a b }
{
    rank(a) == rank(b)
}

/// Whether a text is this word, in letters of any case.
pub fn same_word(word: &str, text: &[u8]) -> bool
    ensures { result ≡ bytes_eq (map to_ascii_lowercase word.now) (map to_ascii_lowercase text.now) }
{
    word.as_bytes().eq_ignore_ascii_case(text)
}

/// The number that digits give, where it is the number of a bit of a signal.
pub fn index_of(digits: &[u8]) -> Option<u32>
    requires { IsTrue (list_all is_ascii_digit digits.now) }
    ensures value { result ≡ (if nat_lt (value digits.now) MAX_WIDTH then Some (value digits.now) else None) }
    ensures most { IfSome result (λ i. i < MAX_WIDTH) }
{
    let mut index = 0;
    'digits: for digit in digits {
        index = index * 10 + (*digit - b'0') as u32;
        if index > MAX_INDEX {
            return None;
        }
    }
    Some(index)
}

// A word with a bit below its lowest.
fn with_lowest(word: Word, bit: bool) -> Word
    requires { length word < 128 }
    ensures { result ≡ bit ∷ word }
{
    Word::new(word.bits() * 2 + bit as u128, word.width() + 1)
}

/// The word of a bit string, whose last bit is the lowest.
pub fn word_of(text: &[u8]) -> Word
    requires { length text.now ≤ MAX_WIDTH + 2 }
    ensures { result ≡ bits_in text.now }
{
    let mut word = Word::new(0, 0);
    'bits: for byte in text {
        if is_bit(*byte) {
            word = with_lowest(word, *byte == b'1');
        }
    }
    word
}
