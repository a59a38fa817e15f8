//! A cursor over the tokens of a text: takes a given word, mark, number or bit string from the front.
ghost use Rattle.std.specs.Prelude.{IsTrue};
ghost use Rattle.opgen_lex.specs.Fits.{fits};

use crate::piece_len::rest_len;
use crate::{first_token, index_of, same_kind, same_word, word_of};
use opgen_num::Word;
use opgen_vhdl::TokenKind;

/// What is left to read of a text: its first token, by its kind, its text and the bytes behind it. A token is cut once, when
/// the cursor before it is made.
#[derive(Clone, Copy)]
pub struct Cursor<'a> {
    first: Option<(TokenKind, &'a [u8], &'a [u8])>,
    ghost fitting: { IsTrue (fits first) },
}

impl<'a> Cursor<'a> {
    ghost use Rattle.std.specs.Prelude.{◌≡◌, IsTrue, IfSome, IfNone, ◌+◌, ◌≤◌, ◌<◌, ◌∷◌, [], length, map, option_map, codes};
    ghost use Rattle.std.specs.Char.{to_ascii_lowercase};
    ghost use Rattle.opgen_num.specs.declared.format.TheConstants.{MAX_WIDTH};
    ghost use Rattle.opgen_vhdl.specs.Symbols.{symbol_of, pieces, mark, word, number};
    ghost use Rattle.opgen_vhdl.specs.Reader.{eat, is_mark, index_at, string_at, end_at};
    ghost use Rattle.opgen_lex.specs.First.{IsPassed};
    ghost use Rattle.opgen_lex.specs.Fits.{has_digits_if_number};
    ghost use Rattle.opgen_lex.specs.Left.{left, symbols_in};

    /// A cursor at the first token of a text.
    pub fn new(bytes: &'a [u8]) -> Cursor<'a>
        ensures { left result ≡ symbols_in bytes.now }
    {
        Cursor {
            first: first_token(bytes),
        }
    }

    /// The kind and the text of the first token, and the bytes behind it.
    #[inline(always)]
    pub fn token(self) -> Option<(TokenKind, &'a [u8], &'a [u8])>
        ensures some { IfSome result (λ x. left self.entry ≡ symbol_of (x.0, x.1.now) ∷ symbols_in x.2.now) }
        ensures none { IfNone result (left self.entry ≡ []) }
        ensures short { IfSome result (λ x. length x.1.now ≤ MAX_WIDTH + 2) }
        ensures numeral { IfSome result (λ x. IsTrue (has_digits_if_number x.0 x.1.now)) }
    {
        self.first
    }

    /// What is left behind this word of the language.
    #[tactic(auto, using(crate::proofs::FirstSymbol::eat_word))]
    #[inline(always)]
    pub fn word(self, text: &str) -> Option<Cursor<'a>>
        ensures { option_map left result ≡ eat (word (map to_ascii_lowercase text.now)) (left self.entry) }
    {
        let (kind, found, behind) = self.token()?;
        if same_kind(kind, TokenKind::Word) && same_word(text, found) {
            Some(Cursor::new(behind))
        } else {
            None
        }
    }

    /// What is left behind this mark.
    #[tactic(auto, using(crate::proofs::FirstSymbol::eat_mark))]
    #[inline(always)]
    pub fn mark(self, kind: TokenKind) -> Option<Cursor<'a>>
        requires { IsTrue (is_mark kind) }
        ensures { option_map left result ≡ eat (mark kind) (left self.entry) }
    {
        let (found, _text, behind) = self.token()?;
        if same_kind(kind, found) {
            Some(Cursor::new(behind))
        } else {
            None
        }
    }

    /// What is left behind the number that is written `0`.
    #[tactic(auto, using(crate::proofs::FirstSymbol::eat_number))]
    pub fn zero(self) -> Option<Cursor<'a>>
        ensures { option_map left result ≡ eat (number (codes "0")) (left self.entry) }
    {
        let (kind, text, behind) = self.token()?;
        if same_kind(kind, TokenKind::Number) && text == b"0".as_slice() {
            Some(Cursor::new(behind))
        } else {
            None
        }
    }

    /// The number of a bit, and what is left behind it.
    #[tactic(auto, using(crate::proofs::FirstSymbol::index_first))]
    pub fn index(self) -> Option<(u32, Cursor<'a>)>
        ensures value { option_map (λ x. (x.0, left x.1)) result ≡ index_at (left self.entry) }
        ensures most { IfSome result (λ x. x.0 < MAX_WIDTH) }
    {
        let (kind, text, behind) = self.token()?;
        if same_kind(kind, TokenKind::Number) {
            Some((index_of(text)?, Cursor::new(behind)))
        } else {
            None
        }
    }

    /// The word of a bit string, and what is left behind it.
    #[tactic(auto, using(crate::proofs::FirstSymbol::string_first))]
    #[inline(always)]
    pub fn string(self) -> Option<(Word, Cursor<'a>)>
        ensures { option_map (λ x. (x.0, left x.1)) result ≡ string_at (left self.entry) }
    {
        let (kind, text, behind) = self.token()?;
        if same_kind(kind, TokenKind::Bits) {
            Some((word_of(text), Cursor::new(behind)))
        } else {
            None
        }
    }

    /// Nothing, where a semicolon alone is left.
    #[tactic(auto, unfolding(opgen_vhdl::specs::Reader::end_at, opgen_vhdl::specs::Reader::and_then))]
    pub fn end(self) -> Option<Cursor<'a>>
        ensures { option_map left result ≡ end_at (left self.entry) }
    {
        let rest = self.mark(TokenKind::Semicolon)?;
        match rest.token() {
            None => Some(rest),
            Some(_) => None,
        }
    }

    /// The tokens of a text up to the first semicolon, with it, and the bytes behind them.
    pub fn piece(text: &'a [u8]) -> Option<(Cursor<'a>, &'a [u8])>
        ensures some { IfSome result (λ x. pieces (symbols_in text.now) ≡ left x.0 ∷ pieces (symbols_in x.1.now)) }
        ensures shorter { IfSome result (λ x. length (symbols_in x.1.now) < length (symbols_in text.now)) }
        ensures passed { IfSome result (λ x. IsPassed text.now x.1.now) }
        ensures none { IfNone result (symbols_in text.now ≡ []) }
    {
        let (kind, first, behind) = first_token(text)?;
        let (piece, more) = behind.split_at(rest_len(kind, behind));
        let piece = Cursor {
            first: Some((kind, first, piece)),
        };
        Some((piece, more))
    }
}
