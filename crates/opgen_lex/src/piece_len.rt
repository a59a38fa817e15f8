//! Finds where the first piece of a text ends: at its first semicolon.

ghost use Rattle.std.specs.Prelude.{◌≡◌, ℕ, List, false};
ghost use Rattle.opgen_vhdl.specs.Symbols.{Symbol, symbol_of, is_semicolon};
ghost use Rattle.opgen_lex.specs.PieceLen.{IsRestLen};

use crate::{first_token, same_kind};
use opgen_vhdl::TokenKind;

// How many bytes stand up to the first semicolon, with it, or up to the last token where there is no
// semicolon.
fn piece_len(bytes: &[u8]) -> usize
    ensures { (first : Symbol) → is_semicolon first ≡ false → IsRestLen first bytes.now result }
{
    let mut rest = bytes;
    'tokens: while let Some((kind, _text, behind)) = first_token(rest) {
        if same_kind(kind, TokenKind::Semicolon) {
            return bytes.len() - behind.len();
        }
        rest = behind;
    }
    bytes.len() - rest.len()
}

/// How many bytes behind a token of this kind are the rest of its piece: none behind a semicolon.
pub fn rest_len(kind: TokenKind, behind: &[u8]) -> usize
    ensures { (text : List ℕ) → IsRestLen (symbol_of (kind, text)) behind.now result }
{
    if same_kind(kind, TokenKind::Semicolon) {
        0
    } else {
        piece_len(behind)
    }
}
