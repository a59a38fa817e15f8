//! The lexer of the VHDL subset, what the texts of its tokens mean, and a cursor over them, which takes pieces, phrases,
//! words, marks, numbers and bit strings from the front.
//!
//! Proved: The tokens of a text, or the offset at which no token starts, also without a list of the tokens. The first token
//! of a text, and what is right behind it. Whether two tokens are of one kind, and whether a token is a given word, upper
//! and lower case being the same. The number of a bit that digits write, and the word that a bit string writes. What is
//! left behind a given word, mark or number, behind a phrase, and behind the semicolon that ends a piece. The number of a
//! bit and the word of a bit string at the front. The pieces of a text, one at a time.
//!
//! By: `tokens`, `first_fault`, `first_token`; `same_kind`, `same_word`, `index_of`, `word_of`; `token`, `word`, `mark`,
//! `zero`, `index`, `string`, `end` and `piece` of `Cursor`; `Phrase`.
#![tactic(auto)]

ghost use Rattle.std.specs.Prelude.{◌≡◌, ◌≤◌, length, All, IfOk, IfErr, IfSome, IfNone};
ghost use Rattle.opgen_vhdl.specs.Tokens.{Tokens, LexicalAt};
ghost use Rattle.opgen_vhdl.specs.Symbols.{InOrder, IsWithin};
ghost use Rattle.opgen_lex.specs.Fault.{IsLexical};
ghost use Rattle.opgen_lex.specs.First.{HasTokens, IsFirstToken, HasNoToken};

mod cursor;
mod front;
mod phrase;
mod piece_len;
mod token_text;

pub use cursor::Cursor;
use front::{behind_white, front_at, leading};
use opgen_vhdl::Front;
pub use opgen_vhdl::{Token, TokenKind};
pub use phrase::Phrase;
use std::alloc::{AllocFailed, Global};
use thiserror::Error;
pub use token_text::{index_of, same_kind, same_word, word_of};

/// Why a text has no tokens.
#[derive(Clone, Copy, Debug, PartialEq, Eq, Error)]
pub enum LexFault {
    /// At that offset neither a token nor white space nor a comment starts.
    #[error("no token starts at byte {offset}")]
    Lexical { offset: u64 },
    #[error("out of memory")]
    Memory,
}

impl From<AllocFailed<Token>> for LexFault {
    ghost use Rattle.opgen_lex.specs.declared.LexFault.TheVariants.{Memory};

    ghost from_gives = { λ _ e. e ≡ Memory };

    fn from(_: AllocFailed<Token>) -> LexFault {
        LexFault::Memory
    }
}

/// The tokens of a text of the VHDL subset, in order. White space and comments leave none, and any
/// byte may stand in a comment.
///
/// One pass from the first byte to the last; no clause speaks of its time.
///
/// # Errors
///
/// `Lexical` gives the first offset at which neither a token nor white space nor a comment starts. A
/// word that is too long or has an underscore out of place, a number that is too long or runs into a
/// letter, and a bit string that is empty, too long or not closed are refused at their first byte.
pub fn tokens(alloc: Global, bytes: &[u8]) -> Result<Vec<Token>, LexFault>
    ensures ok { IfOk result (λ ts. Tokens bytes.now ts.items) }
    ensures lexical { IfErr result (IsLexical bytes.now) }
    ensures in_order { IfOk result (λ ts. InOrder 0 (length bytes.now) ts.items) }
    ensures within { IfOk result (λ ts. All (IsWithin (length bytes.now)) ts.items) }
{
    let mut found = Vec::new(alloc);
    let mut at = 0;
    'elements: while at < bytes.len() {
        match front_at(bytes, at) {
            Some(Front::Gap(len)) => at += len,
            Some(Front::Token(kind, len)) => {
                let end = at + len;
                found.push(Token {
                    kind,
                    start: at,
                    end,
                })?;
                at = end;
            }
            None => return Err(LexFault::Lexical { offset: at as u64 }),
        }
    }
    Ok(found)
}

/// The first offset of a text at which neither a token nor white space nor a comment starts, where
/// there is one. Otherwise the text has tokens.
pub fn first_fault(bytes: &[u8]) -> Option<u64>
    ensures some { IfSome result (LexicalAt bytes.now) }
    ensures none { IfNone result (HasTokens bytes.now) }
{
    let mut rest = bytes;
    'tokens: while let Some((_kind, _text, behind)) = first_token(rest) {
        rest = behind;
    }
    let at = fault_in(rest)?;
    Some((bytes.len() - rest.len() + at) as u64)
}

// The first offset at which nothing starts, where the elements are passed one by one.
fn fault_in(bytes: &[u8]) -> Option<usize>
    ensures some { IfSome result (LexicalAt bytes.now) }
    ensures within { IfSome result (λ at. at ≤ length bytes.now) }
    ensures none { IfNone result (HasTokens bytes.now) }
{
    let mut at = 0;
    'elements: while at < bytes.len() {
        match front_at(bytes, at) {
            Some(Front::Gap(len)) => at += len,
            Some(Front::Token(_kind, len)) => at += len,
            None => return Some(at),
        }
    }
    None
}

/// The kind and the bytes of the first token, and the bytes behind it. There is none where only white
/// space and comments stand before the end, or before an offset at which nothing starts.
pub fn first_token(bytes: &[u8]) -> Option<(TokenKind, &[u8], &[u8])>
    ensures some { IfSome result (λ x. IsFirstToken bytes.now x.0 x.1.now x.2.now) }
    ensures none { IfNone result (HasNoToken bytes.now) }
{
    let mut rest = behind_white(bytes);
    'gaps: while let Some(front) = leading(rest) {
        match front {
            Front::Gap(len) => {
                let (_gap, behind) = rest.split_at(len);
                rest = behind_white(behind);
            }
            Front::Token(kind, len) => {
                let (text, behind) = rest.split_at(len);
                return Some((kind, text, behind));
            }
        }
    }
    None
}
