//! Tests that the tokens of a text have their kinds and their places, and of the offset at which no token starts.
use opgen_lex::TokenKind::*;
use opgen_lex::{LexFault, TokenKind, tokens};
use std::test::Fail;

/// A text with a token of each kind.
const TEXT: &[u8] = b"s0 <= \"01\" & '0'; (:,.+-:==>=12)";

/// The kinds of its tokens, and where each starts and ends.
static TOKENS: [(TokenKind, usize, usize); 17] = [
    (Word, 0, 2),
    (LessEqual, 3, 5),
    (Bits, 6, 10),
    (Ampersand, 11, 12),
    (ZeroChar, 13, 16),
    (Semicolon, 16, 17),
    (LeftParen, 18, 19),
    (Colon, 19, 20),
    (Comma, 20, 21),
    (Dot, 21, 22),
    (Plus, 22, 23),
    (Minus, 23, 24),
    (Becomes, 24, 26),
    (Arrow, 26, 28),
    (Equal, 28, 29),
    (Number, 29, 31),
    (RightParen, 31, 32),
];

#[test]
fn tokens_of_each_kind(rt: HostRuntime) -> Result<(), Fail> {
    let found = tokens(rt.alloc(), TEXT)?;
    assert_eq!(rt; found.len(), TOKENS.len());
    for (token, place) in found.iter().zip(TOKENS.iter()) {
        assert_eq!(rt; (token.kind, token.start, token.end), *place);
    }
    Ok(())
}

#[test]
fn an_offset_where_nothing_starts(rt: HostRuntime) {
    let fault = tokens(rt.alloc(), b"x \"01").err();
    assert_eq!(rt; fault, Some(LexFault::Lexical { offset: 2 }));
}
