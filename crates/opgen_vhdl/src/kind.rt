//! The tokens of the VHDL subset as types: their kinds, and where they start and end in a text.

/// The kinds of tokens of the VHDL subset (IEEE 1076-1993, clause 13).
#[derive(Clone, Copy, Debug, PartialEq, Eq)]
pub enum TokenKind {
    /// A letter, then letters, digits and single underscores, 64 bytes at most.
    Word,
    /// One to nine digits.
    Number,
    /// One or more of `0` and `1` between double quotes, at most as many as a signal may have bits.
    Bits,
    /// `'0'`
    ZeroChar,
    /// `(`
    LeftParen,
    /// `)`
    RightParen,
    /// `;`
    Semicolon,
    /// `:`
    Colon,
    /// `,`
    Comma,
    /// `.`
    Dot,
    /// `&`
    Ampersand,
    /// `+`
    Plus,
    /// `-`
    Minus,
    /// `=`
    Equal,
    /// `<=`
    LessEqual,
    /// `=>`
    Arrow,
    /// `:=`
    Becomes,
}

/// A token of a text: its kind, the offset of its first byte, and the offset just past its last.
#[derive(Clone, Copy, Debug, PartialEq, Eq)]
pub struct Token {
    pub kind: TokenKind,
    pub start: usize,
    pub end: usize,
}

/// What stands at the front of a text, with its length in bytes: a gap, which is one byte of white
/// space or one comment, or a token.
#[derive(Clone, Copy, Debug, PartialEq, Eq)]
pub enum Front {
    Gap(usize),
    Token(TokenKind, usize),
}
