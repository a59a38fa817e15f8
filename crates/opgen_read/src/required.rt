//! Takes words and marks that have to stand at the front.

ghost use Rattle.std.specs.Prelude.{IsTrue, map};
ghost use Rattle.std.specs.Char.{to_ascii_lowercase};
ghost use Rattle.opgen_vhdl.specs.Reader.{eat, is_mark};
ghost use Rattle.opgen_vhdl.specs.Symbols.{mark, word};
ghost use Rattle.opgen_lex.specs.Left.{left};
ghost use Rattle.opgen_read.specs.Gives.{Gives};

use crate::refusal::Refusal;
use opgen_lex::Cursor;
use opgen_vhdl::TokenKind;

/// What is left behind this word of the language.
#[inline(always)]
pub fn word<'a>(rest: Cursor<'a>, text: &str) -> Result<Cursor<'a>, Refusal>
    ensures { Gives left result (eat (word (map to_ascii_lowercase text.now)) (left rest.entry)) }
{
    rest.word(text).ok_or(Refusal::Refused)
}

/// What is left behind this mark.
#[inline(always)]
pub fn mark(rest: Cursor<'_>, kind: TokenKind) -> Result<Cursor<'_>, Refusal>
    requires { IsTrue (is_mark kind) }
    ensures { Gives left result (eat (mark kind) (left rest.entry)) }
{
    rest.mark(kind).ok_or(Refusal::Refused)
}
