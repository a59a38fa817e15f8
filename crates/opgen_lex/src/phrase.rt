//! Reads a phrase: words and marks in a row.

ghost use Rattle.std.specs.Prelude.{◌≡◌, Some, IsTrue, map, option_map};
ghost use Rattle.std.specs.Char.{to_ascii_lowercase};
ghost use Rattle.opgen_vhdl.specs.Symbols.{mark, word};
ghost use Rattle.opgen_vhdl.specs.Reader.{and_then, eat, end_at, is_mark};
ghost use Rattle.opgen_lex.specs.Left.{left, left_behind};

use crate::cursor::Cursor;
use opgen_vhdl::TokenKind;

/// What is left behind the words and marks that were read so far, or nothing where another token stood there.
#[derive(Clone, Copy)]
pub struct Phrase<'a> {
    rest: Option<Cursor<'a>>,
}

impl<'a> Phrase<'a> {
    /// The empty phrase, behind which all is left that the cursor has before it.
    pub fn new(rest: Cursor<'a>) -> Phrase<'a>
        ensures { left_behind result ≡ Some (left rest.entry) }
    {
        Phrase { rest: Some(rest) }
    }

    /// The phrase with this word of the language.
    #[tactic(auto, unfolding(opgen_vhdl::specs::Reader::and_then))]
    pub fn word(self, text: &str) -> Phrase<'a>
        ensures { left_behind result ≡ and_then (left_behind self.entry) (eat (word (map to_ascii_lowercase text.now))) }
    {
        match self.rest {
            None => self,
            Some(rest) => Phrase {
                rest: rest.word(text),
            },
        }
    }

    /// The phrase with this mark.
    #[tactic(auto, unfolding(opgen_vhdl::specs::Reader::and_then))]
    pub fn mark(self, kind: TokenKind) -> Phrase<'a>
        requires { IsTrue (is_mark kind) }
        ensures { left_behind result ≡ and_then (left_behind self.entry) (eat (mark kind)) }
    {
        match self.rest {
            None => self,
            Some(rest) => Phrase {
                rest: rest.mark(kind),
            },
        }
    }

    /// Nothing, where the phrase was read and a semicolon alone is left.
    #[tactic(auto, unfolding(opgen_vhdl::specs::Reader::and_then))]
    pub fn end(self) -> Option<Cursor<'a>>
        ensures { option_map left result ≡ and_then (left_behind self.entry) end_at }
    {
        match self.rest {
            None => None,
            Some(rest) => rest.end(),
        }
    }
}
