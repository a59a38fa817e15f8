//! Reads the pieces of a text one after another; each piece ends with a semicolon.

ghost use Rattle.std.specs.Prelude.{◌≡◌, ◌≤◌, ◌+◌, IfOk, IfErr, length, Ok, Err};
ghost use Rattle.opgen_vhdl.specs.declared.place.Place.TheVariants.{Library, End};
ghost use Rattle.opgen_vhdl.specs.Reader.{takes_at};
ghost use Rattle.opgen_vhdl.specs.Statements.{Follows, nothing};
ghost use Rattle.opgen_vhdl.specs.Symbols.{pieces};
ghost use Rattle.opgen_lex.specs.First.{IsPassed};
ghost use Rattle.opgen_lex.specs.Left.{left, symbols_in};
ghost use Rattle.opgen_read.specs.Reached.{IsPieceFault};
ghost use Rattle.opgen_read.specs.Seen.{seen};
ghost use Rattle.opgen_read.specs.Stepped.{Steps};
ghost use Rattle.opgen_read.specs.declared.read.TheConstants.{MAX_TEXT_LEN};

use crate::draft::Draft;
use crate::fault::ReadFault;
use crate::refusal::Refusal;
use crate::take::take;
use opgen_lex::Cursor;
use opgen_vhdl::Place;
use std::alloc::Global;

// One piece at its place, by its number.
fn step(
    alloc: Global,
    draft: &mut Draft,
    place: Place,
    piece: Cursor<'_>,
    number: u32,
) -> Result<Place, ReadFault>
    ensures { Steps draft.new result number (takes_at place (seen draft.old) (left piece.entry)) }
{
    match take(alloc, draft, place, piece) {
        Ok(next) => Ok(next),
        Err(Refusal::Memory) => Err(ReadFault::Memory),
        Err(Refusal::Refused) => Err(ReadFault::Syntax { piece: number }),
    }
}

/// Reads the pieces of a text into an empty draft. The text is left at what stands behind the last that was read.
pub fn take_pieces(alloc: Global, draft: &mut Draft, text: &mut &[u8]) -> Result<(), ReadFault>
    requires size { length text.old.now ≤ MAX_TEXT_LEN }
    requires empty { seen draft.old ≡ nothing }
    ensures ok { IfOk result (λ _. Follows Library nothing (pieces (symbols_in text.old.now)) End (seen draft.new)) }
    ensures err { IfErr result (IsPieceFault (symbols_in text.old.now)) }
    ensures passed { IsPassed text.old.now text.new.now }
{
    let mut place = Place::Library;
    let mut taken = 0;
    'pieces: while let Some((piece, more)) = Cursor::piece(text) {
        *text = more;
        place = step(alloc, draft, place, piece, taken + 1)?;
        taken += 1;
    }
    if place == Place::End {
        Ok(())
    } else {
        Err(ReadFault::Syntax { piece: taken + 1 })
    }
}
