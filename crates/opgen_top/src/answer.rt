//! What a command answers, before anything is stored.
ghost use Rattle.std.specs.Prelude.{◌≡◌, ◌∷◌, [], IfOk, string_bytes};
ghost use Rattle.opgen_top.specs.Answer.{file, success};
ghost use Rattle.opgen_top.specs.Prepared.{answer_of, store_of};

use crate::line::Line;
use opgen_num::Memory;
use std::alloc::{AllocError, Global};

/// A file that is to be stored.
#[derive(Drop)]
pub(crate) struct NewFile {
    pub name: String,
    pub bytes: Vec<u8>,
}

/// A line, and the files that are stored before it is printed.
#[derive(Drop)]
pub(crate) struct Answer {
    pub line: Line,
    pub stores: Vec<NewFile>,
}

/// Why nothing is stored: the line that says so, or out of memory.
#[derive(Drop)]
pub(crate) enum Refusal {
    Line(Line),
    Memory,
}

impl From<Memory> for Refusal {
    ghost use Rattle.opgen_top.specs.declared.answer.Refusal.TheVariants as refusals;

    ghost from_gives = { λ _ refusal. refusal ≡ refusals.Memory };

    fn from(_want: Memory) -> Refusal {
        Refusal::Memory
    }
}

impl From<AllocError> for Refusal {
    ghost use Rattle.opgen_top.specs.declared.answer.Refusal.TheVariants as refusals;

    ghost from_gives = { λ _ refusal. refusal ≡ refusals.Memory };

    fn from(_refused: AllocError) -> Refusal {
        Refusal::Memory
    }
}

/// The answer that stores one file.
pub(crate) fn with_file(
    alloc: Global,
    line: Line,
    name: String,
    bytes: Vec<u8>,
) -> Result<Answer, AllocError>
    ensures { IfOk result (λ a. answer_of a ≡ success line (file (string_bytes name) bytes.items ∷ [])) }
{
    let mut stores = Vec::new(alloc);
    stores.push(NewFile { name, bytes })?;
    Ok(Answer { line, stores })
}

/// The answer that stores two files, in this order.
pub(crate) fn with_files(
    alloc: Global,
    line: Line,
    first: NewFile,
    second: NewFile,
) -> Result<Answer, AllocError>
    ensures { IfOk result (λ a. answer_of a ≡ success line (store_of first ∷ store_of second ∷ [])) }
{
    let mut stores = Vec::new(alloc);
    stores.push(first)?;
    stores.push(second)?;
    Ok(Answer { line, stores })
}

/// The answer that stores none.
pub(crate) fn without_file(alloc: Global, line: Line) -> Answer
    ensures { answer_of result ≡ success line [] }
{
    Answer {
        line,
        stores: Vec::new(alloc),
    }
}
