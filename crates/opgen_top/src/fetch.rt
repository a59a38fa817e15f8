//! Fetches a file of a command from the folder.
ghost use Rattle.std.specs.Prelude.{◌≡◌};
ghost use Rattle.opgen_top.specs.Prepared.{reads_of, Fetches, Kept};

use crate::answer::Refusal;
use crate::line::Line;
use opgen_io::{FetchFault, Folder};
use std::alloc::Global;

/// The most bytes that a specification has.
pub(crate) const MAX_SPEC_LEN: usize = 1_048_576;

/// The most bytes that a file of VHDL has, and a file of vectors.
pub(crate) const MAX_SIMULATED_LEN: usize = 67_108_864;

/// The bytes of a file, of which there may be `most`. The folder's files stay as they are.
pub(crate) fn fetch<F: Folder>(
    alloc: Global,
    name: &str,
    most: usize,
    folder: &mut F,
) -> Result<Vec<u8>, Refusal>
    ensures told_same { F.told folder.new ≡ F.told folder.old }
    ensures write_faults_same { F.write_faults folder.new ≡ F.write_faults folder.old }
    ensures kept { Kept (reads_of F.read_faults F.lacks F.longs folder.old) (reads_of F.read_faults F.lacks F.longs folder.new) }
    ensures fetched { Fetches name.now most (F.told folder.old)
        (reads_of F.read_faults F.lacks F.longs folder.old) (reads_of F.read_faults F.lacks F.longs folder.new) result }
{
    match folder.fetch(alloc, name, most) {
        Ok(bytes) => Ok(bytes),
        Err(FetchFault::Failed) => Err(Refusal::Line(Line::ReadFault)),
        Err(FetchFault::TooLong) => Err(Refusal::Line(Line::TooLong)),
        Err(FetchFault::Memory) => Err(Refusal::Memory),
    }
}
