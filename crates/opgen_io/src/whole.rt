//! Reads and writes whole texts through files that move a part at a time.
ghost use Rattle.std.specs.Prelude.{◌≡◌, ◌≢◌, ◌≤◌, IfOk, IfSome, OnOk, Err, vec_len, take};
ghost use Rattle.std.specs.Io.{ReadsAtMost};
ghost use Rattle.std.specs.Io.KnownBytes.{Appends, ReadConsumes};

use crate::FetchFault;
use std::alloc::{AllocError, Global};
use std::io;
use std::io::{Error, ErrorKind, Read, Write};

// One read. Where clang sees std's read in a loop over pieces that are never empty, it drops the loop's arm `Ok(0)`.
#[inline(never)]
fn read_piece<F: Read>(file: &mut F, piece: &mut [u8]) -> io::Result<usize>
    ensures bound { ReadsAtMost result piece.new }
    ensures bytes { ReadConsumes (F.remaining file.old) (F.remaining file.new) result piece.new }
{
    file.read(piece)
}

/// Reads all that is left, or the first `room` bytes of it. A read that gives nothing is the end.
pub fn read_within<F: Read>(alloc: Global, file: &mut F, room: usize) -> Result<Vec<u8>, FetchFault>
    ensures at_most { IfOk result (λ bytes. vec_len bytes ≤ room) }
    ensures whole { IfOk result (λ bytes.
        IfSome (F.remaining file.old) (λ left. bytes.items ≡ take room left)) }
    ensures never_long { result ≢ Err FetchFault.TooLong }
{
    let mut bytes = Vec::new(alloc);
    let mut piece = [0u8; 4096];
    'reads: for _ in 0..u64::MAX {
        let wanted = piece.len().min(room - bytes.len());
        if wanted == 0 {
            return Ok(bytes);
        }
        match read_piece(file, &mut piece[..wanted]) {
            Ok(0) => return Ok(bytes),
            Ok(given) => match bytes.extend_from_slice(&piece[..given]) {
                Ok(()) => {}
                Err(AllocError) => return Err(FetchFault::Memory),
            },
            Err(fault) => {
                if fault.kind() != ErrorKind::Interrupted {
                    return Err(FetchFault::Failed);
                }
            }
        }
    }
    Err(FetchFault::Failed)
}

/// Writes all the bytes. A write that takes none of them is a failure.
pub fn write_whole<W: Write>(out: &mut W, bytes: &[u8]) -> io::Result<()>
    ensures { OnOk result (Appends (W.contents out.old) (W.contents out.new) bytes.now) }
{
    let mut done = 0;
    'writes: for _ in 0..u64::MAX {
        if done == bytes.len() {
            return Ok(());
        }
        match out.write(&bytes[done..]) {
            Ok(0) => return Err(Error::from(ErrorKind::WriteZero)),
            Ok(taken) => done += taken,
            Err(fault) => {
                if fault.kind() != ErrorKind::Interrupted {
                    return Err(fault);
                }
            }
        }
    }
    Err(Error::from(ErrorKind::TimedOut))
}
