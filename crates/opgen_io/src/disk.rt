//! The folder on disk: reads and stores the files of the working directory.
ghost use Rattle.std.specs.Prelude.{◌≡◌, ◌≤◌, None, IfOk, vec_len};
ghost use Rattle.opgen_io.specs.Disk.{after_fault};

use crate::counts::raise;
use crate::replace::store_file;
use crate::whole::read_within;
use crate::{FetchFault, Folder, StoreFault};
use std::alloc::Global;
use std::fs::File;
use std::marker::Model;
use std::rt::Files;

/// The files of the working directory, each under its path. What they hold is not told, and each failure raises a count. A missing
/// file counts as a read fault. A store that fails leaves the old file, and one that does not replaces it whole.
#[derive(Drop)]
pub struct DiskFolder<'a, R> {
    rt: &'a R,
    read_faults: u64,
    longs: u64,
    write_faults: u64,
}

impl<'a, R> Model for DiskFolder<'a, R> {
    ghost use Rattle.opgen_io.specs.Disk.{DiskCounts};

    ghost Value = { DiskCounts };

    ghost view = { λ s. record {
      read_faults = s.read_faults;
      longs = s.longs;
      write_faults = s.write_faults;
    } };
}

impl<'a, R: Files> DiskFolder<'a, R> {
    /// The folder before any call.
    pub fn new(rt: &'a R) -> DiskFolder<'a, R>
        ensures { result ≡ record { read_faults = 0; longs = 0; write_faults = 0 } }
    {
        DiskFolder {
            rt,
            read_faults: 0,
            longs: 0,
            write_faults: 0,
        }
    }
}

impl<'a, R> DiskFolder<'a, R> {
    // Raises the count that shows the fault.
    fn count(&mut self, fault: FetchFault)
        ensures { self.new ≡ after_fault fault self.old }
    {
        match fault {
            FetchFault::Failed => raise(&mut self.read_faults),
            FetchFault::TooLong => raise(&mut self.longs),
            FetchFault::Memory => {}
        }
    }
}

// The bytes of the file, of which one more than `most` are read to find that there are more.
fn read_file<R: Files>(
    rt: &R,
    alloc: Global,
    name: &str,
    most: usize,
) -> Result<Vec<u8>, FetchFault>
    ensures at_most { IfOk result (λ bytes. vec_len bytes ≤ most) }
{
    let Ok(mut file) = File::open(rt, name) else {
        return Err(FetchFault::Failed);
    };
    let bytes = read_within(alloc, &mut file, most.saturating_add(1))?;
    if bytes.len() > most {
        return Err(FetchFault::TooLong);
    }
    Ok(bytes)
}

impl<'a, R: Files + AllocGlobal> Folder for DiskFolder<'a, R> {
    ghost told = { λ _. None };

    ghost read_faults = { λ s. s.read_faults };

    ghost lacks = { λ _. 0 };

    ghost longs = { λ s. s.longs };

    ghost write_faults = { λ s. s.write_faults };

    fn fetch(&mut self, alloc: Global, name: &str, most: usize) -> Result<Vec<u8>, FetchFault> {
        let answer = read_file(self.rt, alloc, name, most);
        if let Err(fault) = &answer {
            self.count(*fault);
        }
        answer
    }

    fn store(&mut self, name: &str, bytes: &[u8]) -> Result<(), StoreFault> {
        let answer = store_file(self.rt, name, bytes);
        if answer == Err(StoreFault::Failed) {
            raise(&mut self.write_faults);
        }
        answer
    }
}
