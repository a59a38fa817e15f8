//! A sink in memory that never fails.
ghost use Rattle.std.specs.Prelude.{◌≡◌, ℕ, List, [], Some};

use opgen_io::{PutFault, Sink};
use std::alloc::{AllocError, Global};
use std::marker::Model;

/// A sink that keeps what it takes, and never answers Failed. Contracts see it as the list of the bytes taken and the number
/// of puts, which stops at the largest 64-bit number.
#[derive(Debug, Drop)]
pub struct VecSink {
    bytes: Vec<u8>,
    puts: u64,
}

impl Model for VecSink {
    ghost use Rattle.std.specs.Prelude.{List, ℕ};

    ghost Value = { List ℕ × ℕ };

    ghost view = { λ s. (s.bytes.items, s.puts) };
}

impl VecSink {
    /// A sink that has taken nothing.
    pub fn new(alloc: Global) -> VecSink
        ensures { result ≡ ([], 0) }
    {
        VecSink {
            bytes: Vec::new(alloc),
            puts: 0,
        }
    }

    /// All bytes that were taken.
    pub fn into_bytes(self) -> Vec<u8>
        ensures { result.items ≡ self.0 }
    {
        self.bytes
    }
}

impl Sink for VecSink {
    ghost taken = { λ s. Some s.0 };

    ghost puts = { λ s. s.1 };

    ghost faults = { λ s. 0 };

    fn put(&mut self, bytes: &[u8]) -> Result<(), PutFault> {
        self.puts = self.puts.saturating_add(1);
        match self.bytes.extend_from_slice(bytes) {
            Ok(()) => Ok(()),
            Err(AllocError) => Err(PutFault::Memory),
        }
    }
}
