//! Standard output as a sink.
ghost use Rattle.std.specs.Prelude.{◌≡◌, None};

use crate::counts::raise;
use crate::whole::write_whole;
use crate::{PutFault, Sink};
use std::io;
use std::marker::Model;

/// Standard output. What it took is not told. Each put raises the count of puts, and each failure that of faults.
#[derive(Drop)]
pub struct StdSink<'a, R> {
    rt: &'a R,
    puts: u64,
    faults: u64,
}

impl<'a, R> Model for StdSink<'a, R> {
    ghost use Rattle.opgen_io.specs.Counted.{SinkCounts};

    ghost Value = { SinkCounts };

    ghost view = { λ s. record { puts = s.puts; faults = s.faults } };
}

impl<'a, R: Print> StdSink<'a, R> {
    /// The output before any call.
    pub fn new(rt: &'a R) -> StdSink<'a, R>
        ensures { result ≡ record { puts = 0; faults = 0 } }
    {
        StdSink {
            rt,
            puts: 0,
            faults: 0,
        }
    }
}

impl<'a, R: Print> Sink for StdSink<'a, R> {
    ghost taken = { λ _. None };

    ghost puts = { λ s. s.puts };

    ghost faults = { λ s. s.faults };

    fn put(&mut self, bytes: &[u8]) -> Result<(), PutFault> {
        raise(&mut self.puts);
        match write_whole(&mut io::writer(self.rt), bytes) {
            Ok(()) => Ok(()),
            Err(_) => {
                raise(&mut self.faults);
                Err(PutFault::Failed)
            }
        }
    }
}
