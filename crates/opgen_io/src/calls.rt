//! Counts the calls of a folder or sink in memory, and decides which of them fail.
ghost use Rattle.std.specs.Prelude.{◌≡◌};
ghost use Rattle.opgen_io.specs.Counts.{next_count, is_listed};

use crate::counts::raise;

/// How many calls were made, and the numbers, from 0, of those that fail.
#[derive(Drop)]
pub struct Calls {
    pub failing: Vec<u64>,
    pub made: u64,
}

impl Calls {
    pub fn new(failing: Vec<u64>) -> Calls
        ensures failing { result.failing ≡ failing }
        ensures made { result.made ≡ 0 }
    {
        Calls { failing, made: 0 }
    }

    /// Makes the next call: whether it fails.
    pub fn next_fails(&mut self) -> bool
        ensures fails { result ≡ is_listed self.old.made self.old.failing.items }
        ensures failing { self.new.failing ≡ self.old.failing }
        ensures made { self.new.made ≡ next_count self.old.made }
    {
        let fails = self.failing.contains(&self.made);
        raise(&mut self.made);
        fails
    }
}
