//! The trait of a sink: takes bytes one after another, as standard output does.
ghost use Rattle.std.specs.Prelude.{◌≡◌, ℕ, ◌≤◌, List, ◌++◌, Option, Some, is_some, OnOk};
ghost use Rattle.opgen_io.specs.Bytes.{TakesPrefix};
ghost use Rattle.opgen_io.specs.Counts.{next_count, Rose};
ghost use Rattle.opgen_io.specs.Counted.{put_faults};

use thiserror::Error;

/// Why bytes were not put.
#[derive(Clone, Copy, Debug, PartialEq, Eq, Error)]
pub enum PutFault {
    #[error("the output could not be written")]
    Failed,
    #[error("out of memory")]
    Memory,
}

/// Takes bytes, each put after those before it.
pub trait Sink {
    // All bytes that were taken, where the sink tells them.
    ghost taken: { Self → Option (List ℕ) };

    // How many puts were made.
    ghost puts: { Self → ℕ };

    // How many puts have failed.
    ghost faults: { Self → ℕ };

    // Takes all the bytes. After `Failed` it may have taken the first of them. Each call is one more put, whatever it returns
    // and even if there are no bytes. The count of faults rises only if the put failed.
    fn put(&mut self, bytes: &[u8]) -> Result<(), PutFault>
        ensures tells { is_some (taken self.new) ≡ is_some (taken self.old) }
        ensures one_more { puts self.new ≡ next_count (puts self.old) }
        ensures counts { faults self.new ≡ put_faults result (faults self.old) }
        ensures faults_kept { faults self.old ≤ faults self.new }

        ensures ok { (held : List ℕ) → taken self.old ≡ Some held →
            OnOk result (taken self.new ≡ Some (held ++ bytes.now)) }
        ensures failed_counted { result ≡ Err PutFault.Failed → Rose (faults self.old) (faults self.new) }
        ensures failed_prefix { result ≡ Err PutFault.Failed →
            TakesPrefix (taken self.old) bytes.now (taken self.new) }
        ensures memory { result ≡ Err PutFault.Memory → taken self.new ≡ taken self.old };
}
