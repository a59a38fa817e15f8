//! The trait of a folder: fetches and stores files by name, and counts its errors.
ghost use Rattle.std.specs.Prelude.{◌≡◌, ◌⊎◌, ℕ, ◌≤◌, Option, Some, None, is_some, IfOk, OnOk, vec_len};
ghost use Rattle.opgen_io.specs.Fetched.{fetched, FetchFails};
ghost use Rattle.opgen_io.specs.Counts.{Rose, Stood};
ghost use Rattle.opgen_io.specs.Counted.{store_faults, CountsFetch};
ghost use Rattle.opgen_io.specs.Files.{Files, stored, KeepsOthers};

use std::alloc::Global;
use thiserror::Error;

/// Why a file was not fetched.
#[derive(Clone, Copy, Debug, PartialEq, Eq, Error)]
pub enum FetchFault {
    /// There is no such file, or it could not be read.
    #[error("the file could not be read")]
    Failed,
    /// The file has more bytes than were asked for at most.
    #[error("the file is too long")]
    TooLong,
    #[error("out of memory")]
    Memory,
}

/// Why a file was not stored.
#[derive(Clone, Copy, Debug, PartialEq, Eq, Error)]
pub enum StoreFault {
    #[error("the file could not be written")]
    Failed,
    #[error("out of memory")]
    Memory,
}

/// Files by name. A name is text, and what stands under it is bytes.
///
/// The counts tell a caller who to blame: a count shows each failure except running out of memory, and a count rises
/// only by such a failure.
pub trait Folder {
    // The files, where the folder tells them.
    ghost told: { Self → Option Files };

    // How many reads have failed, but for a missing name in a folder that tells its files.
    ghost read_faults: { Self → ℕ };

    // How many fetches asked for a name that is not there.
    ghost lacks: { Self → ℕ };

    // How many fetches found more bytes than were asked for.
    ghost longs: { Self → ℕ };

    // How many stores have failed.
    ghost write_faults: { Self → ℕ };

    // The bytes under the name, of which there may be `most`.
    fn fetch(&mut self, alloc: Global, name: &str, most: usize) -> Result<Vec<u8>, FetchFault>
        ensures contents { told self.new ≡ told self.old }
        ensures counts { CountsFetch result
            (record { read_faults = read_faults self.old; lacks = lacks self.old; longs = longs self.old })
            (record { read_faults = read_faults self.new; lacks = lacks self.new; longs = longs self.new }) }
        ensures read_faults_kept { read_faults self.old ≤ read_faults self.new }
        ensures lacks_kept { lacks self.old ≤ lacks self.new }
        ensures longs_kept { longs self.old ≤ longs self.new }
        ensures write_faults_same { write_faults self.new ≡ write_faults self.old }

        ensures at_most { IfOk result (λ bytes. vec_len bytes ≤ most) }
        ensures value { (files : Files) → told self.old ≡ Some files →
            IfOk result (λ bytes. files name.now ≡ Some bytes.items) }

        ensures failed_counted { result ≡ Err FetchFault.Failed →
            Rose (read_faults self.old) (read_faults self.new) ⊎ Rose (lacks self.old) (lacks self.new) }
        ensures failed_lacks { (files : Files) → told self.old ≡ Some files →
            Stood (read_faults self.old) (read_faults self.new) →
            result ≡ Err FetchFault.Failed → files name.now ≡ None }
        ensures lack_fails { (files : Files) → told self.old ≡ Some files →
            Stood (read_faults self.old) (read_faults self.new) →
            files name.now ≡ None → FetchFails result FetchFault.Failed }

        ensures too_long_counted { result ≡ Err FetchFault.TooLong →
            Rose (longs self.old) (longs self.new) }
        ensures too_long_exceeds { (files : Files) → told self.old ≡ Some files →
            result ≡ Err FetchFault.TooLong → fetched (files name.now) most ≡ Err FetchFault.TooLong }
        ensures excess_fails { (files : Files) → told self.old ≡ Some files →
            Stood (read_faults self.old) (read_faults self.new) →
            fetched (files name.now) most ≡ Err FetchFault.TooLong →
            FetchFails result FetchFault.TooLong };

    // Lets the name stand for the bytes, whatever it stood for. After `Failed` the name may stand for anything or be gone.
    fn store(&mut self, name: &str, bytes: &[u8]) -> Result<(), StoreFault>
        ensures tells { is_some (told self.new) ≡ is_some (told self.old) }
        ensures read_faults_same { read_faults self.new ≡ read_faults self.old }
        ensures lacks_same { lacks self.new ≡ lacks self.old }
        ensures longs_same { longs self.new ≡ longs self.old }
        ensures counts { write_faults self.new ≡ store_faults result (write_faults self.old) }
        ensures write_faults_kept { write_faults self.old ≤ write_faults self.new }

        ensures ok { (files : Files) → told self.old ≡ Some files →
            OnOk result (told self.new ≡ Some (stored name.now bytes.now files)) }
        ensures failed_counted { result ≡ Err StoreFault.Failed →
            Rose (write_faults self.old) (write_faults self.new) }
        ensures failed_others { result ≡ Err StoreFault.Failed →
            KeepsOthers name.now (told self.old) (told self.new) }
        ensures memory { result ≡ Err StoreFault.Memory → told self.new ≡ told self.old };
}
