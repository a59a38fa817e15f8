//! Files stored one after another.
ghost use Rattle.std.specs.Prelude.{◌≡◌, ◌≤◌, [], map, Err, IsOk, OnOk, Some, is_some};
ghost use Rattle.opgen_io.specs.Counts.{Rose};
ghost use Rattle.opgen_io.specs.Files.{Files};
ghost use Rattle.opgen_top.specs.Prepared.{store_of};
ghost use Rattle.opgen_top.specs.Stores.{stored_all, HasBroken, HasFirst};

use crate::answer::NewFile;
use opgen_io::{Folder, StoreFault};

/// Stores the files in order, and stops at the first that is not stored.
pub(crate) fn store_all<F: Folder>(files: &[NewFile], folder: &mut F) -> Result<(), StoreFault>
    ensures tells { is_some (F.told folder.new) ≡ is_some (F.told folder.old) }
    ensures read_faults_same { F.read_faults folder.new ≡ F.read_faults folder.old }
    ensures lacks_same { F.lacks folder.new ≡ F.lacks folder.old }
    ensures longs_same { F.longs folder.new ≡ F.longs folder.old }
    ensures write_faults_kept { F.write_faults folder.old ≤ F.write_faults folder.new }

    ensures none { map store_of files.now ≡ [] → IsOk result }
    ensures none_same { map store_of files.now ≡ [] → F.told folder.new ≡ F.told folder.old }
    ensures ok { (before : Files) → F.told folder.old ≡ Some before →
        OnOk result (F.told folder.new ≡ Some (stored_all (map store_of files.now) before)) }
    ensures failed_counted { result ≡ Err StoreFault.Failed →
        Rose (F.write_faults folder.old) (F.write_faults folder.new) }
    ensures failed { (before : Files) → F.told folder.old ≡ Some before → result ≡ Err StoreFault.Failed →
        HasBroken (map store_of files.now) before (F.told folder.new) }
    ensures memory { (before : Files) → F.told folder.old ≡ Some before → result ≡ Err StoreFault.Memory →
        HasFirst (map store_of files.now) before (F.told folder.new) }
{
    let Some((first, later)) = files.split_first() else {
        return Ok(());
    };
    match folder.store(&first.name, &first.bytes) {
        Ok(()) => store_all(later, folder),
        Err(fault) => Err(fault),
    }
}
