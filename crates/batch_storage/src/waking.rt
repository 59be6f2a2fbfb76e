//! Restarts.

ghost use Rattle.std.specs.Prelude.{List, ℕ, IsTrue, IsErrOf, OnOk};
ghost use Rattle.ind_disk.specs.Disk.{Only};
ghost use Rattle.ind_disk.specs.declared.disk.DiskError.TheVariants as disk_errors;
ghost use Rattle.batch_storage.specs.Shown.{Costs, IsAwake, shown_of};

use ind_disk::{Disk, DiskError};

/// Restarts a disk, for which it makes room.
pub fn wake<D: Disk>(disk: &mut D) -> Result<(), DiskError>
    ensures image { OnOk result (IsTrue (D.standing disk.old).tells → D.may_leave disk.old (D.standing disk.new).bytes) }
    ensures durable { OnOk result (Only (D.standing disk.new).bytes (D.may_leave disk.new)) }
    ensures awake { OnOk result (IsAwake (D.standing disk.new)) }
    ensures crash { (c : List ℕ) → D.may_leave disk.new c → D.may_leave disk.old c }
    ensures costs { Costs (shown_of (D.standing disk.old)) (shown_of (D.standing disk.new)) (IsErrOf result disk_errors.Failed) }
{
    if disk.ready(1).is_err() {
        return Err(DiskError::Memory);
    }
    disk.restart()
}
