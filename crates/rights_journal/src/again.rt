//! A start after a crash, however many starts the crash cut short.

ghost use Rattle.std.specs.Prelude.{◌≡◌, ◌⊎◌, List, ℕ, IsTrue, IfOk, IfErr, OnOk};
ghost use Rattle.ind_disk.specs.Disk.{Only, LeavesOnly};
ghost use Rattle.run_model.specs.declared.batch.Batch.{Batch as BatchOf};
ghost use Rattle.rights_journal.specs.Again.{IsLeft, disk_after};
ghost use Rattle.rights_journal.specs.Starting.{StartsNot};

use crate::journal::{StartFailed, Started};
use crate::keeps::Keeps;
use crate::starting::StartWhy;
use ind_disk::{Disk, DiskError};
use std::alloc::Global;

/// Restarts a disk, for which it makes room.
fn wake<D: Disk>(disk: &mut D) -> Result<(), StartWhy>
    ensures image { OnOk result (IsTrue (D.standing disk.old).tells → D.may_leave disk.old (D.standing disk.new).bytes) }
    ensures durable { OnOk result (Only (D.standing disk.new).bytes (D.may_leave disk.new)) }
    ensures tells { (D.standing disk.new).tells ≡ (D.standing disk.old).tells }
    ensures crash { (c : List ℕ) → D.may_leave disk.new c → D.may_leave disk.old c }
    ensures any_moment { LeavesOnly D.moment D.left_since disk.old disk.new (D.may_leave disk.old) }
    ensures refused { IfErr result (λ e. StartsNot (λ at. ⊥) e) }
{
    if disk.ready(1).is_err() {
        return Err(StartWhy::Memory);
    }
    match disk.restart() {
        Ok(()) => Ok(()),
        Err(DiskError::Failed) => Err(StartWhy::Disk),
        Err(DiskError::Memory) => Err(StartWhy::Memory),
    }
}

/// Restarts a disk that a journal left, and starts a journal of the same kind on it.
pub fn start_again<J: Keeps>(
    alloc: Global,
    disk: J::D,
    replicas: u32,
) -> Result<Started<J>, StartFailed<J::D>>
    // It gives one of the two lists of batches that a crash may leave, and never finds the bytes foreign.
    ensures batches { IfOk result (λ s. (before after : List BatchOf) → IsLeft (J.stands_for replicas) before after (J.D.standing disk) (J.D.may_leave disk)
        → (s.batches ≡ before) ⊎ (s.batches ≡ after)) }
    ensures never_foreign { IfErr result (λ e. (before after : List BatchOf) → IsLeft (J.stands_for replicas) before after (J.D.standing disk) (J.D.may_leave disk)
        → StartsNot (λ at. ⊥) e.why) }

    // Whatever it answers, a crash leaves one of them at each moment of the call, and so the next start is as this one.
    ensures any_moment { (before after : List BatchOf) → IsLeft (J.stands_for replicas) before after (J.D.standing disk) (J.D.may_leave disk)
        → LeavesOnly J.D.moment J.D.left_since disk (disk_after J.disk_of result) (λ c. J.stands_for replicas before c ⊎ J.stands_for replicas after c) }
    ensures again { (before after : List BatchOf) → IsLeft (J.stands_for replicas) before after (J.D.standing disk) (J.D.may_leave disk)
        → IsLeft (J.stands_for replicas) before after (J.D.standing (disk_after J.disk_of result)) (J.D.may_leave (disk_after J.disk_of result)) }
{
    let mut disk = disk;
    if let Err(why) = wake::<J::D>(&mut disk) {
        return Err(StartFailed { disk, why });
    }
    J::one_thing();
    J::start(alloc, disk, replicas, &[])
}
