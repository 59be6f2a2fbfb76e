//! A start on a disk, where it is known what was kept.

ghost use Rattle.std.specs.Prelude.{◌≡◌, List, IsTrue, IfOk, OnOk, OnErr, Ok, Option};
ghost use Rattle.run_model.specs.declared.batch.Batch.{Batch as BatchOf};
ghost use Rattle.ind_disk.specs.Disk.{Only};
ghost use Rattle.batch_storage.specs.Shown.{Costs, IsAwake, shown_of};
ghost use Rattle.batch_storage.specs.Kept.{KeepsFound};
ghost use Rattle.batch_storage.specs.Held.{IsStored, IsLeft, IsUp, IsDown, IsHeld, disk_in};
ghost use Rattle.batch_storage.specs.declared.storage.Found.TheVariants as found;
ghost use Rattle.rights_journal.specs.declared.starting.StartWhy.TheVariants as whys;
ghost use Rattle.run_model.specs.Worlds.{Down};

use crate::found::found_behind;
use crate::held::{Held, hold};
use crate::storage::Found;
use crate::waking::wake;
use ind_base::NoMemory;
use ind_disk::DiskError;
use rights_journal::{Keeps, StartWhy};
use run_model::Batch;
use std::alloc::Global;

/// What a start found that failed.
fn found_by(why: StartWhy) -> Result<Found, NoMemory>
    ensures broken { IfOk result (λ f. f ≡ found.Broken) }
    ensures memory { OnOk result (why ≡ whys.Memory → ⊥) }
{
    match why {
        StartWhy::Memory => Err(NoMemory),
        StartWhy::Disk | StartWhy::Foreign { at: _ } => Ok(Found::Broken),
    }
}

/// Starts a journal on a disk on which nothing is pending.
pub fn start_on<J: Keeps + Drop>(
    alloc: Global,
    disk: J::D,
    replicas: u32,
    kept: &[Batch],
    pending: &Option<Batch>,
) -> (Held<J, J::D>, Result<Found, NoMemory>)
    requires settled { Only (J.D.standing disk).bytes (J.D.may_leave disk) }
    requires left { IsTrue (J.D.standing disk).tells → IsLeft (J.stands_for replicas) kept.now pending.now (J.D.standing disk).bytes }
    ensures found { IfOk result.1 (KeepsFound (λ batches running. IsHeld
        (λ j. IsUp (J.live j) (J.is_kept j) (J.replicas_of j) replicas (J.D.standing (J.disk_of j)) (IsStored (J.finished replicas) batches))
        (λ d next. IsDown (J.D.standing d) (J.D.may_leave d) (IsLeft (J.stands_for replicas) batches next))
        running result.0) kept.now pending.now) }
    ensures err { OnErr result.1 (IsHeld
        (λ j. ⊥)
        (λ d next. IsDown (J.D.standing d) (J.D.may_leave d) (IsLeft (J.stands_for replicas) kept.now next))
        (Down pending.now) result.0) }
    ensures still { OnErr result.1 ((batches : List BatchOf) (next : Option BatchOf)
        → (IsTrue (J.D.standing disk).tells → IsLeft (J.stands_for replicas) batches next (J.D.standing disk).bytes)
        → IsHeld (λ j. ⊥) (λ d next. IsDown (J.D.standing d) (J.D.may_leave d) (IsLeft (J.stands_for replicas) batches next)) (Down next) result.0) }
    ensures costs { IsAwake (J.D.standing disk) → Costs (shown_of (J.D.standing disk)) (shown_of (J.D.standing (disk_in J.disk_of result.0))) (result.1 ≡ Ok found.Broken) }
{
    J::one_thing();
    match J::start(alloc, disk, replicas, kept) {
        Ok(started) => {
            let found = found_behind(started.same, started.batches.as_slice(), kept, pending);
            (hold(started.journal, found), Ok(found))
        }
        Err(failed) => (Held::Disk(failed.disk), found_by(failed.why)),
    }
}

/// Restarts a disk and starts a journal on it.
pub fn restart_on<J: Keeps + Drop>(
    alloc: Global,
    disk: J::D,
    replicas: u32,
    kept: &[Batch],
    pending: &Option<Batch>,
) -> (Held<J, J::D>, Result<Found, NoMemory>)
    requires kept { IsDown (J.D.standing disk) (J.D.may_leave disk) (IsLeft (J.stands_for replicas) kept.now pending.now) }
    ensures found { IfOk result.1 (KeepsFound (λ batches running. IsHeld
        (λ j. IsUp (J.live j) (J.is_kept j) (J.replicas_of j) replicas (J.D.standing (J.disk_of j)) (IsStored (J.finished replicas) batches))
        (λ d next. IsDown (J.D.standing d) (J.D.may_leave d) (IsLeft (J.stands_for replicas) batches next))
        running result.0) kept.now pending.now) }
    ensures err { OnErr result.1 (IsHeld
        (λ j. ⊥)
        (λ d next. IsDown (J.D.standing d) (J.D.may_leave d) (IsLeft (J.stands_for replicas) kept.now next))
        (Down pending.now) result.0) }
    ensures still { OnErr result.1 ((batches : List BatchOf) (next : Option BatchOf)
        → IsDown (J.D.standing disk) (J.D.may_leave disk) (IsLeft (J.stands_for replicas) batches next)
        → IsHeld (λ j. ⊥) (λ d next. IsDown (J.D.standing d) (J.D.may_leave d) (IsLeft (J.stands_for replicas) batches next)) (Down next) result.0) }
    ensures costs { Costs (shown_of (J.D.standing disk)) (shown_of (J.D.standing (disk_in J.disk_of result.0))) (result.1 ≡ Ok found.Broken) }
{
    let mut disk = disk;
    match wake::<J::D>(&mut disk) {
        Ok(()) => start_on::<J>(alloc, disk, replicas, kept, pending),
        Err(DiskError::Failed) => (Held::Disk(disk), Ok(Found::Broken)),
        Err(DiskError::Memory) => (Held::Disk(disk), Err(NoMemory)),
    }
}
