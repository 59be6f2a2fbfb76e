//! The start of a journal.

ghost use Rattle.std.specs.Prelude.{◌≡◌, ◌<◌, ◌≤◌, List, ℕ, false, length, IsTrue, IsErrOf, IfOk, IfErr, OnOk};
ghost use Rattle.ind_disk.specs.Disk.{Only, LeavesOnly};
ghost use Rattle.ind_disk.specs.declared.disk.DiskError.TheVariants.{Failed, Memory};
ghost use Rattle.run_model.specs.declared.batch.Batch.{Batch as BatchOf};
ghost use Rattle.rights_journal.specs.Kept.{Spends};
ghost use Rattle.rights_journal.specs.Image.{IsUnfinished, StandsFor, IsForeign};
ghost use Rattle.rights_journal.specs.Afresh.{IsFresh, IsNew};
ghost use Rattle.rights_journal.specs.Reading.{IsRead, known_and};
ghost use Rattle.rights_journal.specs.Starting.{StartsNot};
ghost use Rattle.rights_journal.specs.declared.starting.StartWhy.TheVariants as whys;
ghost use Rattle.ind_disk.specs.Disk.{IsRun};

use crate::afresh::make_afresh;
use crate::reading::{Frames, Refusal, frames_of, has_header, is_unfinished};
use ind_base::List as Items;
use ind_disk::{Disk, DiskError};
use run_model::Batch;
use std::alloc::Global;

/// Why a journal did not start.
#[derive(Clone, Copy, Debug, PartialEq, Eq)]
pub enum StartWhy {
    Disk,
    Foreign { at: u64 },
    Memory,
}

/// Reads all bytes, and leaves room for six calls.
pub fn load<D: Disk>(alloc: Global, disk: &mut D) -> Result<Items<u8>, DiskError>
    requires settled { Only (D.standing disk.old).bytes (D.may_leave disk.old) }

    ensures bytes { IfOk result (λ b. IsTrue (D.standing disk.old).tells → b ≡ (D.standing disk.old).bytes) }
    ensures size { IfOk result (λ b. length b ≡ (D.standing disk.old).size) }
    ensures same { OnOk result ((D.standing disk.new).bytes ≡ (D.standing disk.old).bytes) }
    ensures same_size { OnOk result ((D.standing disk.new).size ≡ (D.standing disk.old).size) }
    ensures kept { IsErrOf result Memory → (D.standing disk.new).bytes ≡ (D.standing disk.old).bytes }
    ensures durable { OnOk result (Only (D.standing disk.new).bytes (D.may_leave disk.new)) }
    ensures room { OnOk result (6 ≤ (D.standing disk.new).spare) }
    ensures awake { OnOk result (IsTrue (D.standing disk.old).tells_stops → (D.standing disk.old).is_stopped ≡ false) }
    ensures run { Spends (D.standing disk.old) (D.standing disk.new) (IsErrOf result Failed) }
    ensures any_moment { LeavesOnly D.moment D.left_since disk.old disk.new (λ c. c ≡ (D.standing disk.old).bytes) }
{
    let size = disk.size() as usize;
    if disk.ready(7).is_err() {
        return Err(DiskError::Memory);
    }
    let Ok(mut bytes) = vec![in alloc; 0u8; size] else {
        return Err(DiskError::Memory);
    };
    disk.read_at(0, bytes.as_mut_slice())?;
    Ok(Items::from_vec(bytes))
}

/// Makes a journal afresh.
fn begin_afresh<D: Disk>(disk: &mut D, bytes: &[u8]) -> Result<(), StartWhy>
    requires same { IsTrue (D.standing disk.old).tells → (D.standing disk.old).bytes ≡ bytes.now }
    requires size { length bytes.now ≡ (D.standing disk.old).size }
    requires unfinished { IsUnfinished bytes.now }
    requires settled { Only (D.standing disk.old).bytes (D.may_leave disk.old) }
    requires room { 6 ≤ (D.standing disk.old).spare }

    ensures opened { OnOk result (IsTrue (D.standing disk.old).tells → IsNew 1 (D.standing disk.new).bytes) }
    ensures size { OnOk result (10 ≤ (D.standing disk.new).size) }
    ensures durable { OnOk result (Only (D.standing disk.new).bytes (D.may_leave disk.new)) }
    ensures run { IsRun 6 (D.standing disk.old) (D.standing disk.new) (IsErrOf result whys.Disk) }
    ensures any_moment { IsTrue (D.standing disk.old).tells → LeavesOnly D.moment D.left_since disk.old disk.new IsFresh }
    ensures memory { IsErrOf result whys.Memory → IsTrue (D.standing disk.old).tells → IsUnfinished (D.standing disk.new).bytes }
    ensures refused { IfErr result (λ e. StartsNot (λ at. ⊥) e) }
{
    match make_afresh(disk, bytes) {
        Ok(()) => Ok(()),
        Err(DiskError::Failed) => Err(StartWhy::Disk),
        Err(DiskError::Memory) => Err(StartWhy::Memory),
    }
}

/// Reads bytes that aren't an unfinished journal.
fn read_image(
    alloc: Global,
    replicas: u32,
    known: &[Batch],
    bytes: &[u8],
) -> Result<Frames, StartWhy>
    requires { IsUnfinished bytes.now → ⊥ }
    ensures read { IfOk result (λ f. IsRead replicas (known_and f.same known.now f.batches) f.gate bytes.now) }
    ensures refused { IfErr result (λ e. StartsNot (λ at. IsForeign replicas at bytes.now) e) }
    ensures within { IfOk result (λ f. f.same ≤ length known.now) }
    ensures never { IsErrOf result whys.Disk → ⊥ }
{
    if !has_header(bytes) {
        return Err(StartWhy::Foreign { at: 0 });
    }
    match frames_of(alloc, replicas, known, bytes) {
        Ok(frames) => Ok(frames),
        Err(Refusal::Memory) => Err(StartWhy::Memory),
        Err(Refusal::Foreign(at)) => Err(StartWhy::Foreign { at }),
    }
}

/// Says what the bytes of the disk stand for, and makes a journal afresh where they are an unfinished one.
pub fn interpret<D: Disk>(
    alloc: Global,
    disk: &mut D,
    replicas: u32,
    known: &[Batch],
    bytes: &[u8],
) -> Result<Frames, StartWhy>
    requires same { IsTrue (D.standing disk.old).tells → (D.standing disk.old).bytes ≡ bytes.now }
    requires size { length bytes.now ≡ (D.standing disk.old).size }
    requires settled { Only (D.standing disk.old).bytes (D.may_leave disk.old) }
    requires room { 6 ≤ (D.standing disk.old).spare }

    ensures batches { IfOk result (λ f. StandsFor replicas (known_and f.same known.now f.batches) bytes.now) }
    ensures refused { IfErr result (λ e. StartsNot (λ at. IsForeign replicas at bytes.now) e) }
    ensures read { IfOk result (λ f. IsTrue (D.standing disk.old).tells → IsRead replicas (known_and f.same known.now f.batches) f.gate (D.standing disk.new).bytes) }
    ensures within { IfOk result (λ f. f.same ≤ length known.now) }
    ensures inside { IfOk result (λ f. f.gate < (D.standing disk.new).size) }
    ensures durable { OnOk result (Only (D.standing disk.new).bytes (D.may_leave disk.new)) }
    ensures run { IsRun 6 (D.standing disk.old) (D.standing disk.new) (IsErrOf result whys.Disk) }
    ensures any_moment { IsTrue (D.standing disk.old).tells → (batches : List BatchOf) → StandsFor replicas batches bytes.now
        → LeavesOnly D.moment D.left_since disk.old disk.new (StandsFor replicas batches) }
    ensures short { IsTrue (D.standing disk.old).tells → (longest : ℕ) → 10 ≤ longest → length bytes.now ≤ longest
        → LeavesOnly D.moment D.left_since disk.old disk.new (λ c. length c ≤ longest) }
    ensures end { OnOk result (IsTrue (D.standing disk.old).tells → (longest : ℕ) → 10 ≤ longest → length bytes.now ≤ longest → length (D.standing disk.new).bytes ≤ longest) }
    ensures memory { IsErrOf result whys.Memory → IsTrue (D.standing disk.old).tells → (batches : List BatchOf) → StandsFor replicas batches bytes.now
        → StandsFor replicas batches (D.standing disk.new).bytes }
{
    if is_unfinished(bytes) {
        begin_afresh(disk, bytes)?;
        return Ok(Frames {
            same: 0,
            batches: Items::new(alloc),
            gate: 9,
        });
    }
    read_image(alloc, replicas, known, bytes)
}

/// Reads a journal, or makes it afresh where the bytes are an unfinished one.
pub fn prepare<D: Disk>(
    alloc: Global,
    disk: &mut D,
    replicas: u32,
    known: &[Batch],
) -> Result<Frames, StartWhy>
    requires settled { Only (D.standing disk.old).bytes (D.may_leave disk.old) }

    ensures batches { IfOk result (λ f. IsTrue (D.standing disk.old).tells → StandsFor replicas (known_and f.same known.now f.batches) (D.standing disk.old).bytes) }
    ensures refused { IfErr result (λ e. StartsNot (λ at. IsTrue (D.standing disk.old).tells → IsForeign replicas at (D.standing disk.old).bytes) e) }
    ensures read { IfOk result (λ f. IsTrue (D.standing disk.old).tells → IsRead replicas (known_and f.same known.now f.batches) f.gate (D.standing disk.new).bytes) }
    ensures within { IfOk result (λ f. f.same ≤ length known.now) }
    ensures inside { IfOk result (λ f. f.gate < (D.standing disk.new).size) }
    ensures durable { OnOk result (Only (D.standing disk.new).bytes (D.may_leave disk.new)) }
    ensures awake { OnOk result (IsTrue (D.standing disk.old).tells_stops → (D.standing disk.new).is_stopped ≡ false) }
    ensures run { Spends (D.standing disk.old) (D.standing disk.new) (IsErrOf result whys.Disk) }
    ensures any_moment { IsTrue (D.standing disk.old).tells → (batches : List BatchOf) → StandsFor replicas batches (D.standing disk.old).bytes
        → LeavesOnly D.moment D.left_since disk.old disk.new (StandsFor replicas batches) }
    ensures short { IsTrue (D.standing disk.old).tells → (longest : ℕ) → 10 ≤ longest → length (D.standing disk.old).bytes ≤ longest
        → LeavesOnly D.moment D.left_since disk.old disk.new (λ c. length c ≤ longest) }
    ensures end { OnOk result (IsTrue (D.standing disk.old).tells → (longest : ℕ) → 10 ≤ longest → length (D.standing disk.old).bytes ≤ longest → length (D.standing disk.new).bytes ≤ longest) }
    ensures memory { IsErrOf result whys.Memory → IsTrue (D.standing disk.old).tells → (batches : List BatchOf)
        → StandsFor replicas batches (D.standing disk.old).bytes
        → StandsFor replicas batches (D.standing disk.new).bytes }
{
    let bytes = match load(alloc, disk) {
        Ok(bytes) => bytes,
        Err(DiskError::Failed) => return Err(StartWhy::Disk),
        Err(DiskError::Memory) => return Err(StartWhy::Memory),
    };
    interpret::<D>(alloc, disk, replicas, known, bytes.as_slice())
}
