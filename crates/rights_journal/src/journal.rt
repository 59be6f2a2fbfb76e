//! The journal.

ghost use Rattle.std.specs.Prelude.{◌≡◌, ◌⊎◌, ◌<◌, ◌≤◌, ◌+◌, ◌^◌, ◌++◌, [], ◌∷◌, List, ℕ, false, true, length, max, IsTrue, IsErrOf, IfOk, IfErr, OnOk, OnErr};
ghost use Rattle.std.proofs.Common.{inl, inr, refl};
ghost use Rattle.std.proofs.Math.Nat.{le-add_right};
ghost use Rattle.ind_disk.specs.Disk.{Only, Leaves, LeavesOnly, MakesRoom};
ghost use Rattle.ind_disk.specs.declared.disk.DiskError.TheVariants as disk_errors;
ghost use Rattle.rights_journal.specs.declared.journal.AppendError.TheVariants as append_errors;
ghost use Rattle.rights_journal.specs.Image.{IsFinished, IsBetween, StandsFor, IsForeign, IsWithin};
ghost use Rattle.rights_journal.specs.Reading.{known_and};
ghost use Rattle.rights_journal.specs.Starting.{StartsNot};
ghost use Rattle.rights_journal.specs.declared.starting.StartWhy.TheVariants as whys;
ghost use Rattle.rights_journal.specs.Appending.{framed, IsBeforeOrAfter};
ghost use Rattle.run_model.specs.declared.batch.Batch.{Batch as BatchOf};
ghost use Rattle.rights_journal.specs.Batches.{IsSpelled, text_of};
ghost use Rattle.rights_journal.specs.Kept.{IsKept, Spends};

use crate::batches::encode_batch;
use crate::keeps::Keeps;
use crate::law::one_thing;
use crate::starting::{StartWhy, prepare};
use crate::writing::add_frame;
use ind_base::{List as Items, NoMemory};
use ind_disk::{Disk, DiskError};
use run_model::Batch;
use std::alloc::Global;

/// The size that no append passes.
const LIMIT: u64 = 1 << 30;

/// Why a batch was not added.
#[derive(Clone, Copy, Debug, PartialEq, Eq)]
pub enum AppendError {
    Disk,
    Full,
    Memory,
}

/// A journal on a disk.
#[derive(Drop)]
pub struct Journal<D: Disk> {
    pub disk: D,
    pub gate: u64,
    pub replicas: u32,
    pub live: bool,
}

/// Makes room, puts bytes behind the closed gate and opens it.
pub fn store<D: Disk>(disk: &mut D, gate: u64, frame: &[u8]) -> Result<(), DiskError>
    requires place { gate < (D.standing disk.old).size }
    requires limit { gate + 1 + length frame.now ≤ 2 ^ 30 }
    requires settled { Only (D.standing disk.old).bytes (D.may_leave disk.old) }

    ensures written { OnOk result (IsTrue (D.standing disk.old).tells → (front rest : List ℕ) (closed : ℕ) → length front ≡ gate
        → (D.standing disk.old).bytes ≡ front ++ closed ∷ rest
        → (more : List ℕ) × ((D.standing disk.new).bytes ≡ front ++ 1 ∷ (frame.now ++ more))) }
    ensures size { OnOk result ((D.standing disk.new).size ≡ max (D.standing disk.old).size (gate + 1 + length frame.now)) }
    ensures durable { OnOk result (Only (D.standing disk.new).bytes (D.may_leave disk.new)) }
    ensures run { Spends (D.standing disk.old) (D.standing disk.new) (IsErrOf result disk_errors.Failed) }
    ensures any_moment { IsTrue (D.standing disk.old).tells → (front rest : List ℕ) (closed : ℕ) → length front ≡ gate
        → (D.standing disk.old).bytes ≡ front ++ closed ∷ rest
        → LeavesOnly D.moment D.left_since disk.old disk.new (IsBetween front closed frame.now
        (max (D.standing disk.old).size (gate + 1 + length frame.now))) }
    ensures unchanged { IsErrOf result disk_errors.Memory
        → MakesRoom (D.standing disk.old) (D.standing disk.new) × Leaves (D.may_leave disk.old) (D.may_leave disk.new) }
{
    if disk.ready(4).is_err() {
        return Err(DiskError::Memory);
    }
    add_frame(disk, gate, frame)
}

/// The length of a batch, its bytes and a closed gate.
fn frame_of(alloc: Global, replicas: u32, batch: &Batch) -> Result<Items<u8>, NoMemory>
    requires { IsSpelled replicas batch.now }
    ensures value { IfOk result (λ frame. frame ≡ framed replicas batch.now) }
    ensures size { IfOk result (λ frame. length frame ≤ 7000) }
{
    let bytes = encode_batch(alloc, replicas, batch)?;
    let count = (bytes.len() as u32).to_be_bytes();
    let mut frame = Items::from_vec(Vec::with_capacity(alloc, bytes.len() + 5)?);
    frame.extend(count.as_slice())?;
    frame.extend(bytes.as_slice())?;
    frame.push(0)?;
    Ok(frame)
}

/// A journal that has started, and its batches: so many of those that were known, and the others.
#[derive(Drop)]
pub struct Started<J> {
    pub journal: J,
    pub same: usize,
    pub batches: Items<Batch>,
}

/// A journal that has not, and its disk.
#[derive(Drop)]
pub struct StartFailed<D> {
    pub disk: D,
    pub why: StartWhy,
}

impl<D: Disk + Drop> Journal<D> {
    /// Starts a journal on a disk on which nothing is pending.
    pub fn start(
        alloc: Global,
        disk: D,
        replicas: u32,
        known: &[Batch],
    ) -> Result<Started<Journal<D>>, StartFailed<D>>
        requires settled { Only (D.standing disk).bytes (D.may_leave disk) }

        // What it gives is what the bytes stood for, and the journal holds it.
        ensures batches { IfOk result (λ s. IsTrue (D.standing disk).tells → StandsFor replicas (known_and s.same known.now s.batches) (D.standing disk).bytes) }
        ensures finished { IfOk result (λ s. IsTrue (D.standing disk).tells
            → IsFinished replicas (known_and s.same known.now s.batches) (D.standing s.journal.disk).bytes) }
        ensures same { IfOk result (λ s. s.same ≤ length known.now) }
        ensures kept { IfOk result (λ s. IsKept replicas (D.standing s.journal.disk) (D.may_leave s.journal.disk) s.journal.gate) }
        ensures live { IfOk result (λ s. (s.journal.live ≡ true) × (s.journal.replicas ≡ replicas)) }

        // It refuses what is foreign, with the place.
        ensures refused { IfErr result (λ e. StartsNot (λ at. IsTrue (D.standing disk).tells → IsForeign replicas at (D.standing disk).bytes) e.why) }

        // A crash at any moment leaves the batches from before, in no more bytes than there were, or ten.
        ensures any_moment { IfOk result (λ s. IsTrue (D.standing disk).tells → (batches : List BatchOf) → StandsFor replicas batches (D.standing disk).bytes
            → LeavesOnly D.moment D.left_since disk s.journal.disk (StandsFor replicas batches)) }
        ensures any_moment_err { IfErr result (λ e. IsTrue (D.standing disk).tells → (batches : List BatchOf) → StandsFor replicas batches (D.standing disk).bytes
            → LeavesOnly D.moment D.left_since disk e.disk (StandsFor replicas batches)) }
        ensures short { IfOk result (λ s. IsTrue (D.standing disk).tells → (longest : ℕ) → 10 ≤ longest → length (D.standing disk).bytes ≤ longest
            → LeavesOnly D.moment D.left_since disk s.journal.disk (λ c. length c ≤ longest)) }
        ensures short_err { IfErr result (λ e. IsTrue (D.standing disk).tells → (longest : ℕ) → 10 ≤ longest → length (D.standing disk).bytes ≤ longest
            → LeavesOnly D.moment D.left_since disk e.disk (λ c. length c ≤ longest)) }
        ensures end { IfOk result (λ s. IsTrue (D.standing disk).tells → (longest : ℕ) → 10 ≤ longest → length (D.standing disk).bytes ≤ longest → length (D.standing s.journal.disk).bytes ≤ longest) }

        // After want of memory the disk stands for what it stood for.
        ensures memory { IfErr result (λ e. e.why ≡ whys.Memory → IsTrue (D.standing disk).tells → (batches : List BatchOf)
            → StandsFor replicas batches (D.standing disk).bytes → StandsFor replicas batches (D.standing e.disk).bytes) }

        // Its disk fails only with a cause.
        ensures run { IfOk result (λ s. Spends (D.standing disk) (D.standing s.journal.disk) ⊥) }
        ensures run_err { IfErr result (λ e. Spends (D.standing disk) (D.standing e.disk) (e.why ≡ whys.Disk)) }
    {
        let mut disk = disk;
        match prepare::<D>(alloc, &mut disk, replicas, known) {
            Ok(frames) => Ok(Started {
                journal: Journal {
                    disk,
                    gate: frames.gate,
                    replicas,
                    live: true,
                },
                same: frames.same,
                batches: frames.batches,
            }),
            Err(why) => Err(StartFailed { disk, why }),
        }
    }

    /// Whether no append has met a disk that failed.
    pub fn is_live(&self) -> bool
        ensures { result ≡ self.now.live }
    {
        self.live
    }

    /// The disk.
    pub fn into_disk(self) -> D
        ensures { result ≡ self.disk }
    {
        let Journal {
            disk,
            gate: _,
            replicas: _,
            live: _,
        } = self;
        disk
    }
}

impl<D: Disk> Journal<D> {
    /// Adds a batch.
    pub fn append(&mut self, alloc: Global, batch: &Batch) -> Result<(), AppendError>
        requires live { IsTrue self.old.live }
        requires kept { IsKept self.old.replicas
            (D.standing self.old.disk) (D.may_leave self.old.disk) self.old.gate }
        requires spelled { IsSpelled self.old.replicas batch.now }

        // At `Ok` each crash leaves the batches with the new one.
        ensures added { OnOk result (IsTrue (D.standing self.old.disk).tells → (batches : List BatchOf)
            → IsFinished self.old.replicas batches (D.standing self.old.disk).bytes
            → IsFinished self.old.replicas (batches ++ batch.now ∷ []) (D.standing self.new.disk).bytes) }

        // A crash at any moment leaves the batches from before, or these and the new one.
        ensures any_moment { IsTrue (D.standing self.old.disk).tells → (batches : List BatchOf)
            → IsFinished self.old.replicas batches (D.standing self.old.disk).bytes
            → LeavesOnly D.moment D.left_since self.old.disk self.new.disk
            (IsBeforeOrAfter self.old.replicas batches batch.now) }

        // It is full exactly where the size would pass the limit, but for want of memory, and then nothing has changed.
        ensures full { IsErrOf result append_errors.Full → 2 ^ 30 < max (D.standing self.old.disk).size (self.old.gate + 1 + length (framed self.old.replicas batch.now)) }
        ensures not_full { max (D.standing self.old.disk).size (self.old.gate + 1 + length (framed self.old.replicas batch.now)) ≤ 2 ^ 30 ⊎ IsErrOf result append_errors.Full ⊎ IsErrOf result append_errors.Memory }
        ensures unchanged { IsErrOf result append_errors.Full → self.new ≡ self.old }
        ensures memory { IsErrOf result append_errors.Memory → (D.standing self.new.disk).bytes ≡ (D.standing self.old.disk).bytes }

        // A journal of so many batches and one lost frame isn't longer than they may be.
        ensures within { IsTrue (D.standing self.old.disk).tells → (batches : List BatchOf)
            → IsFinished self.old.replicas batches (D.standing self.old.disk).bytes
            → IsWithin (length batches) (D.standing self.old.disk).bytes
            → LeavesOnly D.moment D.left_since self.old.disk self.new.disk (IsWithin (length batches)) }
        ensures end { OnOk result (IsTrue (D.standing self.old.disk).tells → (batches : List BatchOf)
            → IsFinished self.old.replicas batches (D.standing self.old.disk).bytes
            → IsWithin (length batches) (D.standing self.old.disk).bytes → IsWithin (length batches) (D.standing self.new.disk).bytes) }

        // It is live until the disk fails, and then nothing is pending.
        ensures alive { OnErr result (IsErrOf result append_errors.Disk ⊎ IsTrue self.new.live) }
        ensures alive_ok { OnOk result (IsTrue self.new.live) }
        ensures kept { IsTrue self.new.live → IsKept self.new.replicas
            (D.standing self.new.disk) (D.may_leave self.new.disk) self.new.gate }
        ensures dead { IsErrOf result append_errors.Disk → self.new.live ≡ false }
        ensures replicas { self.new.replicas ≡ self.old.replicas }
        ensures run { Spends (D.standing self.old.disk) (D.standing self.new.disk) (IsErrOf result append_errors.Disk) }
    {
        let Ok(frame) = frame_of(alloc, self.replicas, batch) else {
            return Err(AppendError::Memory);
        };
        let size = self.disk.size();
        if size > LIMIT || self.gate + 1 + frame.len() as u64 > LIMIT {
            return Err(AppendError::Full);
        }
        match store(&mut self.disk, self.gate, frame.as_slice()) {
            Ok(()) => {
                self.gate += frame.len() as u64;
                Ok(())
            }
            Err(DiskError::Memory) => Err(AppendError::Memory),
            Err(DiskError::Failed) => {
                self.live = false;
                Err(AppendError::Disk)
            }
        }
    }
}

impl<D: Disk + Drop> Keeps for Journal<D> {
    type D = D;

    ghost disk_of = { λ j. j.disk };

    ghost replicas_of = { λ j. j.replicas };

    ghost fresh = { 10 };

    ghost live = { λ j. j.live };

    ghost is_kept = { λ j. IsKept j.replicas (D.standing j.disk) (D.may_leave j.disk) j.gate };

    ghost is_batch = { λ replicas b. IsSpelled replicas b };

    ghost stands_for = { λ replicas batches c. StandsFor replicas batches c };

    ghost finished = { λ replicas batches c. IsFinished replicas batches c };

    ghost foreign = { λ replicas at c. IsForeign replicas at c };

    ghost size_with = { λ j b. max (D.standing j.disk).size (j.gate + 1 + length (framed j.replicas b)) };

    ghost finished_stands = { λ replicas batches bytes fin. inr fin };

    ghost nothing_stands = { λ replicas. inl (inl (le-add_right 0 1), refl) };

    ghost spelled = { λ replicas batch is. is };

    ghost fresh_within = { le-add_right 10 7054 };

    ghost settled = { λ j kept. kept.settled };

    ghost awake = { λ j kept. kept.awake };

    fn start(
        alloc: Global,
        disk: D,
        replicas: u32,
        known: &[Batch],
    ) -> Result<Started<Journal<D>>, StartFailed<D>> {
        Journal::<D>::start(alloc, disk, replicas, known)
    }

    fn append(&mut self, alloc: Global, batch: &Batch) -> Result<(), AppendError> {
        Journal::<D>::append(self, alloc, batch)
    }

    fn is_live(&self) -> bool {
        Journal::<D>::is_live(self)
    }

    fn into_disk(self) -> D {
        Journal::<D>::into_disk(self)
    }

    fn one_thing() {
        one_thing()
    }

    fn adds_little() {}
}
