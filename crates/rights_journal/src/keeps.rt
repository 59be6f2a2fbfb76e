//! What is asked of a journal, whatever its format.

ghost use Rattle.std.specs.Prelude.{◌≡◌, ◌⊎◌, ◌<◌, ◌≤◌, ◌+◌, ◌*◌, ◌^◌, ◌++◌, [], ◌∷◌, List, ℕ, Bool, true, false, length, IsTrue, IsErrOf, IfOk, IfErr, OnOk, OnErr};
ghost use Rattle.ind_disk.specs.Disk.{Only, LeavesOnly};
ghost use Rattle.rights_journal.specs.declared.journal.AppendError.TheVariants as append_errors;
ghost use Rattle.rights_journal.specs.declared.starting.StartWhy.TheVariants as whys;
ghost use Rattle.rights_journal.specs.Image.{IsWithin};
ghost use Rattle.op_records.specs.Spelling.{IsBatch};
ghost use Rattle.run_model.specs.declared.batch.Batch.{Batch as BatchOf};
ghost use Rattle.rights_journal.specs.Kept.{Spends};
ghost use Rattle.rights_journal.specs.Reading.{known_and};
ghost use Rattle.rights_journal.specs.Starting.{StartsNot};

use crate::journal::{AppendError, StartFailed, Started};
use ind_disk::Disk;
use run_model::Batch;
use std::alloc::Global;

/// A journal of batches on a disk.
pub trait Keeps: Sized {
    type D: Disk + Drop;

    /// Its disk, the number of replicas that it was started with, and whether no append has met a disk that failed.
    ghost disk_of: { Self → Self.D };

    ghost replicas_of: { Self → ℕ };

    ghost live: { Self → Bool };

    /// What holds of a live journal.
    ghost is_kept: { Self → Type 0 };

    /// A batch that has a spelling with this number of replicas.
    ghost is_batch: { ℕ → BatchOf → Type 0 };

    /// Bytes that stand for these batches; that are a finished journal of them; that are foreign at this place.
    ghost stands_for: { ℕ → List BatchOf → List ℕ → Type 0 };

    ghost finished: { ℕ → List BatchOf → List ℕ → Type 0 };

    ghost foreign: { ℕ → ℕ → List ℕ → Type 0 };

    /// The size of the disk with one more batch.
    ghost size_with: { Self → BatchOf → ℕ };

    /// The longest that a fresh start makes of a disk.
    ghost fresh: { ℕ };

    /// Starts a journal on a disk on which nothing is pending. Batches that are known and stand
    /// there in the same order aren't made again.
    fn start(
        alloc: Global,
        disk: Self::D,
        replicas: u32,
        known: &[Batch],
    ) -> Result<Started<Self>, StartFailed<Self::D>>
        requires settled { Only (Self.D.standing disk).bytes (Self.D.may_leave disk) }

        // What it gives is what the bytes stood for, and the journal holds it.
        ensures batches { IfOk result (λ s. IsTrue (Self.D.standing disk).tells → stands_for replicas (known_and s.same known.now s.batches) (Self.D.standing disk).bytes) }
        ensures finished { IfOk result (λ s. IsTrue (Self.D.standing disk).tells → finished replicas (known_and s.same known.now s.batches) (Self.D.standing (Self.disk_of s.journal)).bytes) }
        ensures same { IfOk result (λ s. s.same ≤ length known.now) }
        ensures kept { IfOk result (λ s. is_kept s.journal) }
        ensures live { IfOk result (λ s. (Self.live s.journal ≡ true) × (Self.replicas_of s.journal ≡ replicas)) }

        // It refuses what is foreign, with the place.
        ensures refused { IfErr result (λ e. StartsNot (λ at. IsTrue (Self.D.standing disk).tells → foreign replicas at (Self.D.standing disk).bytes) e.why) }

        // A crash at any moment leaves the batches from before, in no more bytes than there were, or than a fresh start makes.
        ensures any_moment { IfOk result (λ s. IsTrue (Self.D.standing disk).tells → (batches : List BatchOf) → stands_for replicas batches (Self.D.standing disk).bytes
            → LeavesOnly Self.D.moment Self.D.left_since disk (Self.disk_of s.journal) (stands_for replicas batches)) }
        ensures any_moment_err { IfErr result (λ e. IsTrue (Self.D.standing disk).tells → (batches : List BatchOf) → stands_for replicas batches (Self.D.standing disk).bytes
            → LeavesOnly Self.D.moment Self.D.left_since disk e.disk (stands_for replicas batches)) }

        ensures short { IfOk result (λ s. IsTrue (Self.D.standing disk).tells → (longest : ℕ) → fresh ≤ longest → length (Self.D.standing disk).bytes ≤ longest
            → LeavesOnly Self.D.moment Self.D.left_since disk (Self.disk_of s.journal) (λ c. length c ≤ longest)) }
        ensures short_err { IfErr result (λ e. IsTrue (Self.D.standing disk).tells → (longest : ℕ) → fresh ≤ longest → length (Self.D.standing disk).bytes ≤ longest
            → LeavesOnly Self.D.moment Self.D.left_since disk e.disk (λ c. length c ≤ longest)) }
        ensures end { IfOk result (λ s. IsTrue (Self.D.standing disk).tells → (longest : ℕ) → fresh ≤ longest → length (Self.D.standing disk).bytes ≤ longest
            → length (Self.D.standing (Self.disk_of s.journal)).bytes ≤ longest) }

        // After want of memory the disk stands for what it stood for.
        ensures memory { IfErr result (λ e. e.why ≡ whys.Memory → IsTrue (Self.D.standing disk).tells → (batches : List BatchOf)
            → stands_for replicas batches (Self.D.standing disk).bytes → stands_for replicas batches (Self.D.standing e.disk).bytes) }

        // Its disk fails only with a cause.
        ensures run { IfOk result (λ s. Spends (Self.D.standing disk) (Self.D.standing (Self.disk_of s.journal)) ⊥) }
        ensures run_err { IfErr result (λ e. Spends (Self.D.standing disk) (Self.D.standing e.disk) (e.why ≡ whys.Disk)) };

    /// Adds a batch.
    fn append(&mut self, alloc: Global, batch: &Batch) -> Result<(), AppendError>
        requires live { IsTrue (live self.old) }
        requires kept { is_kept self.old }
        requires spelled { is_batch (replicas_of self.old) batch.now }

        // At `Ok` each crash leaves the batches with the new one.
        ensures added { OnOk result (IsTrue (Self.D.standing (disk_of self.old)).tells → (batches : List BatchOf)
            → finished (replicas_of self.old) batches (Self.D.standing (disk_of self.old)).bytes
            → finished (replicas_of self.old) (batches ++ batch.now ∷ []) (Self.D.standing (disk_of self.new)).bytes) }

        // A crash at any moment leaves the batches from before, or these and the new one.
        ensures any_moment { IsTrue (Self.D.standing (disk_of self.old)).tells → (batches : List BatchOf)
            → finished (replicas_of self.old) batches (Self.D.standing (disk_of self.old)).bytes
            → LeavesOnly Self.D.moment Self.D.left_since (disk_of self.old) (disk_of self.new)
            (λ c. finished (replicas_of self.old) batches c ⊎ finished (replicas_of self.old) (batches ++ batch.now ∷ []) c) }

        // It is full exactly where the size would pass the limit, but for want of memory, and then nothing has changed.
        ensures full { IsErrOf result append_errors.Full → 2 ^ 30 < size_with self.old batch.now }
        ensures not_full { (size_with self.old batch.now ≤ 2 ^ 30) ⊎ IsErrOf result append_errors.Full ⊎ IsErrOf result append_errors.Memory }
        ensures unchanged { IsErrOf result append_errors.Full → self.new ≡ self.old }
        ensures memory { IsErrOf result append_errors.Memory → (Self.D.standing (disk_of self.new)).bytes ≡ (Self.D.standing (disk_of self.old)).bytes }

        // A journal of so many batches and one lost frame isn't longer than they may be.
        ensures within { IsTrue (Self.D.standing (disk_of self.old)).tells → (batches : List BatchOf)
            → finished (replicas_of self.old) batches (Self.D.standing (disk_of self.old)).bytes → IsWithin (length batches) (Self.D.standing (disk_of self.old)).bytes
            → LeavesOnly Self.D.moment Self.D.left_since (disk_of self.old) (disk_of self.new) (IsWithin (length batches)) }
        ensures end { OnOk result (IsTrue (Self.D.standing (disk_of self.old)).tells → (batches : List BatchOf)
            → finished (replicas_of self.old) batches (Self.D.standing (disk_of self.old)).bytes → IsWithin (length batches) (Self.D.standing (disk_of self.old)).bytes
            → IsWithin (length batches) (Self.D.standing (disk_of self.new)).bytes) }

        // It is live until the disk fails, and then nothing is pending.
        ensures alive { OnErr result (IsErrOf result append_errors.Disk ⊎ IsTrue (live self.new)) }
        ensures alive_ok { OnOk result (IsTrue (live self.new)) }
        ensures kept { IsTrue (live self.new) → is_kept self.new }
        ensures dead { IsErrOf result append_errors.Disk → live self.new ≡ false }
        ensures replicas { replicas_of self.new ≡ replicas_of self.old }
        ensures run { Spends (Self.D.standing (disk_of self.old)) (Self.D.standing (disk_of self.new)) (IsErrOf result append_errors.Disk) };

    /// Whether no append has met a disk that failed.
    fn is_live(&self) -> bool
        ensures { result ≡ live self.now };

    /// The disk.
    fn into_disk(self) -> Self::D
        ensures { result ≡ disk_of self };

    /// Bytes stand for at most one list of batches, and then they aren't foreign.
    fn one_thing()
        ensures once { (replicas : ℕ) (xs ys : List BatchOf) (bytes : List ℕ) → stands_for replicas xs bytes → stands_for replicas ys bytes → xs ≡ ys }
        ensures never_both { (replicas at : ℕ) (batches : List BatchOf) (bytes : List ℕ) → stands_for replicas batches bytes → foreign replicas at bytes → ⊥ };

    /// An append makes a journal at most 7,000 bytes longer than it may be.
    fn adds_little()
        ensures { (j : Self) (batches : List BatchOf) (batch : BatchOf) → is_kept j → IsTrue (Self.D.standing (disk_of j)).tells
            → finished (replicas_of j) batches (Self.D.standing (disk_of j)).bytes → IsWithin (length batches) (Self.D.standing (disk_of j)).bytes
            → is_batch (replicas_of j) batch → size_with j batch ≤ 64 + 7000 * (length batches + 2) };

    /// A finished journal stands for its batches, and no bytes stand for none.
    ghost finished_stands: { (replicas : ℕ) (batches : List BatchOf) (bytes : List ℕ) → finished replicas batches bytes → stands_for replicas batches bytes };

    ghost nothing_stands: { (replicas : ℕ) → stands_for replicas [] [] };

    /// A batch with a spelling is one of the journal's.
    ghost spelled: { (replicas : ℕ) (batch : BatchOf) → IsBatch replicas batch.items → is_batch replicas batch };

    /// What a fresh start makes is no longer than a journal without batches may be.
    ghost fresh_within: { fresh ≤ 64 + 7000 };

    /// Of a live journal nothing is pending, and its disk isn't stopped.
    ghost settled: { (j : Self) → is_kept j → Only (Self.D.standing (disk_of j)).bytes (Self.D.may_leave (disk_of j)) };

    ghost awake: { (j : Self) → is_kept j → IsTrue (Self.D.standing (disk_of j)).tells_stops → (Self.D.standing (disk_of j)).is_stopped ≡ false };
}
