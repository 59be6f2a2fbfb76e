//! What a replica asks of the disk that keeps its batches.

ghost use Rattle.std.specs.Prelude.{◌≡◌, ◌<◌, ◌≤◌, List, [], ℕ, Bool, false, None, Ok, IsTrue, IfOk, OnErr, length};
ghost use Rattle.run_model.specs.declared.batch.Batch.{Batch as BatchOf};
ghost use Rattle.run_model.specs.Worlds.{Running, Up, Down, first_running};
ghost use Rattle.ind_disk.specs.Bay.{IsEmpty};
ghost use Rattle.op_records.specs.Spelling.{IsBatch};
ghost use Rattle.batch_storage.specs.Shown.{Costs, IsAwake, Shown, shown_of};
ghost use Rattle.batch_storage.specs.Kept.{KeepsBatch, KeepsFound, StillKeeps};
ghost use Rattle.batch_storage.specs.declared.storage.Found.TheVariants as found;

use ind_base::NoMemory;
use ind_disk::Disk;
use run_model::Batch;
use std::alloc::Global;

/// What a start finds on a disk.
#[derive(Clone, Copy, PartialEq, Eq)]
pub enum Found {
    /// The disk failed, or holds what no journal of these batches left.
    Broken,
    /// The batches that were kept, and no other.
    Without,
    /// These, and the one that was pending.
    With,
}

/// The batches of a replica on its disk. While the replica is up a journal is live on the disk, and
/// batches can be added; while it is down nothing is.
pub trait Storage: Sized {
    type D: Disk + Drop;

    /// What is seen of its disk.
    ghost shows: { Self → Shown };

    /// Among so many replicas it keeps these batches of one that is up, or down with what is pending:
    /// then a crash leaves the batches, or these and the pending one.
    ghost keeps: { Self → ℕ → List BatchOf → Running → Type 0 };

    /// Bytes that may come back, among so many replicas, of one that kept these batches: up, a finished
    /// journal of them; down, what stands for them, or for them and the pending one.
    ghost comes_back: { ℕ → List BatchOf → Running → List ℕ → Type 0 };

    /// Starts on an empty disk on which nothing is pending. With `false` the disk failed, and the
    /// replica begins down.
    fn begin(alloc: Global, disk: Self::D, replicas: u32) -> Result<(Self, bool), NoMemory>
        requires empty { IsEmpty (Self.D.standing disk) (Self.D.may_leave disk) }
        ensures kept { IfOk result (λ made. keeps made.0 replicas [] (first_running made.1)) }
        ensures costs { IfOk result (λ made. IsAwake (Self.D.standing disk) → Costs (shown_of (Self.D.standing disk)) (shows made.0) (made.1 ≡ false)) };

    /// Adds a batch. With `false` the disk failed, and it isn't known whether the batch is kept.
    fn append(&mut self, alloc: Global, batch: &Batch) -> Result<bool, NoMemory>
        requires kept { (n : ℕ) × (batches : List BatchOf) × keeps self.old n batches Up × IsBatch n batch.now.items × (length batches < 100000) }
        ensures kept { IfOk result (λ ok. (n : ℕ) (batches : List BatchOf) → keeps self.old n batches Up → IsBatch n batch.now.items → length batches < 100000 → KeepsBatch (keeps self.new n) batches batch.now ok) }
        ensures err { OnErr result ((n : ℕ) (batches : List BatchOf) → keeps self.old n batches Up → keeps self.new n batches Up) }
        ensures still { OnErr result ((n : ℕ) → StillKeeps (keeps self.old n) (keeps self.new n)) }
        ensures costs { Costs (shows self.old) (shows self.new) (result ≡ Ok false) };

    /// Stops: the replica goes down.
    fn stop(&mut self)
        requires kept { (n : ℕ) × (batches : List BatchOf) × keeps self.old n batches Up }
        ensures kept { (n : ℕ) (batches : List BatchOf) → keeps self.old n batches Up → keeps self.new n batches (Down None) }
        ensures same { shows self.new ≡ shows self.old };

    /// Restarts the disk and starts on it, where these batches were kept, and perhaps the one that is
    /// pending. A refusal for want of memory leaves only batches that a crash could leave before.
    fn restart(
        &mut self,
        alloc: Global,
        replicas: u32,
        kept: &[Batch],
        pending: &Option<Batch>,
    ) -> Result<Found, NoMemory>
        requires kept { keeps self.old replicas kept.now (Down pending.now) }
        ensures found { IfOk result (KeepsFound (keeps self.new replicas) kept.now pending.now) }
        ensures err { OnErr result (keeps self.new replicas kept.now (Down pending.now)) }
        ensures still { OnErr result (StillKeeps (keeps self.old replicas) (keeps self.new replicas)) }
        ensures costs { Costs (shows self.old) (shows self.new) (result ≡ Ok found.Broken) };

    /// The disk.
    fn into_disk(self) -> Self::D
        ensures journal { (n : ℕ) (batches : List BatchOf) (running : Running) → keeps self n batches running → IsTrue (shows self).tells → comes_back n batches running (Self.D.standing result).bytes }
        ensures shown { shows self ≡ shown_of (Self.D.standing result) };
}
