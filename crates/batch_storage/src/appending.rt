//! An append to a journal, and what is left of it where the disk fails.

ghost use Rattle.std.specs.Prelude.{◌≡◌, ◌<◌, ℕ, List, Ok, false, IfOk, OnErr, length};
ghost use Rattle.op_records.specs.Spelling.{IsBatch};
ghost use Rattle.run_model.specs.declared.batch.Batch.{Batch as BatchOf};
ghost use Rattle.run_model.specs.Worlds.{Up};
ghost use Rattle.batch_storage.specs.Shown.{Costs, shown_of};
ghost use Rattle.batch_storage.specs.Kept.{KeepsBatch};
ghost use Rattle.batch_storage.specs.Held.{IsStored, IsLeft, IsUp, IsDown, IsHeld, disk_in};

use crate::held::Held;
use ind_base::NoMemory;
use rights_journal::{AppendError, Keeps};
use run_model::Batch;
use std::alloc::Global;

/// Adds a batch to a live journal. With `false` its disk alone is left.
pub fn append_to<J: Keeps + Drop>(
    alloc: Global,
    journal: J,
    batch: &Batch,
) -> (Held<J, J::D>, Result<bool, NoMemory>)
    requires kept { (n : ℕ) × (batches : List BatchOf)
        × IsUp (J.live journal) (J.is_kept journal) (J.replicas_of journal) n (J.D.standing (J.disk_of journal)) (IsStored (J.finished n) batches)
        × IsBatch n batch.now.items × (length batches < 100000) }
    ensures kept { IfOk result.1 (λ ok. (n : ℕ) (batches : List BatchOf)
        → IsUp (J.live journal) (J.is_kept journal) (J.replicas_of journal) n (J.D.standing (J.disk_of journal)) (IsStored (J.finished n) batches)
        → IsBatch n batch.now.items → length batches < 100000
        → KeepsBatch (λ all running. IsHeld
        (λ j. IsUp (J.live j) (J.is_kept j) (J.replicas_of j) n (J.D.standing (J.disk_of j)) (IsStored (J.finished n) all))
        (λ d next. IsDown (J.D.standing d) (J.D.may_leave d) (IsLeft (J.stands_for n) all next))
        running result.0) batches batch.now ok) }
    ensures err { OnErr result.1 ((n : ℕ) (batches : List BatchOf)
        → IsUp (J.live journal) (J.is_kept journal) (J.replicas_of journal) n (J.D.standing (J.disk_of journal)) (IsStored (J.finished n) batches)
        → IsHeld
        (λ j. IsUp (J.live j) (J.is_kept j) (J.replicas_of j) n (J.D.standing (J.disk_of j)) (IsStored (J.finished n) batches))
        (λ d next. ⊥)
        Up result.0) }
    ensures costs { Costs (shown_of (J.D.standing (J.disk_of journal))) (shown_of (J.D.standing (disk_in J.disk_of result.0))) (result.1 ≡ Ok false) }
{
    J::adds_little();
    let mut journal = journal;
    match journal.append(alloc, batch) {
        Ok(()) => (Held::Journal(journal), Ok(true)),
        Err(AppendError::Memory) => (Held::Journal(journal), Err(NoMemory)),
        Err(AppendError::Disk) => (Held::Disk(journal.into_disk()), Ok(false)),
        Err(AppendError::Full) => (Held::Disk(journal.into_disk()), Ok(false)),
    }
}
