//! What holds of every batch.

ghost use Rattle.std.specs.Prelude.{◌≡◌, ◌≤◌, List, ℕ, length};
ghost use Rattle.spec_model.specs.declared.log.LogItem.{LogItem};
ghost use Rattle.op_records.specs.Logged.{FitIsSpelled, LoggedIsSpelled};
ghost use Rattle.op_records.specs.Spelling.{IsBatch, batch_text, Spells};

/// No bytes spell two batches.
pub fn one_batch()
    ensures { (bytes : List ℕ) (xs ys : List LogItem) → Spells bytes xs → Spells bytes ys → xs ≡ ys }
{}

/// A batch of 40 items, each of at most 60 bytes, is the longest.
pub fn batches_are_short()
    ensures { (replicas : ℕ) (items : List LogItem) → IsBatch replicas items → length (batch_text replicas items) ≤ 2403 }
{}

/// Any 1 to 40 items that fit, with small counts in their pasts, have a spelling.
pub fn fit_is_spelled()
    ensures { FitIsSpelled }
{}

/// Any 1 to 40 items of the logs of a run have a spelling.
pub fn logged_is_spelled()
    ensures { LoggedIsSpelled }
{}
