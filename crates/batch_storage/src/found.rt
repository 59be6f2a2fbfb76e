//! What the batches of a start are to those that were kept.

ghost use Rattle.std.specs.Prelude.{◌↔◌, ◌≤◌, IsTrue, length};
ghost use Rattle.rights_journal.specs.Reading.{known_and};
ghost use Rattle.batch_storage.specs.Found.{IsWith, IsFound};

use crate::same::same_batches;
use crate::storage::Found;
use op_records::same_batch;
use run_model::Batch;

/// Whether these are the batches, and behind them the one that is pending.
fn is_with(batches: &[Batch], kept: &[Batch], pending: &Option<Batch>) -> bool
    ensures { IsTrue result ↔ IsWith batches.now kept.now pending.now }
{
    match (batches.split_last(), pending) {
        (Some((last, front)), Some(batch)) => {
            same_batches(front, kept) && same_batch(last, batch)
        }
        _ => false,
    }
}

/// What a start found that gave these batches.
fn found_in(batches: &[Batch], kept: &[Batch], pending: &Option<Batch>) -> Found
    ensures { IsFound batches.now kept.now pending.now result }
{
    if same_batches(batches, kept) {
        return Found::Without;
    }
    if is_with(batches, kept, pending) {
        Found::With
    } else {
        Found::Broken
    }
}

/// What a start found that gave so many of the kept batches, and others behind them.
pub fn found_behind(same: usize, others: &[Batch], kept: &[Batch], pending: &Option<Batch>) -> Found
    requires { same ≤ length kept.now }
    ensures { IsFound (known_and same kept.now others.now) kept.now pending.now result }
{
    let (_same, rest) = kept.split_at(same);
    found_in(others, rest, pending)
}
