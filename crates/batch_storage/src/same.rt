//! Whether batches are the same.

ghost use Rattle.std.specs.Prelude.{◌≡◌, ◌↔◌, IsTrue};

use op_records::same_batch;
use run_model::Batch;

/// Whether two lists of batches are the same.
pub fn same_batches(a: &[Batch], b: &[Batch]) -> bool
    ensures { IsTrue result ↔ (a.now ≡ b.now) }
{
    let mut left = b;
    for batch in a {
        let [other, rest @ ..] = left else {
            return false;
        };
        if !same_batch(batch, other) {
            return false;
        }
        left = rest;
    }
    left.is_empty()
}
