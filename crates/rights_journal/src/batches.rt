//! The bytes of batches among so many replicas.

ghost use Rattle.std.specs.Prelude.{◌≡◌, ◌≤◌, ℕ, length, true, false, IfOk, IsTrue, MatchOption};
ghost use Rattle.run_model.specs.declared.batch.Batch.{Batch as BatchOf};
ghost use Rattle.rights_journal.specs.Batches.{FirstPast, IsSpelled, text_of};

use ind_base::{List as Items, NoMemory};
use op_records::{decode_items, encode_items, is_spelled};
use run_model::Batch;
use std::alloc::Global;

/// The bytes of a batch.
#[tactic(auto, unfolding(crate::specs::Batches::text_of))]
pub fn encode_batch(alloc: Global, replicas: u32, batch: &Batch) -> Result<Items<u8>, NoMemory>
    requires { IsSpelled replicas batch.now }
    ensures value { IfOk result (λ bytes. bytes ≡ text_of replicas batch.now) }
    ensures short { IfOk result (λ bytes. length bytes ≤ 6995) }
{
    encode_items(alloc, replicas, batch)
}

/// Whether the past of the first item is one of so many replicas.
fn is_among(replicas: u32, batch: &Batch) -> bool
    ensures yes { result ≡ true → FirstPast replicas batch.now.items }
    ensures no { result ≡ false → FirstPast replicas batch.now.items → ⊥ }
{
    match batch.items.as_slice() {
        [] => false,
        [item, ..] => item.deps.len() == replicas as usize,
    }
}

/// The batch of these bytes; `None` where they are none of so many replicas.
pub fn decode_batch(alloc: Global, replicas: u32, bytes: &[u8]) -> Result<Option<Batch>, NoMemory>
    ensures { IfOk result (λ read. MatchOption read
        ((b : BatchOf) → IsSpelled replicas b → bytes.now ≡ text_of replicas b → ⊥)
        (λ b. IsSpelled replicas b × (bytes.now ≡ text_of replicas b))) }
{
    match decode_items(alloc, bytes)? {
        None => Ok(None),
        Some(batch) => {
            if is_among(replicas, &batch) {
                Ok(Some(batch))
            } else {
                Ok(None)
            }
        }
    }
}

/// Whether these are the bytes of this batch. It takes no memory.
pub fn is_text(replicas: u32, batch: &Batch, bytes: &[u8]) -> bool
    ensures { IsTrue result → IsSpelled replicas batch.now × (bytes.now ≡ text_of replicas batch.now) }
{
    is_spelled(batch, bytes) && is_among(replicas, batch)
}
