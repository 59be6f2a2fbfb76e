//! What was decided on a message.

use run_model::Batch;

/// What a replica does with a message. The batch has `applied` items of the message, then
/// `accepted` Accepts and then `gave` Outs of its own.
#[derive(Drop)]
pub struct Taken {
    pub batch: Batch,
    pub applied: u32,
    pub accepted: u32,
    pub gave: u32,
}
