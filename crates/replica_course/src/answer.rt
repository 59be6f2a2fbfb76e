//! What a step answers.

use run_model::{Message, StepEntry};

/// The entry of a step, which also stands last in the history, and the message that it sent, if it
/// sent one.
#[derive(Drop)]
pub struct Answer {
    pub entry: StepEntry,
    pub sent: Option<Message>,
}
