//! What a step has in hand.

ghost use Rattle.std.specs.Prelude.{◌≡◌};

use run_model::Message;

/// What a take has in hand: a message, or the stamp of a step that sent none, since its replica was
/// down. All other steps have nothing in hand, nor has a take that has no number.
#[derive(Drop)]
pub enum Heard {
    Nothing,
    Unsent { stamp: u64 },
    Message(Message),
}

impl Heard {
    ghost use Rattle.replica_course.specs.Parts.{stamp_of};

    /// The stamp of the step that sent it; 0 where it is nothing.
    pub(crate) fn stamp(&self) -> u64
        ensures { result ≡ stamp_of self.now }
    {
        match self {
            Heard::Nothing => 0,
            Heard::Unsent { stamp } => *stamp,
            Heard::Message(message) => message.stamp,
        }
    }
}
