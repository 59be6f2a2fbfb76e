//! What goes over a link between two replicas.

ghost use Rattle.std.specs.Prelude.{◌≡◌};
ghost use Rattle.replica_wires.specs.Letters.{addressed, letter_in};

use ind_base::{Cut, List};
use run_model::Message;
use spec_model::{LogItem, Want};

/// A message without its sender and its receiver, which are those of the link.
#[derive(Drop)]
pub struct Letter {
    pub number: u32,
    pub stamp: u64,
    pub cut: Cut,
    pub items: List<LogItem>,
    pub wants: List<Want>,
}

/// A message without its sender and its receiver.
pub(crate) fn letter_of(message: Message) -> Letter
    ensures { result ≡ letter_in message }
{
    let Message {
        number,
        stamp,
        cut,
        items,
        wants,
        ..
    } = message;
    Letter {
        number,
        stamp,
        cut,
        items,
        wants,
    }
}

/// The message that a letter is on the link from one replica to another.
pub(crate) fn message_of(from: u32, to: u32, letter: Letter) -> Message
    ensures { result ≡ addressed from to letter }
{
    let Letter {
        number,
        stamp,
        cut,
        items,
        wants,
    } = letter;
    Message {
        from,
        to,
        number,
        stamp,
        cut,
        items,
        wants,
    }
}
