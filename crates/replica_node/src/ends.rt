//! What a node asks of its ends of the links to all others.

ghost use Rattle.std.specs.Prelude.{◌≡◌, ◌≤◌, ◌↔◌, ℕ, List, Ok, Err, is_ok};
ghost use Rattle.run_model.specs.declared.message.Message.{Message as MessageOf};
ghost use Rattle.replica_node.specs.Ends.{AreSame, CountsIdle, Gets, Puts};

use run_model::Message;

/// A link had no room for the message.
#[derive(Drop)]
pub struct Full {
    pub message: Message,
}

/// One replica's ends of the links between it and all others: for each of them one on which messages
/// are put, and one from which they are got.
pub trait Ends {
    /// Whose ends they are. No value of it is made.
    type Mark;

    /// No call changes it.
    ghost mark: { Self → Self.Mark };

    /// The replica whose ends they are.
    ghost owner: { Self.Mark → ℕ };

    /// The replicas to which the links lead.
    ghost reaches: { Self.Mark → ℕ → Type 0 };

    /// How many messages there is room for on the link to each.
    ghost room: { Self.Mark → ℕ → ℕ };

    /// What was put on the link to each, in order.
    ghost puts: { Self → ℕ → List MessageOf };

    /// What was got from the link of each, in order.
    ghost gots: { Self → ℕ → List MessageOf };

    /// How many gets found no message.
    ghost idles: { Self → ℕ };

    /// Puts a message of this replica on the link to its receiver. It comes back only where as many
    /// messages as there is room for were put there.
    fn put(&mut self, message: Message) -> Result<(), Full>
        requires own { message.from ≡ owner (mark self.old) }
        requires reaches { reaches (mark self.old) message.to }
        ensures mark { mark self.new ≡ mark self.old }
        ensures puts { Puts (room (mark self.old) message.to) message (is_ok result) (puts self.old) (puts self.new) }
        ensures gots { AreSame (gots self.old) (gots self.new) }
        ensures idles { idles self.new ≡ idles self.old };

    /// Gets the next message of a replica; `None` where none is there.
    fn get(&mut self, from: u32) -> Option<Message>
        requires reaches { reaches (mark self.old) from }
        ensures mark { mark self.new ≡ mark self.old }
        ensures puts { AreSame (puts self.old) (puts self.new) }
        ensures gots { Gets from result (gots self.old) (gots self.new) }
        ensures idles { CountsIdle result (idles self.old) (idles self.new) };
}
