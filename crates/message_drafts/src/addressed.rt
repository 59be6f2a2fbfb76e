//! Whether a message is for a replica.

ghost use Rattle.std.specs.Prelude.{◌↔◌, IsTrue};
ghost use Rattle.message_laws.specs.Heeded.{IsAddressed};

use run_model::Message;
use spec_model::Setup;

/// Whether a message is from another replica of the setup to replica `me`, with a count of each
/// replica's items.
pub fn is_addressed(setup: &Setup, me: u32, message: &Message) -> bool
    ensures { IsTrue result ↔ IsAddressed setup.now me message.now }
{
    message.from < setup.replicas
        && message.from != me
        && message.to == me
        && message.cut.len() == setup.replicas as usize
}
