//! What a replica heeds of a message, and that in a run it heeds all of it.
#![tactic(auto)]

mod laws;

pub use laws::{messages_are_heeded, needs_fit};
