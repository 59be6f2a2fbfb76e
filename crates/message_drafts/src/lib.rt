//! What a replica takes of a message, before any of it is done.
#![tactic(auto)]

mod addressed;
mod answering;
mod deciding;
mod draft;
mod fitting;
mod front;
mod joining;
mod logging;
mod taken;
mod taking;

pub use addressed::is_addressed;
pub use taken::Taken;
pub use taking::take;
