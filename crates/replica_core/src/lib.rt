//! One replica: what it has applied, what it holds, and what it decides by itself.
#![tactic(auto)]

mod decision;
mod laws;
mod readying;
mod recovery;
mod replica;
mod reports;
mod requesting;
mod same;
mod taking;

pub use decision::Decision;
pub use laws::{breaks_change_nothing, commits_more, decided_grow};
pub use message_drafts::Taken;
pub use replica::Replica;
