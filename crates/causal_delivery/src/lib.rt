//! Which items of a log are sent, and which of those that come are applied.
#![tactic(auto)]

mod admission;
mod window;

pub use admission::{Admitted, admit};
pub use window::next_items;
