//! Where a replica keeps its batches, through stops and restarts of its disk.
#![tactic(auto)]

mod appending;
mod found;
mod held;
mod journaled;
mod same;
mod starting;
mod storage;
mod waking;

pub use journaled::Journaled;
pub use storage::{Found, Storage};
