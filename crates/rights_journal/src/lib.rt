//! A journal of batches on a disk: each one is there whole or not at all, whatever stops the disk.
#![tactic(auto)]

mod afresh;
mod again;
mod batches;
mod journal;
mod keeps;
mod law;
mod reading;
mod starting;
mod writing;

pub use again::start_again;
pub use journal::{AppendError, Journal, StartFailed, Started};
pub use keeps::Keeps;
pub use law::{before_or_after, fresh_keeps, one_more, one_thing};
pub use starting::StartWhy;
