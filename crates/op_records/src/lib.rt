//! The bytes of a batch of items: one spelling for each batch.
#![tactic(auto)]

mod cursor;
mod laws;
mod reading;
mod same;
mod writing;

pub use laws::{batches_are_short, fit_is_spelled, logged_is_spelled, one_batch};
pub use reading::{decode_items, is_spelled};
pub use same::same_batch;
pub use writing::encode_items;
