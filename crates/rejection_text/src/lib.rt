//! The text of a rejected pair of operations.
#![tactic(auto)]

mod lines;
mod parts;

pub use lines::rejection;
