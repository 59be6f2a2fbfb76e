//! Tests of the turn desk, over a number that grows by what is asked.
#![tactic(auto)]

mod adder;
mod jobs;
#[cfg(test)]
mod tests;

pub use adder::Adder;
pub use jobs::{one_thread, two_threads};
