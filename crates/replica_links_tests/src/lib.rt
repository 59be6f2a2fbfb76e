//! Tests of links, over numbers.
#![tactic(auto)]

mod relays;
#[cfg(test)]
mod tests;

pub use relays::{filled, one_after_another, two_threads};
