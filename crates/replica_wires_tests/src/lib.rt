//! Tests of links between replicas, over empty messages.
#![tactic(auto)]

mod relays;
#[cfg(test)]
mod tests;

pub use relays::{filled, two_threads};
