//! Tests of the program's `run`: that its threads are at work beside one another, that no lock joins
//! replicas, and that many runs of a document come to the same.
#![tactic(auto)]

mod gates;
mod holds;
mod runs;
#[cfg(test)]
mod tests;

pub use gates::{Meeting, NoWait};
pub use holds::Holding;
pub use runs::{apart, bought_in, carried_in, meeting};
