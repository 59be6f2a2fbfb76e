//! Tests of workers at desks, over numbers that grow by what is asked.
#![tactic(auto)]

mod gates;
#[cfg(test)]
mod tests;
mod work;

pub use gates::{Meeting, Tally};
pub use work::{at_two_desks, meeting, with_a_refusal};
