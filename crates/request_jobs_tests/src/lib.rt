//! Tests of jobs that share a link and own passes.
#![tactic(auto)]

mod putting;
#[cfg(test)]
mod tests;

pub use putting::{Putting, put_on_two};
