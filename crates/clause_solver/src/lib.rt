//! The least model of clauses over numbered variables, or a derivation that there is none.
#![tactic(auto)]

mod answer;
mod assignment;
mod learning;
mod propagation;
mod rows;
mod solving;
mod uses;

pub use answer::{Answer, SolveError};
pub use solving::solve;
