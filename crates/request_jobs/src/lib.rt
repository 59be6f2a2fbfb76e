//! Jobs that run beside one another, each in a thread of its own.
#![tactic(auto)]

mod job;

pub use job::{Job, run_all};
