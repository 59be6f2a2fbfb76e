//! Points of a partition: each stands at one replica at most, which alone acts there.
#![tactic(auto)]

mod edits;
mod kind;
mod laws;
mod points;
mod roomy;
mod runs;
mod spans;

pub use laws::held_is_whole;
pub use points::Points;
pub use spans::{span_missing, span_run};
