//! One replica through its stops: how it stands, the batches that it kept, and what it did.
#![tactic(auto)]

mod answer;
mod course;
mod deciding;
mod heard;
mod keeping;
mod laws;
mod refusing;
mod resting;
mod stopping;
mod writing;

pub use answer::Answer;
pub use course::Course;
pub use heard::Heard;
pub use laws::decided_is_spelled;
