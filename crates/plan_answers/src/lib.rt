//! What the analysis of a specification, and the check of a plan and a certificate, answer: a
//! status and a text.
#![tactic(auto)]

mod analysing;
mod answer;
mod checking;
mod laws;
mod splitting;

pub use analysing::{Analysis, analyse, analyse_answer};
pub use answer::Answer;
pub use checking::check_answer;
pub use laws::planned_is_checked;
pub use splitting::{line_count, lines, split_at_plan};
