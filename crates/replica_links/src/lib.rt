//! Links: what was put on one is what was taken from it, followed by what it holds.
#![tactic(auto)]

mod link;
mod moves;
mod pass;

pub use link::{Full, Link, Made};
pub use pass::{GetPass, LinkRule, PutPass, View};
