//! The replicas of a schedule, with all that they sent so far.
#![tactic(auto)]

mod links;
mod world;

pub use world::{Ended, World};
