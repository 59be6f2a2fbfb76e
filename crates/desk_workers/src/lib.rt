//! Workers that put their asks to values at desks, each in a thread of its own.
#![tactic(auto)]

mod gate;
mod places;
mod serve;
mod shift;
mod slot;
mod worker;

pub use gate::Gate;
pub use serve::serve_all;
pub use worker::Worker;
