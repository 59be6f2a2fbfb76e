//! What clients ask, and what couriers are asked: the turns of each replica of a run.
#![tactic(auto)]

mod asking;

pub use asking::{asks_by, courier_asks, sends_over};
