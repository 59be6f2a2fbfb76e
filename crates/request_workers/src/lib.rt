//! Runs of documents: on their schedules, and for clients in threads.
#![tactic(auto)]

mod closing;
mod desks;
mod disks;
mod serving;
mod simulation;

pub use serving::{Clients, serve};
pub use simulation::simulate;
