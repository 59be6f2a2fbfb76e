//! Links between all replicas, and each replica's ends of them.
#![tactic(auto)]

mod begun;
mod letter;
mod passes;
mod settling;
mod web;
mod wires;

pub use passes::Passes;
pub use web::Web;
pub use wires::{Place, Wires};
