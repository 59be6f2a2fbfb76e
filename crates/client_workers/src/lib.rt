//! The rooms of the links of a run for clients, and the workers that put what is asked to its replicas.
#![tactic(auto)]

mod laws;
mod rooms;
mod workers;

pub use laws::turns_are_few;
pub use rooms::rooms_of;
pub use workers::workers_of;
