//! The program over a source, a sink, a bay of disks and a gate that are handed in: it reads a
//! document, runs its replicas, on a schedule or for clients in threads, and writes the trace.
#![tactic(auto)]

mod command;
mod gate;
mod reply;
mod running;
mod soak;
mod top;
mod words;

pub use command::Command;
pub use gate::NoGate;
pub use top::{indigo, tool};
