//! Wants: what a replica lacked and asks others for, and what is given to one who asks.
#![tactic(auto)]

mod answers;
mod asking;
mod wants;

pub use answers::{Give, answer};
pub use asking::{need_of, want_less, want_of};
pub use wants::Wants;
