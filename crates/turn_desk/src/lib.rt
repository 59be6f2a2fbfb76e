//! A value that threads take in turns, by tickets, with one line of all turns.
#![tactic(auto)]

mod desk;
mod line;
mod pass;
mod plays;
mod steps;
mod turn;

pub use desk::Desk;
pub use line::{Entry, Noted};
pub use pass::{DeskRule, Key, Pass, View};
pub use turn::Turn;
