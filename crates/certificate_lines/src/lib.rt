//! The lines of a plan and a certificate as they are written: their forms, both ways.
#![tactic(auto)]

mod forms;
mod law;
mod line;
mod word;
mod words;

pub use forms::line_of;
pub use law::read_again;
pub use line::{KindLine, TextLine};
