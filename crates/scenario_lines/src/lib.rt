//! The lines of a run as they are written: their forms, both ways.
#![tactic(auto)]

mod argument;
mod forms;
mod in_place;
mod line;
mod printing;

pub use argument::NamedArg;
pub use forms::run_line_of;
pub use in_place::{number_in_place, request_in_place, send_in_place, take_in_place};
pub use line::RunLine;
pub use printing::{put_request, put_run_line};
