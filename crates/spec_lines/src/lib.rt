//! The lines of a specification as they are written: their forms, both ways.
#![tactic(auto)]

mod clause_form;
mod forms;
mod item;
mod line;
mod printing;

pub use forms::spec_line_of;
pub use item::{NamedParam, NamedTerm, NamedVar};
pub use line::{NamedLiteral, SpecLine};
pub use printing::put_spec_line;
