//! Documents as text: a specification, replicas, stops and the work of a run.
#![tactic(auto)]

mod document;
mod draft;
mod group;
mod in_place;
mod printing;
mod reading;
mod request;
mod saying;

pub use document::{ClientAsk, Document, StopLine, Work};
pub use draft::Draft;
pub use group::{Group, first_of};
pub use line_text::{Cause, ParseError};
pub use printing::print_document;
pub use reading::parse_document;
