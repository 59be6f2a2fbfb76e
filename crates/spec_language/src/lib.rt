//! Specifications as text: what lines say, and why one is refused.
#![tactic(auto)]

mod at_start;
mod directory;
mod draft;
mod effect;
mod law;
mod literals;
mod named;
mod places;
mod printing;
mod reading;
mod saying;

pub use at_start::size_at;
pub use draft::SpecDraft;
pub use law::{ops_are_named, said_again};
pub use line_text::{Cause, LineError, ParseError};
pub use named::{Named, has_name, is_placed, is_reserved, place_of};
pub use printing::print_spec;
pub use reading::parse_spec;
pub use saying::name_at;
