//! The plan of a specification, with a certificate that it keeps every pair of operations from
//! doing harm together.
#![tactic(auto)]

mod analysed;
mod drafting;
mod judging;
mod laws;
mod planning;
mod reserving;

pub use analysed::{Analysed, DeriveError};
pub use laws::{reserves_conflicts, tells_conflicts, touched_are_counted};
pub use planning::derive;
