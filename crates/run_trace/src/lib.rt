//! The trace of a run: the entries of all replicas in one order, and their text.
#![tactic(auto)]

mod entry;
mod last;
mod order;
mod parts;
mod text;

pub use order::merge;
pub use run_model::{CellValue, Final, History, Hold};
pub use text::trace_text;
