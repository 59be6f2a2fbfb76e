//! The documents of long runs, each of which follows a seed, and the summary of such a run.
#![tactic(auto)]

mod counting;
mod draws;
mod generating;
mod stock;
mod summary;
mod totals;

pub use generating::generate;
pub use summary::put_summary;
