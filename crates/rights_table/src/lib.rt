//! The rights of one replica: what it holds of each right after the items of its own log.
#![tactic(auto)]

mod acting;
mod acts;
mod first;
mod holding;
mod key;
mod laws;
mod moving;
mod overlay;
mod owning;
mod passing;
mod readying;
mod showing;
mod step;
mod table;
mod taking;
mod told;

pub use first::points_all;
pub use holding::Holding;
pub use laws::{tables_learn, tables_tell};
pub use overlay::Overlay;
pub use table::Table;
