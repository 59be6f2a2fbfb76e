//! One replica over a storage and over its ends of the links to all others, as threads take turns at it.
#![tactic(auto)]

mod ends;
mod laws;
mod node;
mod served;
mod stepping;
mod still;

pub use ends::{Ends, Full};
pub use laws::closed_is_one_run;
pub use node::{Node, Parted};
pub use served::{Opening, Served};
pub use still::{Finished, Still};
