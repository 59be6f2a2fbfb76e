//! Which cases are conflicting, and what two operations do to one another.
#![tactic(auto)]

mod decided;
mod pair_kind;

pub use decided::{Decided, decide, decide_in};
pub use pair_kind::{PairKind, classify};
