//! Locks in shares (Balegas et al. 2015): one share permits the level of its mode, all shares permit
//! every level.
#![tactic(auto)]

mod shares;

pub use shares::{Shares, SharesPiece, mode_permits};
