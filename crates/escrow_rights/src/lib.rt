//! Rights that are counted, each of which is spent once (O'Neil 1986).
#![tactic(auto)]

mod escrow;

pub use escrow::Escrow;
