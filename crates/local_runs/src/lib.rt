//! Runs of replicas by themselves, which take what messages they are given, and the law that joins them.
#![tactic(auto)]

mod laws;

pub use laws::{alone_is_counted, alone_is_in_order, alone_is_numbered, alone_is_together};
