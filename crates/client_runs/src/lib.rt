//! Legal runs of clients, and the law that what replicas served by themselves is one.
#![tactic(auto)]

mod laws;

pub use laws::served_is_legal;
