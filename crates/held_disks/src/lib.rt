//! Disks and bays whose calls are held: somebody is told of each call before it is made, and may let
//! it wait.
#![tactic(auto)]

mod bay;
mod disk;
mod hold;

pub use bay::HeldBay;
pub use disk::HeldDisk;
pub use hold::Hold;
