//! Checks that a plan keeps every pair of operations from doing harm together.
#![tactic(auto)]

mod certificate;
mod draft;
mod falses;
mod fitting;
mod judge;
mod laws;
mod print;
mod reading;
mod separation;
mod steps;
mod verdict;

pub use certificate::{CertLine, Certificate};
pub use judge::check;
pub use laws::{checked_is_stable, text_is_read_again, yes_checks};
pub use print::print_certificate;
pub use reading::{Read, parse_certificate};
pub use separation::{lock_fits, pair_meets, shares};
pub use verdict::{Verdict, Why};
