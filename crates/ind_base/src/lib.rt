//! Lists, small copied values and numbers that every other crate stands on.
#![tactic(auto)]

mod few;
mod list;
mod number;
mod refusal;
mod right_kind;
mod span;

pub use few::{Args, Classes, Cut, Few};
pub use list::{List, Text};
pub use number::{put_num, read_num};
pub use refusal::NoMemory;
pub use right_kind::{GiveError, RightKind};
pub use span::{Span, Spans};
