//! The items that are sent next.

ghost use Rattle.std.specs.Prelude.{◌≡◌, IfOk, take, drop};

use ind_base::{List, NoMemory};
use spec_model::LogItem;
use std::alloc::Global;

/// The most items of a message.
const WINDOW: usize = 16;

/// The first 16 of the own items that a peer doesn't know, which knows so many.
pub fn next_items(alloc: Global, own: &[LogItem], known: u32) -> Result<List<LogItem>, NoMemory>
    ensures { IfOk result (λ items. items ≡ take 16 (drop known own.now)) }
{
    let start = (known as usize).min(own.len());
    let (_, rest) = own.split_at(start);
    let (window, _) = rest.split_at(WINDOW.min(rest.len()));
    List::from_slice(alloc, window)
}
