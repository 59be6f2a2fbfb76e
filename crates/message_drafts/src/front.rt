//! The items of a message that are looked at.

ghost use Rattle.std.specs.Prelude.{◌≡◌, ◌≤◌, ◌↔◌, IsTrue, length, slice_index, take};
ghost use Rattle.run_model.specs.Fitting.{SetupFits};
ghost use Rattle.message_drafts.specs.Fronts.{IsFront, IsItem, MayFollow, first_at};

use crate::fitting::item_fits;
use ind_base::Cut;
use spec_model::{LogItem, Setup};

/// At most so many of these, from the first on.
pub(crate) fn first_of<T>(items: &[T], most: usize) -> &[T]
    ensures { result.now ≡ take most items.now }
{
    let (front, _) = items.split_at(most.min(items.len()));
    front
}

/// The index of the first of these items.
fn first_index(items: &[LogItem]) -> u32
    ensures { result ≡ first_at items.now }
{
    match items {
        [] => 0,
        [first, ..] => first.index,
    }
}

/// How many items of a log a cut counts.
fn count_in(cut: &Cut, origin: u32) -> u32
    ensures { result ≡ slice_index cut.now origin }
{
    cut.get(origin as usize).unwrap_or(0)
}

/// Whether an item is this one of the sender's log, with just the items of that log before it in
/// its past.
fn is_item(from: u32, index: u64, item: &LogItem) -> bool
    ensures { IsTrue result ↔ IsItem from index item.now }
{
    item.origin == from
        && u64::from(item.index) == index
        && count_in(&item.deps, from) == item.index
}

/// Whether an item fits and is this one of the sender's log.
fn may_follow(setup: &Setup, from: u32, index: u64, item: &LogItem) -> bool
    requires setup { SetupFits setup.now }
    ensures { IsTrue result ↔ MayFollow setup.now from index item.now }
{
    item_fits(setup, item) && is_item(from, index, item)
}

/// How many of these items, which are few, stand in a row in the sender's log and fit.
pub(crate) fn front_count(setup: &Setup, from: u32, items: &[LogItem]) -> usize
    requires setup { SetupFits setup.now }
    requires few { length items.now ≤ 16 }
    ensures front { IsFront setup.now from items.now (take result items.now) }
    ensures within { result ≤ length items.now }
{
    let first = u64::from(first_index(items));
    for (at, item) in items.iter().enumerate() {
        if !may_follow(setup, from, first + at as u64, item) {
            return at;
        }
    }
    items.len()
}
