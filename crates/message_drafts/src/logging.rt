//! The items that would be logged.

ghost use Rattle.run_model.specs.Logs.{cut_after};
ghost use Rattle.std.specs.Prelude.{◌≡◌, ◌+◌, ◌<◌, ◌≤◌, ◌^◌, ◌++◌, All, IfOk, length, slice_index};
ghost use Rattle.run_model.specs.Fitting.{IsPlaced};
ghost use Rattle.run_model.specs.Worlds.{Standing, logged_all};

use ind_base::{Cut, List, NoMemory};
use spec_model::{Body, LogItem};
use std::alloc::Global;

/// What is seen once these items are applied too.
pub(crate) fn seen_after(cut: Cut, replicas: u32, items: &[LogItem]) -> Cut
    requires whole { length cut ≡ replicas }
    requires fits { All (IsPlaced replicas) items.now }
    ensures { result ≡ cut_after cut items.now }
{
    let mut seen = cut;
    for item in items {
        seen.set(item.origin as usize, item.index + 1);
    }
    seen
}

/// The items with these bodies that replica `me` logs one after the other, which has seen so much.
pub(crate) fn items_of(
    alloc: Global,
    me: u32,
    cut: Cut,
    bodies: &[Body],
) -> Result<List<LogItem>, NoMemory>
    requires place { me < length cut }
    requires room { slice_index cut me + length bodies.now < 2 ^ 32 }
    ensures { IfOk result (λ items. (p : Standing) → p.cut ≡ cut → length p.log ≡ slice_index cut me → (logged_all me bodies.now p).log ≡ p.log ++ items) }
{
    let mut seen = cut;
    let mut items = List::from_vec(Vec::with_capacity(alloc, bodies.len())?);
    for body in bodies {
        let index = seen.as_slice()[me as usize];
        let item = LogItem {
            origin: me,
            index,
            deps: seen,
            body: *body,
        };
        let _so_far = items.as_slice();
        items.push(item)?;
        seen.set(me as usize, index + 1);
    }
    Ok(items)
}
