//! Which items of a message are applied: those whose past was seen, one after the other.

ghost use Rattle.std.specs.Prelude.{◌≡◌, ◌≢◌, ◌<◌, ◌≤◌, ◌+◌, ◌-◌, ◌^◌, ◌↔◌, ℕ, min, take, drop, length, slice_index, IsTrue};
ghost use Rattle.run_model.specs.Steps.{AreAdmitted, unseen};
ghost use Rattle.causal_delivery.specs.Rows.{AreOfOne, CountsReady, IsSeenBut};

use ind_base::Cut;
use spec_model::LogItem;

/// How many items of a message are skipped, since they were seen, and how many behind them are
/// applied.
#[derive(Clone, Copy, PartialEq, Eq)]
pub struct Admitted {
    pub skip: u32,
    pub apply: u32,
}

/// How many items of a log a cut counts.
fn count_of(cut: &Cut, origin: u32) -> u32
    ensures { result ≡ slice_index cut.now origin }
{
    cut.get(origin as usize).unwrap_or(0)
}

/// How many of these items, which stand in a row, were seen.
fn seen_count(cut: &Cut, items: &[LogItem]) -> usize
    requires { AreOfOne (length cut.now) items.now }
    ensures skipped { unseen cut.now items.now ≡ drop result items.now }
    ensures within { result ≤ length items.now }
{
    match items {
        [] => 0,
        [first, ..] => {
            let seen = count_of(cut, first.origin).saturating_sub(first.index);
            (seen as usize).min(items.len())
        }
    }
}

/// Whether the past lies in the cut, but for the place of its own log.
fn is_seen_but(past: &Cut, cut: &Cut, own: u32) -> bool
    ensures { IsTrue result ↔ IsSeenBut past.now cut.now own }
{
    for (at, count) in past.as_slice().iter().enumerate() {
        if at != own as usize && *count > count_of(cut, at as u32) {
            return false;
        }
    }
    true
}

/// How many of these items, one after the other, have a past that was seen but for their own log.
fn ready_count(cut: &Cut, items: &[LogItem]) -> usize
    ensures ready { CountsReady cut.now items.now result }
{
    for (at, item) in items.iter().enumerate() {
        if !is_seen_but(&item.deps, cut, item.origin) {
            return at;
        }
    }
    items.len()
}

/// How many of the items that weren't seen, which stand in a row, are applied.
fn apply_count(cut: &Cut, items: &[LogItem]) -> usize
    requires row { AreOfOne (length cut.now) items.now }
    requires unseen { unseen cut.now items.now ≡ items.now }
    ensures applied { AreAdmitted cut.now items.now (take result items.now) }
    ensures within { result ≤ length items.now }
{
    match items {
        [] => 0,
        [first, ..] => {
            if first.index > count_of(cut, first.origin) {
                0
            } else {
                ready_count(cut, items)
            }
        }
    }
}

/// Which items of a message are applied at a replica that has seen this cut. The items are of one
/// log, in a row.
///
/// `skip` of them were seen. Of the rest `apply` is the length of the longest prefix in which each
/// item's past is seen once the items before it are applied (causal delivery, Birman and Joseph
/// 1987).
pub fn admit(cut: &Cut, items: &[LogItem]) -> Admitted
    requires row { AreOfOne (length cut.now) items.now }
    requires few { length items.now < 2 ^ 32 }
    ensures skipped { unseen cut.now items.now ≡ drop result.skip items.now }
    ensures applied { AreAdmitted cut.now items.now (take result.apply (drop result.skip items.now)) }
    ensures within { result.skip + result.apply ≤ length items.now }
{
    let skip = seen_count(cut, items);
    let (_, rest) = items.split_at(skip);
    let apply = apply_count(cut, rest);
    Admitted {
        skip: skip as u32,
        apply: apply as u32,
    }
}
