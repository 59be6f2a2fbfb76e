//! Runs of points, in ascending order.

ghost use Rattle.std.specs.Prelude.{◌≡◌, ◌+◌, ◌-◌, ◌<◌, ◌≤◌, ◌++◌, length, filter, OnOk};
ghost use Rattle.run_model.specs.Points.{points_of, missing_of, run_of};
ghost use Rattle.partition_locks.specs.Held.{AreApart, clipped, lies_in};
ghost use Rattle.partition_locks.specs.Edits.{IsPlace};

use ind_base::{List, NoMemory, Span};

/// The place of the first run that ends at the point or after it. A set that was parted often has many
/// runs, so the place is found by halving.
pub(crate) fn place_of(runs: &[Span], x: u32) -> usize
    requires { AreApart 0 runs.now }
    ensures { IsPlace runs.now x result }
{
    let mut low = 0;
    let mut high = runs.len();
    'halving: while low < high {
        let middle = low + (high - low) / 2;
        if runs[middle].hi < x {
            low = middle + 1;
        } else {
            high = middle;
        }
    }
    low
}

/// The lowest point of the span that lies in no run, by the place of the span's first point.
fn missing_at(runs: &[Span], at: usize, span: &Span) -> Option<u32>
    requires apart { AreApart 0 runs.now }
    requires place { IsPlace runs.now span.now.lo at }
    ensures { result ≡ missing_of (lies_in runs.now) span.now }
{
    if span.lo > span.hi {
        return None;
    }
    match runs.get(at) {
        None => Some(span.lo),
        Some(run) => if span.lo < run.lo {
            Some(span.lo)
        } else if run.hi < span.hi {
            Some(run.hi + 1)
        } else {
            None
        },
    }
}

/// The first run within the span, by the place of the span's first point.
fn run_at(runs: &[Span], at: usize, span: &Span) -> Option<Span>
    requires apart { AreApart 0 runs.now }
    requires place { IsPlace runs.now span.now.lo at }
    ensures { result ≡ run_of (lies_in runs.now) span.now }
{
    if span.lo > span.hi {
        return None;
    }
    match runs.get(at) {
        None => None,
        Some(run) => if span.hi < run.lo {
            None
        } else {
            Some(Span {
                lo: run.lo.max(span.lo),
                hi: run.hi.min(span.hi),
            })
        },
    }
}

/// The lowest point of the span that lies in no run.
pub(crate) fn missing_in(runs: &[Span], span: &Span) -> Option<u32>
    requires { AreApart 0 runs.now }
    ensures { result ≡ missing_of (lies_in runs.now) span.now }
{
    missing_at(runs, place_of(runs, span.lo), span)
}

/// The first run within the span.
pub(crate) fn run_in(runs: &[Span], span: &Span) -> Option<Span>
    requires { AreApart 0 runs.now }
    ensures { result ≡ run_of (lies_in runs.now) span.now }
{
    run_at(runs, place_of(runs, span.lo), span)
}

/// The lowest point of the span that lies in no run, and the first run within it, by one search.
pub(crate) fn both_in(runs: &[Span], span: &Span) -> (Option<u32>, Option<Span>)
    requires { AreApart 0 runs.now }
    ensures missing { result.0 ≡ missing_of (lies_in runs.now) span.now }
    ensures run { result.1 ≡ run_of (lies_in runs.now) span.now }
{
    let at = place_of(runs, span.lo);
    (missing_at(runs, at, span), run_at(runs, at, span))
}

/// How many points there are from one to another, both counted in.
fn size_within(lo: u32, hi: u32) -> u64
    ensures { result ≡ (hi + 1) - lo }
{
    if lo > hi {
        return 0;
    }
    u64::from(hi - lo) + 1
}

/// How many points a span has.
pub(crate) fn size_of(span: &Span) -> u64
    ensures { result ≡ length (points_of span.now) }
{
    size_within(span.lo, span.hi)
}

/// How many points of the span lie in the runs.
pub(crate) fn count_in(runs: &[Span], span: &Span) -> u64
    requires { AreApart 0 runs.now }
    ensures { result ≡ length (filter (lies_in runs.now) (points_of span.now)) }
{
    let mut have = 0;
    for run in runs {
        have += size_within(run.lo.max(span.lo), run.hi.min(span.hi));
    }
    have
}

/// Puts what of the runs lies below a point at the end.
pub(crate) fn clip(runs: &[Span], all: u32, out: &mut List<Span>) -> Result<(), NoMemory>
    ensures { OnOk result (out.new ≡ out.old ++ clipped all runs.now) }
{
    for run in runs {
        if run.lo < all {
            out.push(Span {
                lo: run.lo,
                hi: run.hi.min(all - 1),
            })?;
        }
    }
    Ok(())
}
