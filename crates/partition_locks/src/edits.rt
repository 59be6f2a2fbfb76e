//! Points that are taken out of runs, and added to them.

ghost use Rattle.std.specs.Prelude.{◌≡◌, ◌+◌, ◌<◌, ◌≤◌, ℕ, true, false, not, ◌&&◌, ◌||◌, ◌++◌, ◌∷◌, take, drop, length, insert, slice_index_or, OnOk, OnErr, vec_capacity};
ghost use Rattle.spec_model.specs.Truths.{span_has};
ghost use Rattle.partition_locks.specs.Held.{AreApart, lies_in};
ghost use Rattle.partition_locks.specs.Edits.{spare_in, StaysFull, remains, begins_at, ends_before, in_front, put_in};

use crate::runs::place_of;
use ind_base::{NoMemory, Span};

/// Puts a run at a place.
fn insert_at(runs: &mut Vec<Span>, at: usize, run: Span) -> Result<(), NoMemory>
    requires { at ≤ length runs.old.items }
    ensures ok { OnOk result (runs.new.items ≡ insert runs.old.items at run) }
    ensures err { OnErr result (StaysFull runs.old runs.new) }
    ensures room { spare_in runs.old ≤ spare_in runs.new + 1 }
    ensures capacity { vec_capacity runs.old ≤ vec_capacity runs.new }
{
    runs.reserve(1)?;
    match runs.insert(at, run) {
        Ok(()) => Ok(()),
        Err(_) => unreachable!(),
    }
}

/// Puts two runs in place of one.
fn split_run(runs: &mut Vec<Span>, at: usize, low: Span, high: Span) -> Result<(), NoMemory>
    requires { at < length runs.old.items }
    ensures ok { OnOk result (runs.new.items
        ≡ take at runs.old.items ++ (low ∷ high ∷ drop (at + 1) runs.old.items)) }
    ensures err { OnErr result (StaysFull runs.old runs.new) }
    ensures room { spare_in runs.old ≤ spare_in runs.new + 1 }
    ensures capacity { vec_capacity runs.old ≤ vec_capacity runs.new }
{
    insert_at(runs, at + 1, high)?;
    runs[at] = low;
    Ok(())
}

/// Takes the span's points out of the run at a place.
fn cut_run(runs: &mut Vec<Span>, at: usize, run: Span, span: &Span) -> Result<(), NoMemory>
    requires within { at < length runs.old.items }
    requires run { run ≡ slice_index_or runs.old.items at run }
    ensures ok { OnOk result (runs.new.items
        ≡ take at runs.old.items ++ (remains run span.now ++ drop (at + 1) runs.old.items)) }
    ensures err { OnErr result (StaysFull runs.old runs.new) }
    ensures room { spare_in runs.old ≤ spare_in runs.new + 1 }
    ensures capacity { vec_capacity runs.old ≤ vec_capacity runs.new }
{
    if run.lo < span.lo {
        let low = Span {
            lo: run.lo,
            hi: span.lo - 1,
        };
        if span.hi < run.hi {
            return split_run(
                runs,
                at,
                low,
                Span {
                    lo: span.hi + 1,
                    hi: run.hi,
                },
            );
        }
        runs[at] = low;
    } else if span.hi < run.hi {
        runs[at] = Span {
            lo: span.hi + 1,
            hi: run.hi,
        };
    } else {
        runs.remove(at);
    }
    Ok(())
}

/// Takes the span's points out, all of which lie in the runs.
pub(crate) fn take_out(runs: &mut Vec<Span>, span: &Span) -> Result<(), NoMemory>
    requires apart { AreApart 0 runs.old.items }
    requires some { span.now.lo ≤ span.now.hi }
    requires held { (x : ℕ) → span_has span.now x ≡ true → lies_in runs.old.items x ≡ true }
    ensures apart { AreApart 0 runs.new.items }
    ensures ok { OnOk result ((x : ℕ) → lies_in runs.new.items x
        ≡ (lies_in runs.old.items x && not (span_has span.now x))) }
    ensures err { OnErr result (StaysFull runs.old runs.new) }
    ensures room { spare_in runs.old ≤ spare_in runs.new + 1 }
    ensures capacity { vec_capacity runs.old ≤ vec_capacity runs.new }
{
    let at = place_of(runs.as_slice(), span.lo);
    let run = runs[at];
    cut_run(runs, at, run, span)?;
    Ok(())
}

/// Whether there is a run at the place that begins just behind the point.
fn begins_behind(runs: &[Span], at: usize, x: u32) -> bool
    ensures { result ≡ begins_at (drop at runs.now) (x + 1) }
{
    match runs.get(at) {
        Some(run) => run.lo > x && run.lo - x == 1,
        None => false,
    }
}

/// Whether there is a run at the place that ends just before the point.
fn ends_just_before(runs: &[Span], at: usize, x: u32) -> bool
    ensures { result ≡ ends_before (drop at runs.now) x }
{
    match runs.get(at) {
        Some(run) => x > run.hi && x - run.hi == 1,
        None => false,
    }
}

/// Puts a span before the run at the place, and joins them where they touch.
fn put_front(runs: &mut Vec<Span>, at: usize, span: &Span) -> Result<(), NoMemory>
    requires { at ≤ length runs.old.items }
    ensures ok { OnOk result (runs.new.items
        ≡ take at runs.old.items ++ in_front span.now (drop at runs.old.items)) }
    ensures err { OnErr result (StaysFull runs.old runs.new) }
    ensures room { spare_in runs.old ≤ spare_in runs.new + 1 }
    ensures capacity { vec_capacity runs.old ≤ vec_capacity runs.new }
{
    if begins_behind(runs.as_slice(), at, span.hi) {
        let hi = runs[at].hi;
        runs[at] = Span { lo: span.lo, hi };
        return Ok(());
    }
    insert_at(runs, at, *span)
}

/// Lets the run at a place reach up to the point, and joins it with the next where they touch.
fn extend(runs: &mut Vec<Span>, at: usize, run: Span, hi: u32)
    requires within { at < length runs.old.items }
    requires run { run ≡ slice_index_or runs.old.items at run }
    ensures value { runs.new.items
        ≡ take at runs.old.items
        ++ in_front (record { lo = run.lo; hi = hi }) (drop (at + 1) runs.old.items) }
    ensures room { spare_in runs.old ≤ spare_in runs.new }
    ensures capacity { vec_capacity runs.old ≤ vec_capacity runs.new }
{
    if begins_behind(runs.as_slice(), at + 1, hi) {
        let next = runs.remove(at + 1);
        runs[at] = Span {
            lo: run.lo,
            hi: next.hi,
        };
    } else {
        runs[at] = Span { lo: run.lo, hi };
    }
}

/// Puts a span in at the place, and joins it with those that it touches.
fn put_at(runs: &mut Vec<Span>, at: usize, span: &Span) -> Result<(), NoMemory>
    requires { at ≤ length runs.old.items }
    ensures ok { OnOk result (runs.new.items
        ≡ take at runs.old.items ++ put_in span.now (drop at runs.old.items)) }
    ensures err { OnErr result (StaysFull runs.old runs.new) }
    ensures room { spare_in runs.old ≤ spare_in runs.new + 1 }
    ensures capacity { vec_capacity runs.old ≤ vec_capacity runs.new }
{
    if ends_just_before(runs.as_slice(), at, span.lo) {
        let run = runs[at];
        extend(runs, at, run, span.hi);
        return Ok(());
    }
    put_front(runs, at, span)
}

/// Adds the span's points, none of which lies in a run.
pub(crate) fn add(runs: &mut Vec<Span>, span: &Span) -> Result<(), NoMemory>
    requires apart { AreApart 0 runs.old.items }
    requires some { span.now.lo ≤ span.now.hi }
    requires free { (x : ℕ) → span_has span.now x ≡ true → lies_in runs.old.items x ≡ false }
    ensures apart { AreApart 0 runs.new.items }
    ensures ok { OnOk result ((x : ℕ) → lies_in runs.new.items x
        ≡ (lies_in runs.old.items x || span_has span.now x)) }
    ensures err { OnErr result (StaysFull runs.old runs.new) }
    ensures room { spare_in runs.old ≤ spare_in runs.new + 1 }
    ensures capacity { vec_capacity runs.old ≤ vec_capacity runs.new }
{
    let at = place_of(runs.as_slice(), span.lo.saturating_sub(1));
    put_at(runs, at, span)?;
    Ok(())
}
