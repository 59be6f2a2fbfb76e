//! Totals over steps.

ghost use Rattle.std.specs.Prelude.{◌≡◌, ◌≤◌, ◌*◌, length};
ghost use Rattle.soak_documents.specs.Totals as totals;
ghost use Rattle.soak_documents.specs.Totals.{AreAtMost};

use run_model::{Outcome, StepEntry};

/// How many steps had some outcomes, and how much takes did.
#[derive(Clone, Copy)]
pub(crate) struct Totals {
    pub done: u64,
    pub short: u64,
    pub breaks: u64,
    pub down: u64,
    pub applied: u64,
    pub accepted: u64,
    pub gave: u64,
}

fn none() -> Totals
    ensures { result ≡ totals.none }
{
    Totals {
        done: 0,
        short: 0,
        breaks: 0,
        down: 0,
        applied: 0,
        accepted: 0,
        gave: 0,
    }
}

/// The totals of two parts together.
fn plus(a: Totals, b: Totals) -> Totals
    requires a { AreAtMost 9223372036854775807 a }
    requires b { AreAtMost 9223372036854775807 b }
    ensures { result ≡ totals.plus a b }
{
    Totals {
        done: a.done + b.done,
        short: a.short + b.short,
        breaks: a.breaks + b.breaks,
        down: a.down + b.down,
        applied: a.applied + b.applied,
        accepted: a.accepted + b.accepted,
        gave: a.gave + b.gave,
    }
}

/// The totals of one step.
fn of_outcome(outcome: &Outcome) -> Totals
    ensures value { result ≡ totals.of_outcome outcome.now }
    ensures small { AreAtMost 4294967295 result }
{
    match outcome {
        Outcome::Done { .. } => Totals { done: 1, ..none() },
        Outcome::Short(_) => Totals { short: 1, ..none() },
        Outcome::Breaks(_) => Totals {
            breaks: 1,
            ..none()
        },
        Outcome::Down => Totals { down: 1, ..none() },
        Outcome::Took {
            applied,
            accepted,
            gave,
            ..
        } => Totals {
            applied: u64::from(*applied),
            accepted: u64::from(*accepted),
            gave: u64::from(*gave),
            ..none()
        },
        _ => none(),
    }
}

/// The totals of some steps.
pub(crate) fn of_entries(entries: &[StepEntry]) -> Totals
    requires { length entries.now ≤ 100000 }
    ensures value { result ≡ totals.of_entries entries.now }
    ensures small { AreAtMost (4294967295 * length entries.now) result }
{
    let mut sum = none();
    for entry in entries {
        sum = plus(sum, of_outcome(&entry.outcome));
    }
    sum
}
