//! The reservation of two operations, by their conflicting cases.

ghost use Rattle.std.specs.Prelude.{◌≡◌, ◌<◌, ◌≤◌, ◌++◌, length, IfOk, OnOk};
ghost use Rattle.std.specs.List.{All, list_all};
ghost use Rattle.certificate_check.specs.Separation as separation;
ghost use Rattle.certificate_check.specs.Separation.{lowest};
ghost use Rattle.ground_clauses.specs.Cases.{CaseKnown, upto_from};
ghost use Rattle.reservation_plan.specs.Derived as derived;
ghost use Rattle.reservation_plan.specs.Drafting.{IsConflict, locks_in, parts_in};
ghost use Rattle.spec_model.specs.Truths as truths;

use certificate_check::{pair_meets, shares};
use ground_clauses::Case;
use ind_base::{List, NoMemory};
use spec_model::{LockKind, Pair, Spec, Var};
use std::alloc::Global;

/// What keeps two operations apart.
#[derive(Drop)]
pub(crate) enum Reservation {
    Nothing,
    Lock(LockKind),
    Part(LockKind),
}

/// Two operations, with their conflicting cases.
#[derive(Clone, Copy)]
pub(crate) struct Conflict<'a> {
    pub(crate) spec: &'a Spec,
    pub(crate) a: u32,
    pub(crate) b: u32,
    pub(crate) cases: &'a [Case],
}

/// The parameters of an operation.
fn params_of(spec: &Spec, op: u32) -> &[Var]
    requires { op < length spec.now.ops }
    ensures { result.now ≡ derived.params_of spec.now op }
{
    spec.ops.as_slice()[op as usize].params.as_slice()
}

/// Whether parameters at these places may stand in a key together.
fn may_meet(conflict: &Conflict<'_>, first: u32, second: u32) -> bool
    requires conflict { IsConflict conflict.now }
    requires within_a { first < length (derived.params_of conflict.now.spec.now conflict.now.a) }
    requires within_b { second < length (derived.params_of conflict.now.spec.now conflict.now.b) }
    ensures { result ≡ derived.may_meet conflict.now.spec.now conflict.now.a conflict.now.b first second }
{
    let one = &params_of(conflict.spec, conflict.a)[first as usize];
    let other = &params_of(conflict.spec, conflict.b)[second as usize];
    !one.interval
        && !other.interval
        && one.sort == other.sort
        && (conflict.a != conflict.b || first == second)
}

/// Whether parameters at these places are equal in each of these cases.
fn are_equal(spec: &Spec, cases: &[Case], places: &Pair) -> bool
    requires { All (CaseKnown spec.now) cases.now }
    ensures { result ≡ list_all (λ k. separation.pair_meets spec.now k places.now) cases.now }
{
    for case in cases {
        if !pair_meets(spec, case, places) {
            return false;
        }
    }
    true
}

/// Whether parameters at these places belong into the key.
fn always_meets(conflict: &Conflict<'_>, first: u32, second: u32) -> bool
    requires conflict { IsConflict conflict.now }
    requires within_a { first < length (derived.params_of conflict.now.spec.now conflict.now.a) }
    requires within_b { second < length (derived.params_of conflict.now.spec.now conflict.now.b) }
    ensures { result ≡ derived.always_meets conflict.now.spec.now conflict.now.a conflict.now.b conflict.now.cases.now first second }
{
    let places = Pair {
        a: first,
        b: second,
    };
    may_meet(conflict, first, second) && are_equal(conflict.spec, conflict.cases, &places)
}

/// The lowest place of the second operation that always meets this one of the first.
fn partner(conflict: &Conflict<'_>, first: u32) -> Option<u32>
    requires conflict { IsConflict conflict.now }
    requires within { first < length (derived.params_of conflict.now.spec.now conflict.now.a) }
    ensures { result ≡ lowest (derived.always_meets conflict.now.spec.now conflict.now.a conflict.now.b conflict.now.cases.now first) (upto_from 0 (length (derived.params_of conflict.now.spec.now conflict.now.b))) }
{
    for second in 0..params_of(conflict.spec, conflict.b).len() as u32 {
        if always_meets(conflict, first, second) {
            return Some(second);
        }
    }
    None
}

/// Adds a place of the first operation to the key, if it belongs there.
fn add_place(conflict: &Conflict<'_>, first: u32, key: &mut List<Pair>) -> Result<(), NoMemory>
    requires conflict { IsConflict conflict.now }
    requires within { first < length (derived.params_of conflict.now.spec.now conflict.now.a) }
    ensures { OnOk result (key.new ≡ key.old ++ derived.key_at conflict.now.spec.now conflict.now.a conflict.now.b conflict.now.cases.now first) }
{
    match partner(conflict, first) {
        Some(second) => key.push(Pair {
            a: first,
            b: second,
        }),
        None => Ok(()),
    }
}

/// The key of two operations.
fn key_of(alloc: Global, conflict: &Conflict<'_>) -> Result<List<Pair>, NoMemory>
    requires { IsConflict conflict.now }
    ensures { IfOk result (λ key. key ≡ derived.key_of conflict.now.spec.now conflict.now.a conflict.now.b conflict.now.cases.now) }
{
    let mut key = List::new(alloc);
    for first in 0..params_of(conflict.spec, conflict.a).len() as u32 {
        add_place(conflict, first, &mut key)?;
    }
    Ok(key)
}

/// The sort of the interval parameter, if there is one.
fn interval_sort(params: &[Var]) -> Option<u32>
    ensures { result ≡ derived.interval_sort params.now }
{
    for param in params {
        if param.interval {
            return Some(param.sort);
        }
    }
    None
}

/// Whether both operations have an interval parameter, of one sort.
fn intervals_match(spec: &Spec, a: u32, b: u32) -> bool
    requires known_a { a < length spec.now.ops }
    requires known_b { b < length spec.now.ops }
    ensures { result ≡ derived.intervals_match spec.now a b }
{
    match (
        interval_sort(params_of(spec, a)),
        interval_sort(params_of(spec, b)),
    ) {
        (Some(first), Some(second)) => first == second,
        _ => false,
    }
}

/// Whether in each of these cases some class lies in both intervals.
fn all_share(cases: &[Case]) -> bool
    ensures { result ≡ list_all separation.shares cases.now }
{
    for case in cases {
        if !shares(case) {
            return false;
        }
    }
    true
}

/// The reservation of two operations.
pub(crate) fn reserve(alloc: Global, conflict: &Conflict<'_>) -> Result<Reservation, NoMemory>
    requires { IsConflict conflict.now }
    ensures locks { IfOk result (λ r. locks_in r ≡ derived.locks_by conflict.now.spec.now conflict.now.a conflict.now.b conflict.now.cases.now) }
    ensures parts { IfOk result (λ r. parts_in r ≡ derived.parts_by conflict.now.spec.now conflict.now.a conflict.now.b conflict.now.cases.now) }
{
    if conflict.cases.is_empty() {
        return Ok(Reservation::Nothing);
    }
    let kind = LockKind {
        a: conflict.a,
        b: conflict.b,
        key: key_of(alloc, conflict)?,
    };
    if intervals_match(conflict.spec, conflict.a, conflict.b) && all_share(conflict.cases) {
        Ok(Reservation::Part(kind))
    } else {
        Ok(Reservation::Lock(kind))
    }
}
