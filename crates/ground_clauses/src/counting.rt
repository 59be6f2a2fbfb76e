//! How many cases there are.

ghost use Rattle.std.specs.Prelude.{◌≡◌, ℕ, ◌<◌, ◌≤◌, ◌+◌, ◌*◌, ◌^◌, List, length, get_or};
ghost use Rattle.std.specs.Prelude.{if◌then◌else◌};
ghost use Rattle.std.specs.List.{sum_by};
ghost use Rattle.ground_clauses.specs.declared.case.Target.TheVariants as targets;
ghost use Rattle.spec_model.specs.Fits.{IsWellFormed};
ghost use Rattle.spec_model.specs.Truths as truths;
ghost use Rattle.ground_clauses.specs.Cases as canon;
ghost use Rattle.ground_clauses.specs.Cases.{TargetKnown};
ghost use Rattle.ground_clauses.specs.Counting as counting;
ghost use Rattle.ground_clauses.specs.Counting.{IsSplits};

use crate::case::Target;
use crate::listing::{rule_locks, size_of};
use crate::pattern::pattern_sorts;
use crate::places::{clause_at, op_at, pred_at};
use spec_model::{Spec, Var};

/// For each number of classes the ways to split some things into them.
type Splits = [u64; 13];

/// The ways to split one thing more into so many classes: it joins one of them or has its own.
fn ways_with_one(classes: u64, joined: u64, alone: u64) -> u64
    requires classes { classes ≤ 12 }
    requires joined { joined ≤ 13 ^ 12 }
    requires alone { alone ≤ 13 ^ 12 }
    ensures { result ≡ classes * joined + alone }
{
    classes * joined + alone
}

/// The ways to split one thing more.
fn more_splits(row: &Splits, count: u64) -> Splits
    requires few { count < 12 }
    requires row { IsSplits count row.now }
    ensures { IsSplits (count + 1) result }
{
    let mut next = [0; 13];
    for k in 1..13usize {
        next[k] = ways_with_one(k as u64, row[k], row[k - 1]);
    }
    next
}

/// The ways to split so many things.
fn splits_of(count: u64) -> Splits
    requires { count ≤ 12 }
    ensures { IsSplits count result }
{
    let mut row = [0; 13];
    row[0] = 1;
    for things in 0..count {
        row = more_splits(&row, things);
    }
    row
}

/// How many ways a class has to lie in so many intervals or not.
fn bit_ways(intervals: u64) -> u64
    requires { intervals ≤ 2 }
    ensures value { result ≡ 2 ^ intervals }
    ensures few { result ≤ 4 }
{
    match intervals {
        0 => 1,
        1 => 2,
        _ => 4,
    }
}

/// The ways with so many classes, with so many ways for their bits.
fn weighted(ways: u64, weight: u64) -> u64
    requires { ways * weight ≤ 16 ^ 12 }
    ensures { result ≡ ways * weight }
{
    ways * weight
}

/// The ways to give the elements of a sort their classes, and each class its bits.
fn class_ways(size: u32, count: u64, intervals: u64) -> u64
    requires few { count ≤ 12 }
    requires intervals { intervals ≤ 2 }
    ensures value { result ≡ counting.class_ways size count intervals }
    ensures few { result ≤ 16 ^ count }
{
    let row = splits_of(count);
    let mut ways = row[0];
    let mut weight = 1;
    for k in 0..u64::from(size).min(count) {
        weight *= bit_ways(intervals);
        ways += weighted(row[k as usize + 1], weight);
    }
    ways
}

/// How often a sort stands among these.
fn occurrences(sort: u32, sorts: &[u32]) -> u64
    ensures { result ≡ counting.occurrences sort sorts.now }
{
    sorts.iter().filter(|other| **other == sort).count() as u64
}

/// How many interval parameters of a sort there are.
fn intervals(sort: u32, params: &[Var]) -> u64
    ensures { result ≡ counting.intervals sort params.now }
{
    params
        .iter()
        .filter(|param| param.interval && param.sort == sort)
        .count() as u64
}

/// The ways to give the elements of a sort, in a pattern of two operations, their classes and bits.
fn sort_count(spec: &Spec, a: u32, b: u32, sorts: &[u32], sort: u32) -> u64
    requires well_formed { IsWellFormed spec.now }
    requires known_a { a < length spec.now.ops }
    requires known_b { b < length spec.now.ops }
    requires few { length sorts.now ≤ 12 }
    ensures value { result ≡ counting.class_ways (truths.size_of spec.now sort) (counting.occurrences sort sorts.now) (counting.intervals sort (truths.op_at spec.now a).params + counting.intervals sort (truths.op_at spec.now b).params) }
    ensures few { result ≤ 16 ^ (counting.occurrences sort sorts.now) }
{
    let first = intervals(sort, op_at(spec, a).params.as_slice());
    let second = intervals(sort, op_at(spec, b).params.as_slice());
    class_ways(
        size_of(spec, sort),
        occurrences(sort, sorts),
        first + second,
    )
}

/// All cases of two operations and a target.
fn shape_count(spec: &Spec, a: u32, b: u32, target: Target) -> u64
    requires well_formed { IsWellFormed spec.now }
    requires known_a { a < length spec.now.ops }
    requires known_b { b < length spec.now.ops }
    requires known { TargetKnown spec.now target }
    ensures value { result ≡ counting.shape_cases spec.now a b target }
    ensures few { result ≤ 2 ^ 48 }
{
    let elements = pattern_sorts(spec, a, b, target);
    let sorts = elements.as_slice();
    let mut count = 1;
    for sort in 0..spec.sorts.len() {
        count *= sort_count(spec, a, b, sorts, sort as u32);
    }
    count
}

/// All cases about a clause, unless it is marked.
fn clause_count(spec: &Spec, a: u32, b: u32, place: u32) -> u64
    requires well_formed { IsWellFormed spec.now }
    requires known_a { a < length spec.now.ops }
    requires known_b { b < length spec.now.ops }
    requires known { place < length spec.now.clauses }
    ensures value { result ≡ if (truths.clause_in spec.now place).mask then 0 else counting.shape_cases spec.now a b (targets.Clause place) }
    ensures few { result ≤ 2 ^ 48 }
{
    if clause_at(spec, place).mask {
        return 0;
    }
    shape_count(spec, a, b, Target::Clause(place))
}

/// All cases about a predicate, if it is locked.
fn pred_count(spec: &Spec, a: u32, b: u32, place: u32) -> u64
    requires well_formed { IsWellFormed spec.now }
    requires known_a { a < length spec.now.ops }
    requires known_b { b < length spec.now.ops }
    requires known { place < length spec.now.preds }
    ensures value { result ≡ if truths.rule_locks (truths.pred_at spec.now place).rule then counting.shape_cases spec.now a b (targets.Locked place) else 0 }
    ensures few { result ≤ 2 ^ 48 }
{
    if !rule_locks(pred_at(spec, place).rule) {
        return 0;
    }
    shape_count(spec, a, b, Target::Locked(place))
}

/// All cases of two operations about the clauses that aren't marked.
fn clauses_count(spec: &Spec, a: u32, b: u32) -> u64
    requires well_formed { IsWellFormed spec.now }
    requires known_a { a < length spec.now.ops }
    requires known_b { b < length spec.now.ops }
    ensures value { result ≡ sum_by (counting.shape_cases spec.now a b) (canon.clause_targets 0 spec.now.clauses) }
    ensures few { result ≤ 2 ^ 54 }
{
    let mut count = 0;
    for place in 0..spec.clauses.len() {
        count += clause_count(spec, a, b, place as u32);
    }
    count
}

/// All cases of two operations about the locked predicates.
fn preds_count(spec: &Spec, a: u32, b: u32) -> u64
    requires well_formed { IsWellFormed spec.now }
    requires known_a { a < length spec.now.ops }
    requires known_b { b < length spec.now.ops }
    ensures value { result ≡ sum_by (counting.shape_cases spec.now a b) (canon.pred_targets 0 spec.now.preds) }
    ensures few { result ≤ 2 ^ 54 }
{
    let mut count = 0;
    for place in 0..spec.preds.len() {
        count += pred_count(spec, a, b, place as u32);
    }
    count
}

/// All cases of two operations.
fn pair_count(spec: &Spec, a: u32, b: u32) -> u64
    requires well_formed { IsWellFormed spec.now }
    requires known_a { a < length spec.now.ops }
    requires known_b { b < length spec.now.ops }
    ensures value { result ≡ counting.pair_count spec.now a b }
    ensures few { result ≤ 2 ^ 55 }
{
    clauses_count(spec, a, b) + preds_count(spec, a, b)
}

/// All cases of an operation and those from it on.
fn row_count(spec: &Spec, a: u32) -> u64
    requires well_formed { IsWellFormed spec.now }
    requires known { a < length spec.now.ops }
    ensures value { result ≡ counting.row_count spec.now a }
    ensures few { result ≤ 2 ^ 61 }
{
    let mut count = 0;
    for b in a as usize..spec.ops.len() {
        count += pair_count(spec, a, b as u32);
    }
    count
}

/// How many cases there are of all pairs of operations and all targets, touched or not.
pub fn case_count(spec: &Spec) -> u128
    requires { IsWellFormed spec.now }
    ensures { result ≡ counting.case_count spec.now }
{
    let mut count = 0;
    for a in 0..spec.ops.len() {
        count += u128::from(row_count(spec, a as u32));
    }
    count
}
