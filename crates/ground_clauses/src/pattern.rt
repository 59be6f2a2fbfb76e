//! The elements of a case's pattern, by their sorts.

ghost use Rattle.std.specs.Prelude.{◌≡◌, ◌<◌, ◌≤◌, ◌+◌, ◌++◌, length};
ghost use Rattle.spec_model.specs.Truths as truths;
ghost use Rattle.spec_model.specs.Fits.{IsWellFormed};
ghost use Rattle.ground_clauses.specs.Cases as cases;
ghost use Rattle.ground_clauses.specs.Cases.{CaseKnown, TargetKnown};

use crate::case::{Case, Target};
use crate::places::{clause_at, op_at, pred_at};
use spec_model::{Classes, Spec, Var};

/// Appends the sorts of the plain parameters.
#[tactic(auto, using(crate::proofs::Reaches::next_plain, crate::proofs::Reaches::next_plain_len))]
fn add_plain(params: &[Var], sorts: &mut Classes)
    requires { length sorts.old + length (cases.plain_sorts params.now) ≤ 12 }
    ensures { sorts.new ≡ sorts.old ++ cases.plain_sorts params.now }
{
    for param in params {
        if !param.interval {
            sorts.push(param.sort);
        }
    }
}

/// Appends the sorts of variables.
#[tactic(auto, using(crate::proofs::Reaches::next_sort))]
fn add_vars(vars: &[Var], sorts: &mut Classes)
    requires { length sorts.old + length vars.now ≤ 12 }
    ensures { sorts.new ≡ sorts.old ++ cases.sorts_of vars.now }
{
    for var in vars {
        sorts.push(var.sort);
    }
}

/// Appends numbers.
#[tactic(auto, using(crate::proofs::Reaches::next_number))]
fn add_numbers(numbers: &[u32], sorts: &mut Classes)
    requires { length sorts.old + length numbers.now ≤ 12 }
    ensures { sorts.new ≡ sorts.old ++ numbers.now }
{
    for number in numbers {
        sorts.push(*number);
    }
}

/// Appends the sorts of the target's variables.
#[tactic(auto, using(crate::proofs::Reaches::few_vars_in))]
fn add_target(spec: &Spec, target: Target, sorts: &mut Classes)
    requires well_formed { IsWellFormed spec.now }
    requires known { TargetKnown spec.now target }
    requires room { length sorts.old ≤ 8 }
    ensures { sorts.new ≡ sorts.old ++ cases.target_sorts spec.now target }
{
    match target {
        Target::Clause(clause) => add_vars(clause_at(spec, clause).vars.as_slice(), sorts),
        Target::Locked(pred) => add_numbers(pred_at(spec, pred).sorts.as_slice(), sorts),
    }
}

/// Appends the sorts of the operation's plain parameters.
#[tactic(auto, using(crate::proofs::Reaches::few_plain))]
fn add_op(spec: &Spec, op: u32, sorts: &mut Classes)
    requires well_formed { IsWellFormed spec.now }
    requires known { op < length spec.now.ops }
    requires room { length sorts.old ≤ 8 }
    ensures value { sorts.new ≡ sorts.old ++ cases.plain_sorts (truths.op_at spec.now op).params }
    ensures few { length sorts.new ≤ length sorts.old + 4 }
{
    add_plain(op_at(spec, op).params.as_slice(), sorts);
}

/// The sorts of the pattern's elements: the plain parameters of both operations, and the target's
/// variables.
pub(crate) fn pattern_sorts(spec: &Spec, a: u32, b: u32, target: Target) -> Classes
    requires well_formed { IsWellFormed spec.now }
    requires known_a { a < length spec.now.ops }
    requires known_b { b < length spec.now.ops }
    requires known { TargetKnown spec.now target }
    ensures { result ≡ cases.pattern_sorts spec.now a b target }
{
    let mut sorts = Classes::new();
    add_op(spec, a, &mut sorts);
    add_op(spec, b, &mut sorts);
    add_target(spec, target, &mut sorts);
    sorts
}

/// How many classes of this sort there are.
#[tactic(auto, using(crate::proofs::Reaches::count_step, crate::proofs::Reaches::count_none))]
pub(crate) fn class_count(sorts: &[u32], classes: &[u32], sort: u32) -> u64
    ensures value { result ≡ cases.class_count sorts.now classes.now sort }
    ensures fits { result ≤ 4294967296 }
{
    let mut count = 0;
    let mut left = classes;
    for of in sorts {
        let [class, rest @ ..] = left else {
            return count;
        };
        if *of == sort {
            count = count.max(u64::from(*class) + 1);
        }
        left = rest;
    }
    count
}

/// How many classes of this sort a case has.
pub fn classes_in(spec: &Spec, case: &Case, sort: u32) -> u64
    requires well_formed { IsWellFormed spec.now }
    requires known { CaseKnown spec.now case.now }
    ensures value { result ≡ cases.classes_in spec.now case.now sort }
    ensures fits { result ≤ 4294967296 }
{
    let sorts = pattern_sorts(spec, case.a, case.b, case.target);
    class_count(sorts.as_slice(), case.classes.as_slice(), sort)
}
