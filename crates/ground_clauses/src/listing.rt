//! The touched cases of two operations, in canonical order.

ghost use Rattle.std.specs.Prelude.{◌≡◌, true, ℕ, ◌<◌, ◌≤◌, ◌+◌, ◌^◌, ◌++◌, length, filter, IfOk, OnOk, min, suc, ◌∷◌, []};
ghost use Rattle.std.specs.List.{flat_map, AllByRecursion};
ghost use Rattle.spec_model.specs.Fits.{IsWellFormed};
ghost use Rattle.spec_model.specs.Truths as truths;
ghost use Rattle.ground_clauses.specs.Cases as canon;
ghost use Rattle.ground_clauses.specs.Cases.{CaseKnown, TargetKnown, pair_cases};
ghost use Rattle.ground_clauses.specs.Conflicting.{IsTouchedCase};
ghost use Rattle.ground_clauses.specs.Fronts.{is_front};
ghost use Rattle.ground_clauses.specs.Listing.{CaseFits, first_bits, second_bits, IsShape, RisesFrom, limit_at, listed_from, touched_of};

use crate::case::{Case, Target};
use crate::pattern::{class_count, pattern_sorts};
use crate::places::op_at;
use crate::reached::both_reach;
use crate::touched::{has_front, is_touched};
use crate::walk::Cases;
use ind_base::{List, NoMemory};
use spec_model::{Classes, Rule, Spec, Var};
use std::alloc::Global;

/// How many classes the sort of the interval parameter has; none, where there is no such parameter.
fn interval_classes(sorts: &[u32], classes: &[u32], params: &[Var]) -> u64
    ensures { result ≡ canon.interval_classes (canon.class_count sorts.now classes.now) params.now }
{
    for param in params {
        if param.interval {
            return class_count(sorts, classes, param.sort);
        }
    }
    0
}

/// Appends the case, where it is touched.
fn add_touched(spec: &Spec, case: &Case, found: &mut List<Case>) -> Result<(), NoMemory>
    requires known { CaseKnown spec.now case.now }
    requires front { is_front spec.now case.now ≡ true }
    ensures { OnOk result (found.new ≡ found.old ++ filter (canon.is_touched_case spec.now) (case.now ∷ [])) }
{
    if is_touched(spec, case) {
        found.push(*case)?;
    }
    Ok(())
}

/// The weight of this class's bit.
#[tactic(auto, using(crate::proofs::Listed::small_bit))]
fn weight(class: u32) -> u32
    requires { class ≤ 12 }
    ensures value { result ≡ 2 ^ class }
    ensures small { result ≤ 4096 }
{
    1 << class
}

/// Appends the touched cases with all bits of the second interval from this class on.
#[tactic(auto, using(crate::proofs::Listed::second_end, crate::proofs::Listed::second_step, crate::proofs::Listed::small_bit, crate::proofs::Listed::next_bit, crate::proofs::Fronts::front_kept))]
fn add_second_bits(
    spec: &Spec,
    case: &Case,
    class: u32,
    count: u64,
    found: &mut List<Case>,
) -> Result<(), NoMemory>
    requires known { CaseKnown spec.now case.now }
    requires few { class + count ≤ 12 }
    requires below { case.now.bits_b < 2 ^ class }
    requires front { is_front spec.now case.now ≡ true }
    ensures { OnOk result (found.new ≡ found.old ++ filter (canon.is_touched_case spec.now) (second_bits case.now class count)) }
{
    if count == 0 {
        return add_touched(spec, case, found);
    }
    add_second_bits(spec, case, class + 1, count - 1, found)?;
    let within = Case {
        bits_b: case.bits_b + weight(class),
        ..*case
    };
    add_second_bits(spec, &within, class + 1, count - 1, found)?;
    Ok(())
}

/// Appends the touched cases with all bits of both intervals, of the first from this class on.
#[tactic(auto, using(crate::proofs::Listed::first_end, crate::proofs::Listed::first_step, crate::proofs::Listed::small_bit, crate::proofs::Listed::next_bit))]
fn add_first_bits(
    spec: &Spec,
    case: &Case,
    class: u32,
    count: u64,
    second: u64,
    found: &mut List<Case>,
) -> Result<(), NoMemory>
    requires known { CaseKnown spec.now case.now }
    requires few { class + count ≤ 12 }
    requires few_second { second ≤ 12 }
    requires below { case.now.bits_a < 2 ^ class }
    requires none { case.now.bits_b ≡ 0 }
    ensures { OnOk result (found.new ≡ found.old ++ filter (canon.is_touched_case spec.now) (first_bits case.now class count second)) }
{
    if count == 0 {
        return if has_front(spec, case) {
            add_second_bits(spec, case, 0, second, found)
        } else {
            Ok(())
        };
    }
    add_first_bits(spec, case, class + 1, count - 1, second, found)?;
    let within = Case {
        bits_a: case.bits_a + weight(class),
        ..*case
    };
    add_first_bits(spec, &within, class + 1, count - 1, second, found)?;
    Ok(())
}

/// How many elements a sort has.
#[tactic(auto, using(crate::proofs::Reaches::past_end))]
pub(crate) fn size_of(spec: &Spec, sort: u32) -> u32
    ensures { result ≡ truths.size_of spec.now sort }
{
    let sorts = spec.sorts.as_slice();
    if (sort as usize) < sorts.len() {
        sorts[sort as usize].size
    } else {
        0
    }
}

/// Two operations and a target, with the sorts of their pattern.
#[derive(Clone, Copy)]
struct Shape<'a> {
    spec: &'a Spec,
    a: u32,
    b: u32,
    target: Target,
    sorts: &'a [u32],
}

/// Appends the touched cases of these classes, with all bits.
#[tactic(auto, using(crate::proofs::Shapes::bits_are, crate::proofs::Shapes::few_interval))]
fn add_bits(shape: &Shape<'_>, classes: Classes, found: &mut List<Case>) -> Result<(), NoMemory>
    requires shape { IsShape shape.now }
    requires whole { length classes ≡ length shape.now.sorts.now }
    requires rises { RisesFrom 0 classes }
    ensures { OnOk result (found.new ≡ found.old ++ filter (canon.is_touched_case shape.now.spec.now) (canon.class_cases shape.now.spec.now shape.now.a shape.now.b shape.now.target classes)) }
{
    let first = op_at(shape.spec, shape.a).params.as_slice();
    let second = op_at(shape.spec, shape.b).params.as_slice();
    let first_count = interval_classes(shape.sorts, classes.as_slice(), first);
    let second_count = interval_classes(shape.sorts, classes.as_slice(), second);
    let case = Case {
        a: shape.a,
        b: shape.b,
        target: shape.target,
        classes,
        bits_a: 0,
        bits_b: 0,
    };
    add_first_bits(shape.spec, &case, 0, first_count, second_count, found)
}

/// How many classes the next element can have: one of those in use in its sort, or the next one.
#[tactic(auto, using(crate::proofs::Shapes::few_next))]
fn class_limit(shape: &Shape<'_>, front: &Classes) -> u64
    requires room { length front.now < length shape.now.sorts.now }
    requires rises { RisesFrom 0 front.now }
    ensures value { result ≡ limit_at shape.now front.now }
    ensures few { result ≤ length front.now + 1 }
{
    let (before, rest) = shape.sorts.split_at(front.len());
    let used = class_count(before, front.as_slice(), rest[0]);
    u64::from(size_of(shape.spec, rest[0])).min(used + 1)
}

/// These classes and one more.
fn with_class(front: &Classes, class: u64) -> Classes
    requires room { length front.now < 12 }
    requires next { class ≤ length front.now }
    requires rises { RisesFrom 0 front.now }
    ensures value { result ≡ front.now ++ class ∷ [] }
    ensures rises { RisesFrom 0 result }
{
    let mut longer = *front;
    longer.push(class as u32);
    longer
}

/// Appends the touched cases whose first classes are these.
#[tactic(auto, using(crate::proofs::Shapes::listed_end, crate::proofs::Shapes::listed_each))]
fn add_classes(shape: &Shape<'_>, front: Classes, found: &mut List<Case>) -> Result<(), NoMemory>
    requires shape { IsShape shape.now }
    requires room { length front ≤ length shape.now.sorts.now }
    requires rises { RisesFrom 0 front }
    ensures { OnOk result (found.new ≡ found.old ++ filter (canon.is_touched_case shape.now.spec.now) (listed_from shape.now front)) }
{
    if front.len() == shape.sorts.len() {
        return add_bits(shape, front, found);
    }
    for class in 0..class_limit(shape, &front) {
        add_classes(shape, with_class(&front, class), found)?;
    }
    Ok(())
}

/// Appends the touched cases of a shape.
#[tactic(auto, using(crate::proofs::Shapes::whole_target))]
fn add_shape_cases(shape: &Shape<'_>, found: &mut List<Case>) -> Result<(), NoMemory>
    requires { IsShape shape.now }
    ensures { OnOk result (found.new ≡ found.old ++ filter (canon.is_touched_case shape.now.spec.now) (canon.target_cases shape.now.spec.now shape.now.a shape.now.b shape.now.target)) }
{
    add_classes(shape, Classes::new(), found)?;
    Ok(())
}

/// Appends the touched cases of a target.
#[tactic(auto, using(crate::proofs::Without::idle_target))]
fn add_target_cases(
    spec: &Spec,
    a: u32,
    b: u32,
    target: Target,
    found: &mut List<Case>,
) -> Result<(), NoMemory>
    requires well_formed { IsWellFormed spec.now }
    requires known_a { a < length spec.now.ops }
    requires known_b { b < length spec.now.ops }
    requires known { TargetKnown spec.now target }
    ensures { OnOk result (found.new ≡ found.old ++ filter (canon.is_touched_case spec.now) (canon.target_cases spec.now a b target)) }
{
    if !both_reach(spec, a, b, target) {
        return Ok(());
    }
    let sorts = pattern_sorts(spec, a, b, target);
    let shape = Shape {
        spec,
        a,
        b,
        target,
        sorts: sorts.as_slice(),
    };
    add_shape_cases(&shape, found)
}

/// Appends the touched cases of the clauses that aren't marked.
#[tactic(auto, using(crate::proofs::Shapes::clause_step, crate::proofs::Shapes::touched_one))]
fn add_clause_cases(spec: &Spec, a: u32, b: u32, found: &mut List<Case>) -> Result<(), NoMemory>
    requires well_formed { IsWellFormed spec.now }
    requires known_a { a < length spec.now.ops }
    requires known_b { b < length spec.now.ops }
    ensures { OnOk result (found.new ≡ found.old ++ touched_of spec.now a b (canon.clause_targets 0 spec.now.clauses)) }
{
    let clauses = spec.clauses.as_slice();
    for place in 0..clauses.len() {
        if !clauses[place].mask {
            add_target_cases(spec, a, b, Target::Clause(place as u32), found)?;
        }
    }
    Ok(())
}

/// Whether a rule is for predicates whose opposite effects are never concurrent.
pub(crate) fn rule_locks(rule: Rule) -> bool
    ensures { result ≡ truths.rule_locks rule }
{
    match rule {
        Rule::Locked => true,
        Rule::AddWins | Rule::RemoveWins => false,
    }
}

/// Appends the opposing cases of the locked predicates.
#[tactic(auto, using(crate::proofs::Shapes::pred_step, crate::proofs::Shapes::touched_one))]
fn add_pred_cases(spec: &Spec, a: u32, b: u32, found: &mut List<Case>) -> Result<(), NoMemory>
    requires well_formed { IsWellFormed spec.now }
    requires known_a { a < length spec.now.ops }
    requires known_b { b < length spec.now.ops }
    ensures { OnOk result (found.new ≡ found.old ++ touched_of spec.now a b (canon.pred_targets 0 spec.now.preds)) }
{
    let preds = spec.preds.as_slice();
    for place in 0..preds.len() {
        if rule_locks(preds[place].rule) {
            add_target_cases(spec, a, b, Target::Locked(place as u32), found)?;
        }
    }
    Ok(())
}

/// The touched cases of the operations `a` and `b`, in canonical order.
#[tactic(auto, using(crate::proofs::Shapes::touched_both))]
fn list_cases(alloc: Global, spec: &Spec, a: u32, b: u32) -> Result<List<Case>, NoMemory>
    requires well_formed { IsWellFormed spec.now }
    requires known_a { a < length spec.now.ops }
    requires known_b { b < length spec.now.ops }
    ensures { IfOk result (λ found. found ≡ canon.pair_cases spec.now a b) }
{
    let mut found = List::new(alloc);
    add_clause_cases(spec, a, b, &mut found)?;
    add_pred_cases(spec, a, b, &mut found)?;
    Ok(found)
}

/// The touched cases of the operations `a` and `b`, in canonical order. Going over them takes no
/// memory.
#[tactic(auto, using(crate::proofs::Known::pair_known, crate::proofs::Known::pair_touched))]
pub fn cases(alloc: Global, spec: &Spec, a: u32, b: u32) -> Result<Cases, NoMemory>
    requires well_formed { IsWellFormed spec.now }
    requires known_a { a < length spec.now.ops }
    requires known_b { b < length spec.now.ops }
    ensures value { IfOk result (λ left. left ≡ pair_cases spec.now a b) }
    ensures fits { IfOk result (λ left. AllByRecursion (CaseFits spec.now) left) }
    ensures touched { IfOk result (λ left. AllByRecursion (IsTouchedCase spec.now) left) }
{
    let found = list_cases(alloc, spec, a, b)?;
    Ok(Cases::over(found))
}
