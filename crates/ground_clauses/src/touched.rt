//! Which cases are touched.

ghost use Rattle.std.specs.Prelude.{◌≡◌, ◌<◌, ◌&&◌, true, take, drop, length, get_or, is_some};
ghost use Rattle.std.specs.List.{list_any};
ghost use Rattle.spec_model.specs.Truths as truths;
ghost use Rattle.ground_clauses.specs.Cases as cases;
ghost use Rattle.ground_clauses.specs.Query as queries;
ghost use Rattle.ground_clauses.specs.Cases.{CaseKnown, reaches, reaches_have};
ghost use Rattle.ground_clauses.specs.Fronts.{acts, front_at, is_front};
ghost use Rattle.ground_clauses.specs.Literals.{is_set};

use crate::case::{Case, Target};
use crate::places::{clause_at, op_at};
use crate::reach::{op_sets, plain_class, term_has};
use spec_model::{Args, Clause, Line, Literal, Op, Spec, Term, Var};

/// How many of these parameters are plain.
pub(crate) fn plain_count(params: &[Var]) -> usize
    ensures { result ≡ length (cases.plain_sorts params.now) }
{
    let mut count = 0;
    for param in params {
        if !param.interval {
            count += 1;
        }
    }
    count
}

/// The first numbers, at most so many, and the rest.
pub(crate) fn split_front(numbers: &[u32], count: usize) -> (&[u32], &[u32])
    ensures front { result.0.now ≡ take count numbers.now }
    ensures back { result.1.now ≡ drop count numbers.now }
{
    numbers.split_at(count.min(numbers.len()))
}

/// The classes of these variables.
pub(crate) fn values(classes: &[u32], vars: &Args) -> Args
    ensures { result ≡ truths.values classes.now vars.now }
{
    let mut out = Args::new();
    for var in vars.as_slice() {
        out.push(classes.get(*var as usize).copied().unwrap_or(0));
    }
    out
}

/// What the first operation of a case sets an atom to.
pub(crate) fn first_sets(spec: &Spec, case: &Case, pred: u32, args: &[u32]) -> Option<bool>
    requires { CaseKnown spec.now case.now }
    ensures { result ≡ (cases.case_sets spec.now case.now).one pred args.now }
{
    op_sets(
        op_at(spec, case.a),
        first_classes(spec, case),
        case.bits_a,
        pred,
        args,
    )
}

/// What the second operation of a case sets an atom to.
pub(crate) fn second_sets(spec: &Spec, case: &Case, pred: u32, args: &[u32]) -> Option<bool>
    requires { CaseKnown spec.now case.now }
    ensures { result ≡ (cases.case_sets spec.now case.now).other pred args.now }
{
    op_sets(
        op_at(spec, case.b),
        second_classes(spec, case),
        case.bits_b,
        pred,
        args,
    )
}

/// The class of a plain parameter, by its place, of a case's first operation.
pub fn first_class(spec: &Spec, case: &Case, place: u32) -> Option<u32>
    requires { CaseKnown spec.now case.now }
    ensures { result ≡ cases.class_a spec.now case.now place }
{
    let params = op_at(spec, case.a).params.as_slice();
    plain_class(params, first_classes(spec, case), place as usize)
}

/// The class of a plain parameter, by its place, of a case's second operation.
pub fn second_class(spec: &Spec, case: &Case, place: u32) -> Option<u32>
    requires { CaseKnown spec.now case.now }
    ensures { result ≡ cases.class_b spec.now case.now place }
{
    let params = op_at(spec, case.b).params.as_slice();
    plain_class(params, second_classes(spec, case), place as usize)
}

/// The classes of a case's first operation, one for each plain parameter.
pub fn first_classes<'a>(spec: &Spec, case: &'a Case) -> &'a [u32]
    requires { CaseKnown spec.now case.now }
    ensures { result.now ≡ take (cases.count_a spec.now case.now) case.now.classes }
{
    let params = op_at(spec, case.a).params.as_slice();
    split_front(case.classes.as_slice(), plain_count(params)).0
}

/// The classes of a case's second operation, one for each plain parameter.
pub fn second_classes<'a>(spec: &Spec, case: &'a Case) -> &'a [u32]
    requires { CaseKnown spec.now case.now }
    ensures { result.now ≡ take (cases.count_b spec.now case.now) (drop (cases.count_a spec.now case.now) case.now.classes) }
{
    let params = op_at(spec, case.b).params.as_slice();
    let skipped = plain_count(op_at(spec, case.a).params.as_slice());
    let (_, rest) = split_front(case.classes.as_slice(), skipped);
    split_front(rest, plain_count(params)).0
}

/// The classes of the target's variables, or of a locked predicate's places.
pub fn target_classes<'a>(spec: &Spec, case: &'a Case) -> &'a [u32]
    requires { CaseKnown spec.now case.now }
    ensures { result.now ≡ cases.target_classes spec.now case.now }
{
    let first = plain_count(op_at(spec, case.a).params.as_slice());
    let second = plain_count(op_at(spec, case.b).params.as_slice());
    let (_, rest) = split_front(case.classes.as_slice(), first);
    let (_, target) = split_front(rest, second);
    target
}

/// An operation of a case, with its classes and the bits of its interval.
#[derive(Clone, Copy)]
pub(crate) struct Acting<'a> {
    pub(crate) op: &'a Op,
    pub(crate) classes: &'a [u32],
    pub(crate) bits: u32,
}

/// A case's classes, parted: its two operations with theirs, and those of the target.
#[derive(Clone, Copy)]
pub(crate) struct CaseParts<'a> {
    pub(crate) first: Acting<'a>,
    pub(crate) second: Acting<'a>,
    pub(crate) target: &'a [u32],
}

/// Parts the classes of a case.
pub(crate) fn parts_of<'a>(spec: &'a Spec, case: &'a Case) -> CaseParts<'a>
    requires { CaseKnown spec.now case.now }
    ensures first { acts result.first ≡ (cases.case_sets spec.now case.now).one }
    ensures second { acts result.second ≡ (cases.case_sets spec.now case.now).other }
    ensures target { result.target.now ≡ cases.target_classes spec.now case.now }
{
    let first = op_at(spec, case.a);
    let second = op_at(spec, case.b);
    let (first_classes, rest) = split_front(
        case.classes.as_slice(),
        plain_count(first.params.as_slice()),
    );
    let (second_classes, target) = split_front(rest, plain_count(second.params.as_slice()));
    CaseParts {
        first: Acting {
            op: first,
            classes: first_classes,
            bits: case.bits_a,
        },
        second: Acting {
            op: second,
            classes: second_classes,
            bits: case.bits_b,
        },
        target,
    }
}

/// The class of the variable at this place.
pub(crate) fn class_at(classes: &[u32], place: u32) -> u32
    ensures { result ≡ get_or classes.now place 0 }
{
    classes.get(place as usize).copied().unwrap_or(0)
}

/// Whether the terms of an operation's line touch the atom at the classes of these variables.
fn terms_touch(acting: &Acting<'_>, terms: &[Term], classes: &[u32], vars: &[u32]) -> bool
    ensures { result ≡ truths.terms_touch (reaches_have (reaches acting.now.op.now.params acting.now.classes.now acting.now.bits)) terms.now (truths.values classes.now vars.now) }
{
    let mut left = vars;
    for term in terms {
        let [var, rest @ ..] = left else {
            return false;
        };
        let class = class_at(classes, *var);
        if !term_has(acting.op, acting.classes, acting.bits, term, class) {
            return false;
        }
        left = rest;
    }
    left.is_empty()
}

/// Whether an operation's line sets the predicate's atom at the classes of these variables.
fn line_touches(acting: &Acting<'_>, line: &Line, pred: u32, classes: &[u32], vars: &[u32]) -> bool
    ensures { result ≡ is_some (truths.line_sets (reaches_have (reaches acting.now.op.now.params acting.now.classes.now acting.now.bits)) pred (truths.values classes.now vars.now) line.now) }
{
    match line {
        Line::Set { pred: of, terms } => {
            *of == pred && terms_touch(acting, terms.as_slice(), classes, vars)
        }
        Line::Clear { pred: of, terms } => {
            *of == pred && terms_touch(acting, terms.as_slice(), classes, vars)
        }
        _ => false,
    }
}

/// Whether an operation sets the predicate's atom at the classes of these variables. One line is
/// enough, and the atom isn't made.
#[tactic(auto, using(crate::proofs::Parts::lines_step))]
fn sets_at(acting: &Acting<'_>, pred: u32, classes: &[u32], vars: &[u32]) -> bool
    ensures { result ≡ is_some (acts acting.now pred (truths.values classes.now vars.now)) }
{
    for line in acting.op.lines.as_slice() {
        if line_touches(acting, line, pred, classes, vars) {
            return true;
        }
    }
    false
}

/// Whether some of these literals is an atom that the operation sets.
fn sets_any(acting: &Acting<'_>, literals: &[Literal], classes: &[u32]) -> bool
    ensures { result ≡ list_any (is_set (acts acting.now) classes.now) literals.now }
{
    for literal in literals {
        if let Literal::Atom { pred, vars } = literal {
            if sets_at(acting, *pred, classes, vars.as_slice()) {
                return true;
            }
        }
    }
    false
}

/// Whether the operation touches the clause at the classes.
#[tactic(auto, using(crate::proofs::Parts::touches_parts))]
fn touches(acting: &Acting<'_>, clause: &Clause, classes: &[u32]) -> bool
    ensures { result ≡ cases.touches (acts acting.now) (cases.over clause.now classes.now) }
{
    sets_any(acting, clause.premise.as_slice(), classes)
        || sets_any(acting, clause.conclusion.as_slice(), classes)
}

/// Whether some of these literals is an equality that has this truth at the classes.
fn equality_has(literals: &[Literal], sign: bool, classes: &[u32]) -> bool
    ensures { result ≡ list_any (cases.equality_holds classes.now sign) literals.now }
{
    for literal in literals {
        if let Literal::Equal { left, right } = literal {
            let equal = class_at(classes, *left) == class_at(classes, *right);
            if equal == sign {
                return true;
            }
        }
    }
    false
}

/// Whether the equalities of a clause make it true at these classes.
#[tactic(auto, using(crate::proofs::Parts::equalities_parts))]
pub(crate) fn equalities_true(clause: &Clause, classes: &[u32]) -> bool
    ensures { result ≡ cases.equalities_true (cases.over clause.now classes.now) }
{
    equality_has(clause.premise.as_slice(), false, classes)
        || equality_has(clause.conclusion.as_slice(), true, classes)
}

/// Whether the first operation touches the clause, and its equalities don't make it true.
fn clause_front(spec: &Spec, case: &Case, place: u32) -> bool
    requires known { CaseKnown spec.now case.now }
    requires clause { place < length spec.now.clauses }
    ensures { result ≡ front_at spec.now case.now place }
{
    let clause = clause_at(spec, place);
    let parts = parts_of(spec, case);
    !equalities_true(clause, parts.target) && touches(&parts.first, clause, parts.target)
}

/// Whether the second operation touches the clause.
fn clause_behind(spec: &Spec, case: &Case, place: u32) -> bool
    requires known { CaseKnown spec.now case.now }
    requires clause { place < length spec.now.clauses }
    ensures { result ≡ cases.touches (cases.case_sets spec.now case.now).other (cases.target_of spec.now case.now place) }
{
    let parts = parts_of(spec, case);
    touches(&parts.second, clause_at(spec, place), parts.target)
}

/// Whether the two operations give the locked predicate's atom opposite truths.
fn opposes(spec: &Spec, case: &Case, pred: u32) -> bool
    requires { CaseKnown spec.now case.now }
    ensures { result ≡ cases.opposes spec.now case.now pred }
{
    let classes = target_classes(spec, case);
    let first = first_sets(spec, case, pred, classes);
    let second = second_sets(spec, case, pred, classes);
    match (first, second) {
        (Some(first), Some(second)) => first != second,
        _ => false,
    }
}

/// Whether a case may be touched, by what doesn't go by the second interval.
pub(crate) fn has_front(spec: &Spec, case: &Case) -> bool
    requires { CaseKnown spec.now case.now }
    ensures { result ≡ is_front spec.now case.now }
{
    match case.target {
        Target::Clause(clause) => clause_front(spec, case, clause),
        Target::Locked(_) => true,
    }
}

/// Whether a case that may be touched is; of a locked predicate, whether it opposes.
#[tactic(auto, using(crate::proofs::Fronts::behind_front))]
pub(crate) fn is_touched(spec: &Spec, case: &Case) -> bool
    requires known { CaseKnown spec.now case.now }
    requires front { is_front spec.now case.now ≡ true }
    ensures { result ≡ cases.is_touched_case spec.now case.now }
{
    match case.target {
        Target::Clause(clause) => clause_behind(spec, case, clause),
        Target::Locked(pred) => opposes(spec, case, pred),
    }
}
