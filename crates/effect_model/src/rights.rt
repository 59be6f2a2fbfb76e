//! Whether there is a right.

ghost use Rattle.std.specs.Prelude.{◌≡◌, ◌↔◌, is_some, IsTrue, Contains};
ghost use Rattle.std.specs.List.{AllByRecursion};
ghost use Rattle.spec_model.specs.AllRights.{rights_of, is_atom};
ghost use Rattle.spec_model.specs.Fits.{IsWellFormed, PlanFits};
ghost use Rattle.spec_model.specs.Truths as truths;
ghost use Rattle.spec_model.specs.Truths.{Within};
ghost use Rattle.spec_model.specs.Universe.{lower_bound, upper_bound, sizes_of};
ghost use Rattle.effect_model.specs.Rights as rights;
ghost use Rattle.effect_model.specs.Rights.{HasShortKey, IsEntry, IsKey, RightFits, key_sorts};

use crate::breaking::var_sizes;
use crate::fitting::cell_fits;
use crate::layout::size_of;
use spec_model::{Args, Cell, Clause, Literal, LockKind, Right, Setup, Spec, Var};

/// The parameters of an operation; none, if it isn't declared.
fn params_of(spec: &Spec, op: u32) -> &[Var]
    ensures { result.now ≡ (truths.op_at spec.now op).params }
{
    match spec.ops.get(op as usize) {
        Some(op) => op.params.as_slice(),
        None => &[],
    }
}

/// The sort of a parameter.
fn sort_of(params: &[Var], place: u32) -> u32
    ensures { result ≡ truths.sort_of params.now place }
{
    match params.get(place as usize) {
        Some(param) => param.sort,
        None => 0,
    }
}

/// How many elements each place of a key ranges over.
pub(crate) fn key_sizes(spec: &Spec, kind: &LockKind) -> Args
    requires { HasShortKey kind.now }
    ensures { result ≡ sizes_of spec.now (key_sorts spec.now kind.now) }
{
    let params = params_of(spec, kind.a);
    let mut sizes = Args::new();
    for pair in kind.key.as_slice() {
        sizes.push(size_of(spec, sort_of(params, pair.a)));
    }
    sizes
}

/// Whether these are numbers below these sizes.
fn are_below(sizes: &[u32], args: &[u32]) -> bool
    ensures { IsTrue result ↔ Within (λ s. s) sizes.now args.now }
{
    let mut left = args;
    for size in sizes {
        let [arg, rest @ ..] = left else {
            return false;
        };
        if *arg >= *size {
            return false;
        }
        left = rest;
    }
    left.is_empty()
}

/// Whether the cell's number has a lower bound.
fn has_lower(spec: &Spec, cell: &Cell) -> bool
    ensures { result ≡ is_some (lower_bound spec.now cell.now) }
{
    match spec.nums.get(cell.num as usize) {
        Some(num) => num.min.is_some(),
        None => false,
    }
}

/// Whether the cell's number has an upper bound.
fn has_upper(spec: &Spec, cell: &Cell) -> bool
    ensures { result ≡ is_some (upper_bound spec.now cell.now) }
{
    match spec.nums.get(cell.num as usize) {
        Some(num) => num.max.is_some(),
        None => false,
    }
}

/// Whether this is a key of one of these locks or partitions.
fn is_key(spec: &Spec, kinds: &[LockKind], at: u32, key: &Args) -> bool
    requires { AllByRecursion HasShortKey kinds.now }
    ensures { IsTrue result ↔ IsKey spec.now kinds.now at key.now }
{
    match kinds.get(at as usize) {
        Some(kind) => are_below(key_sizes(spec, kind).as_slice(), key.as_slice()),
        None => false,
    }
}

/// Whether a literal is an atom.
pub(crate) fn is_atom(literal: &Literal) -> bool
    ensures { result ≡ is_atom literal.now }
{
    match literal {
        Literal::Atom { .. } => true,
        Literal::Equal { .. } => false,
    }
}

/// Whether the literal at this place, counted over premise and conclusion, is an atom.
fn has_atom(clause: &Clause, place: u32) -> bool
    requires { rights.HasFewLiterals clause.now }
    ensures { result ≡ rights.has_atom clause.now place }
{
    let place = place as usize;
    let premise = clause.premise.as_slice();
    let found = if place < premise.len() {
        premise.get(place)
    } else {
        clause.conclusion.get(place - premise.len())
    };
    match found {
        Some(literal) => is_atom(literal),
        None => false,
    }
}

/// Whether this is an atom of a declared clause, at elements of its variables' sorts.
fn is_entry(spec: &Spec, clause: u32, args: &Args, literal: u32) -> bool
    requires { IsWellFormed spec.now }
    ensures { IsTrue result ↔ IsEntry spec.now clause args.now literal }
{
    match spec.clauses.get(clause as usize) {
        Some(clause) => {
            let sizes = var_sizes(spec, clause.vars.as_slice());
            are_below(sizes.as_slice(), args.as_slice()) && has_atom(clause, literal)
        }
        None => false,
    }
}

/// Whether this number is one of these.
fn is_among(numbers: &[u32], number: u32) -> bool
    ensures { IsTrue result ↔ Contains numbers.now number }
{
    numbers.contains(&number)
}

/// Whether a right is one of a setup's, whose keys are short.
fn is_right(setup: &Setup, right: &Right) -> bool
    requires well_formed { IsWellFormed setup.now.spec }
    requires locks { AllByRecursion HasShortKey setup.now.plan.locks }
    requires parts { AllByRecursion HasShortKey setup.now.plan.parts }
    ensures { IsTrue result ↔ RightFits setup.now right.now }
{
    let spec = &setup.spec;
    let plan = &setup.plan;
    match right {
        Right::Low(cell) => cell_fits(spec, cell) && has_lower(spec, cell),
        Right::High(cell) => cell_fits(spec, cell) && has_upper(spec, cell),
        Right::Lock { lock, key } => is_key(spec, plan.locks.as_slice(), *lock, key),
        Right::Entry {
            clause,
            args,
            literal,
        } => is_among(plan.masks.as_slice(), *clause) && is_entry(spec, *clause, args, *literal),
        Right::Part { part, key } => is_key(spec, plan.parts.as_slice(), *part, key),
    }
}

/// Whether there is this right in a setup.
pub fn right_fits(setup: &Setup, right: &Right) -> bool
    requires well_formed { IsWellFormed setup.now.spec }
    requires plan { PlanFits setup.now.spec setup.now.plan }
    ensures { IsTrue result ↔ Contains (rights_of setup.now) right.now }
{
    is_right(setup, right)
}
