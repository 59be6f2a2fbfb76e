//! Which clause the effect of an instance would make false.

ghost use Rattle.std.specs.Prelude.{◌≡◌, ◌<◌, ◌≤◌, ◌+◌, ◌++◌, ◌∷◌, [], length, map, get_or, true, false, List as Numbers, ℕ, IfOk, IsTrue};
ghost use Rattle.std.specs.List.{list_any, find, AllByRecursion};
ghost use Rattle.spec_model.specs.Fits.{IsWellFormed, InstFits, ClauseFits, SortFits};
ghost use Rattle.spec_model.specs.Truths as truths;
ghost use Rattle.spec_model.specs.Universe as universe;
ghost use Rattle.spec_model.specs.Breaks.{broken_by};
ghost use Rattle.effect_model.specs.Laying.{IsLaid, falsifies, first_broken, sets, truths_after};
ghost use Rattle.effect_model.specs.Places.{KnowsAll};
ghost use Rattle.effect_model.specs.Pruning as pruning;
ghost use Rattle.effect_model.specs.Pruning.{ClauseStands, LiteralStands, StandsBehind, tuples_behind};

use crate::layout::size_of;
use crate::pruning::next_broken;
use crate::touching::lines_of;
use crate::truth::{Laid, Truth};
use ind_base::{Args, NoMemory};
use spec_model::{Atom, Broken, Clause, Inst, Literal, Spec, Var};
use std::alloc::Global;

/// The element of a variable.
pub(crate) fn element(xs: &[u32], var: u32) -> u32
    ensures { result ≡ get_or xs.now var 0 }
{
    xs.get(var as usize).copied().unwrap_or(0)
}

/// The elements of these variables.
pub(crate) fn values(xs: &[u32], vars: &Args) -> Args
    ensures { result ≡ truths.values xs.now vars.now }
{
    let mut out = Args::new();
    for var in vars.as_slice() {
        out.push(element(xs, *var));
    }
    out
}

/// Whether the effect sets the literal's atom.
fn literal_set<T: Truth>(laid: &Laid<'_, T>, xs: &[u32], literal: &Literal) -> bool
    requires { IsLaid T.knows laid.now }
    ensures { result ≡ sets laid.now xs.now literal.now }
{
    match literal {
        Literal::Atom { pred, vars } => {
            let args = values(xs, vars);
            laid.sets(*pred, args.as_slice()).is_some()
        }
        Literal::Equal { .. } => false,
    }
}

/// Whether the effect sets the atom of one of these literals.
fn any_set<T: Truth>(laid: &Laid<'_, T>, xs: &[u32], literals: &[Literal]) -> bool
    requires { IsLaid T.knows laid.now }
    ensures { result ≡ list_any (sets laid.now xs.now) literals.now }
{
    for literal in literals {
        if literal_set(laid, xs, literal) {
            return true;
        }
    }
    false
}

/// Whether a literal has this truth once the effect is laid over.
fn literal_true<T: Truth>(laid: &Laid<'_, T>, xs: &[u32], sign: bool, literal: &Literal) -> bool
    requires laid { IsLaid T.knows laid.now }
    requires stands { LiteralStands laid.now.spec.now xs.now literal.now }
    ensures { result ≡ truths.literal_true (truths_after T.truths laid.now) xs.now sign literal.now }
{
    match literal {
        Literal::Atom { pred, vars } => {
            let atom = Atom {
                pred: *pred,
                args: values(xs, vars),
            };
            laid.truth(&atom) == sign
        }
        Literal::Equal { left, right } => (element(xs, *left) == element(xs, *right)) == sign,
    }
}

/// Whether one of these literals has this truth once the effect is laid over. The last ones are asked
/// first: where the search has come to the last variables, the first ones were found to lack it.
fn any_true<T: Truth>(laid: &Laid<'_, T>, xs: &[u32], sign: bool, literals: &[Literal]) -> bool
    requires laid { IsLaid T.knows laid.now }
    requires stand { AllByRecursion (LiteralStands laid.now.spec.now xs.now) literals.now }
    ensures { result ≡ list_any (truths.literal_true (truths_after T.truths laid.now) xs.now sign) literals.now }
{
    let mut at = literals.len();
    'back: while at > 0 {
        at -= 1;
        if literal_true(laid, xs, sign, &literals[at]) {
            return true;
        }
    }
    false
}

/// Whether the effect sets an atom of the clause.
#[tactic(auto, using(crate::proofs::Pruned::any_sides))]
fn clause_set<T: Truth>(laid: &Laid<'_, T>, clause: &Clause, xs: &[u32]) -> bool
    requires { IsLaid T.knows laid.now }
    ensures { result ≡ list_any (λ l. sets laid.now xs.now l.literal) (truths.literals clause.now) }
{
    any_set(laid, xs, clause.premise.as_slice()) || any_set(laid, xs, clause.conclusion.as_slice())
}

/// Whether the clause is true once the effect is laid over.
#[tactic(auto, using(crate::proofs::Pruned::any_other_sides))]
fn clause_true<T: Truth>(laid: &Laid<'_, T>, clause: &Clause, xs: &[u32]) -> bool
    requires laid { IsLaid T.knows laid.now }
    requires stands { ClauseStands laid.now.spec.now xs.now clause.now }
    ensures { result ≡ truths.instance_true (truths_after T.truths laid.now) xs.now clause.now }
{
    // A conclusion is often an equality, which takes least to ask.
    any_true(laid, xs, true, clause.conclusion.as_slice())
        || any_true(laid, xs, false, clause.premise.as_slice())
}

/// Whether the effect makes the clause false at these elements of its variables.
fn breaks_here<T: Truth>(laid: &Laid<'_, T>, clause: &Clause, xs: &[u32]) -> bool
    requires laid { IsLaid T.knows laid.now }
    requires stands { ClauseStands laid.now.spec.now xs.now clause.now }
    ensures { result ≡ falsifies T.truths laid.now clause.now xs.now }
{
    // Most clauses stay true, so that what the effect sets needn't be asked.
    !clause_true(laid, clause, xs) && clause_set(laid, clause, xs)
}

/// Whether all these variables are among the first ones, of which there are so many.
fn are_given(count: usize, vars: &[u32]) -> bool
    ensures { result ≡ pruning.are_given count vars.now }
{
    vars.iter().all(|var| (*var as usize) < count)
}

/// Whether a literal is an atom at variables that are among the first ones.
fn literal_given(count: usize, literal: &Literal) -> bool
    ensures { result ≡ pruning.literal_given count literal.now }
{
    match literal {
        Literal::Atom { vars, .. } => are_given(count, vars.as_slice()),
        Literal::Equal { .. } => false,
    }
}

/// Whether a literal has this truth whatever comes behind the first elements.
fn literal_stays<T: Truth>(laid: &Laid<'_, T>, front: &[u32], sign: bool, literal: &Literal) -> bool
    requires laid { IsLaid T.knows laid.now }
    requires stands { (behind : Numbers ℕ) × LiteralStands laid.now.spec.now (front.now ++ behind) literal.now }
    ensures { IsTrue result → (behind : Numbers ℕ) → truths.literal_true (truths_after T.truths laid.now) (front.now ++ behind) sign literal.now ≡ true }
{
    literal_given(front.len(), literal) && literal_true(laid, front, sign, literal)
}

/// Whether one of these literals has this truth whatever comes behind the first elements.
fn any_stays<T: Truth>(laid: &Laid<'_, T>, front: &[u32], sign: bool, literals: &[Literal]) -> bool
    requires laid { IsLaid T.knows laid.now }
    requires stand { (behind : Numbers ℕ) × AllByRecursion (LiteralStands laid.now.spec.now (front.now ++ behind)) literals.now }
    ensures { IsTrue result → (behind : Numbers ℕ) → list_any (truths.literal_true (truths_after T.truths laid.now) (front.now ++ behind) sign) literals.now ≡ true }
{
    for literal in literals {
        if literal_stays(laid, front, sign, literal) {
            return true;
        }
    }
    false
}

/// Whether the clause is true, once the effect is laid over, whatever comes behind the first elements.
fn clause_stays<T: Truth>(laid: &Laid<'_, T>, clause: &Clause, front: &[u32]) -> bool
    requires laid { IsLaid T.knows laid.now }
    requires stands { (behind : Numbers ℕ) × ClauseStands laid.now.spec.now (front.now ++ behind) clause.now }
    ensures { IsTrue result → (behind : Numbers ℕ) → truths.instance_true (truths_after T.truths laid.now) (front.now ++ behind) clause.now ≡ true }
{
    any_stays(laid, front, false, clause.premise.as_slice())
        || any_stays(laid, front, true, clause.conclusion.as_slice())
}

/// Whether there are few tuples below these sizes.
fn are_few(sizes: &[u32]) -> bool
    ensures { IsTrue result → (length sizes.now ≤ 2) × AllByRecursion (λ size. size ≤ 4) sizes.now }
{
    match sizes {
        [size] => *size <= 4,
        [size, other] => *size <= 4 && *other <= 4,
        _ => false,
    }
}

/// The first element, from this one on, behind which the effect may make the clause false.
fn next_behind<T>(
    laid: &Laid<'_, T>,
    clause: &Clause,
    front: &[u32],
    sizes: &[u32],
    from: u32,
) -> u32
    ensures later { from ≤ result }
    ensures untouched { (x : ℕ) → from ≤ x → x < result → pruning.clause_may laid.now.inst.now (truths.op_at laid.now.spec.now laid.now.inst.now.op).lines (front.now ++ x ∷ []) clause.now ≡ false }
{
    // To look at each of a few tuples takes less than to seek those that may be.
    if are_few(sizes) {
        return from;
    }
    let lines = lines_of(laid.spec, laid.inst);
    next_broken(laid.inst, lines, clause, front, from)
}

/// The first elements, of those that begin so, at which the effect makes the clause false.
fn find_broken<T: Truth>(
    laid: &Laid<'_, T>,
    clause: &Clause,
    front: Args,
    sizes: &[u32],
) -> Option<Args>
    requires laid { IsLaid T.knows laid.now }
    requires few { length front + length sizes.now ≤ 4 }
    requires some { AllByRecursion (λ size. 1 ≤ size) sizes.now }
    requires stands { StandsBehind laid.now.spec.now clause.now front sizes.now }
    ensures { result ≡ find (falsifies T.truths laid.now clause.now) (tuples_behind front sizes.now) }
{
    if sizes.is_empty() {
        return if breaks_here(laid, clause, front.as_slice()) {
            Some(front)
        } else {
            None
        };
    }
    if clause_stays(laid, clause, front.as_slice()) {
        return None;
    }
    let (first, others) = sizes.split_at(1);
    let size = first[0];
    let mut x = 0;
    for _turn in 0..size {
        let next = next_behind(laid, clause, front.as_slice(), sizes, x);
        if next >= size {
            return None;
        }
        let mut longer = front;
        longer.push(next);
        let found = find_broken(laid, clause, longer, others);
        if found.is_some() {
            return found;
        }
        x = next + 1;
    }
    None
}

/// How many elements each variable ranges over.
pub(crate) fn var_sizes(spec: &Spec, vars: &[Var]) -> Args
    requires { length vars.now ≤ 4 }
    ensures { result ≡ universe.sizes_of spec.now (map (λ v. v.sort) vars.now) }
{
    let mut sizes = Args::new();
    for var in vars {
        sizes.push(size_of(spec, var.sort));
    }
    sizes
}

/// The first elements of its variables at which the effect makes the clause false.
fn clause_broken<T: Truth>(laid: &Laid<'_, T>, clause: &Clause) -> Option<Args>
    requires laid { IsLaid T.knows laid.now }
    requires sorts { AllByRecursion SortFits laid.now.spec.now.sorts }
    requires fits { ClauseFits laid.now.spec.now clause.now }
    ensures { result ≡ first_broken T.truths laid.now clause.now }
{
    let sizes = var_sizes(laid.spec, clause.vars.as_slice());
    find_broken(laid, clause, Args::new(), sizes.as_slice())
}

/// The first clause, and the first elements of its variables, that has an atom which the effect
/// sets and that is false once the effect is laid over the state; `None` where there is none.
pub fn breaks<T: Truth>(
    _alloc: Global,
    spec: &Spec,
    state: &T,
    inst: &Inst,
) -> Result<Option<Broken>, NoMemory>
    requires well_formed { IsWellFormed spec.now }
    requires fits { InstFits spec.now inst.now }
    requires knows { KnowsAll (T.knows state.now) spec.now }
    ensures { IfOk result (λ broken. broken ≡ broken_by spec.now (T.truths state.now) inst.now) }
{
    let laid = Laid { spec, state, inst };
    for (at, clause) in spec.clauses.as_slice().iter().enumerate() {
        if let Some(args) = clause_broken(&laid, clause) {
            return Ok(Some(Broken {
                clause: at as u32,
                args,
            }));
        }
    }
    Ok(None)
}
