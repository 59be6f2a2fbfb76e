//! What two operations do to one another, by the first of their conflicting cases.

ghost use Rattle.std.specs.Prelude.{◌≡◌, ℕ, ◌<◌, ◌≤◌, length, IfOk, Err};
ghost use Rattle.clause_solver.specs.declared.answer.SolveError.TheVariants as errors;
ghost use Rattle.conflict_pairs.specs.Turns as turns;
ghost use Rattle.conflict_pairs.specs.Kinds.{IsKind, IsStuck};
ghost use Rattle.ground_clauses.specs.Cases.{pair_cases};
ghost use Rattle.spec_model.specs.Fits.{IsWellFormed};

use crate::decided::{Decided, decide_in};
use clause_solver::SolveError;
use ground_clauses::{Case, Queries, Target, cases};
use ind_base::List;
use spec_model::Spec;
use std::alloc::Global;

/// What two operations can do to one another.
#[derive(Drop)]
pub enum PairKind {
    /// Together they can make a clause false: the first case in canonical order whose query has a
    /// model, and the least model.
    Violating { case: Case, model: List<bool> },
    /// They do no such thing, but give an atom of this locked predicate opposite truths: that of
    /// the first case that opposes.
    Opposing { pred: u32 },
    /// No case is conflicting.
    Free,
}

/// The first predicate that opposes, once a case with this target was passed.
fn opposing_after(found: Option<u32>, target: Target) -> Option<u32>
    ensures { result ≡ turns.opposing_after found target }
{
    match (found, target) {
        (None, Target::Locked(pred)) => Some(pred),
        _ => found,
    }
}

/// What a case says of its pair: it has this model, or the next case is looked at, and this is the
/// first predicate that opposed so far.
#[derive(Drop)]
enum Turn {
    Ends(List<bool>),
    Goes(Option<u32>),
}

/// What a case with this target says of its pair, by what was found of it.
fn turn_of(opposing: Option<u32>, target: Target, decided: Decided) -> Turn
    ensures { result ≡ turns.turn_of opposing target decided }
{
    match decided {
        Decided::Model(model) => Turn::Ends(model),
        Decided::Opposes => Turn::Goes(opposing_after(opposing, target)),
        Decided::Refuted(_) => Turn::Goes(opposing),
    }
}

/// What the operations `a` and `b` do to one another. `TooHard` comes exactly where the query of a
/// case has more than 128 variables and no earlier case in canonical order has a model.
pub fn classify(alloc: Global, spec: &Spec, a: u32, b: u32) -> Result<PairKind, SolveError>
    requires well_formed { IsWellFormed spec.now }
    requires ordered { a ≤ b }
    requires known { b < length spec.now.ops }
    ensures kind { IfOk result (λ kind. IsKind spec.now a b kind) }
    ensures easy { IfOk result (λ kind. (n : ℕ) → IsStuck spec.now (pair_cases spec.now a b) n → ⊥) }
    ensures cause { (n : ℕ) → result ≡ Err (errors.TooHard n) → IsStuck spec.now (pair_cases spec.now a b) n }
{
    let mut opposing = None;
    let mut queries = Queries::new(alloc, spec);
    let mut left = cases(alloc, spec, a, b)?;
    'going: while let Some(case) = left.next() {
        let decided = decide_in(alloc, spec, &case, &mut queries)?;
        match turn_of(opposing, case.target, decided) {
            Turn::Ends(model) => return Ok(PairKind::Violating { case, model }),
            Turn::Goes(next) => opposing = next,
        }
    }
    match opposing {
        Some(pred) => Ok(PairKind::Opposing { pred }),
        None => Ok(PairKind::Free),
    }
}
